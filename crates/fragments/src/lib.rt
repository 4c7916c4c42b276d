// The boxes of a track fragment, each parser over its own body: header, decode time, run, and one sample of a run.
#![tactic(auto)]

mod fields;

ghost use Rattle.std.specs.Prelude.{◌≡◌, true, ◌+◌, ◌≤◌, ◌<◌, length};
ghost use Rattle.std.specs.Int.Signed.{mag};
ghost use Rattle.fragments.specs.FullBoxes.{version_of, flag_in, optional, field_at};
ghost use Rattle.fragments.specs.Headers.{header_of};
ghost use Rattle.fragments.specs.Runs.{first_flags_at, columns_at, size_column, flags_column, offset_column, width_of, run_by, run_of, offset_by, sample_from, flags_of, sample_at, Fitting};
ghost use Rattle.fragments.specs.Times.{time_of};

use boxes::Malformed;
use fields::Fields;
use media_times::Sample;

// What holds of a sample that says nothing else.
#[derive(Clone, Copy)]
pub struct Defaults {
    pub duration: u32,
    pub size: u32,
    pub flags: u32,
}

// A track fragment's header: its track's ID, and the defaults in it.
#[derive(Clone, Copy)]
pub struct Header {
    pub id: u32,
    pub defaults: Defaults,
}

// A run: its version and flags as they stand, and how many samples it has.
#[derive(Clone, Copy)]
pub struct Run {
    pub word: u32,
    pub count: u32,
}

// The flags of a header: the fields that it has.
const BASE_DATA_OFFSET: u32 = 1;

const SAMPLE_DESCRIPTION: u32 = 2;

const DEFAULT_DURATION: u32 = 8;

const DEFAULT_SIZE: u32 = 16;

const DEFAULT_FLAGS: u32 = 32;

// ---- full boxes

fn version_of(word: u32) -> u32
    ensures { result ≡ version_of word }
{
    word / 16777216
}

fn flag_in(word: u32, flag: u32) -> bool
    requires { 0 < flag }
    ensures { result ≡ flag_in word flag }
{
    word / flag % 2 == 1
}

fn optional(word: u32, flag: u32, n: usize) -> usize
    requires { 0 < flag }
    ensures { (result ≡ optional word flag n) × (result ≤ n) }
{
    if flag_in(word, flag) {
        return n;
    }
    0
}

fn field_at(b: &[u8], at: usize, there: bool, default: u32) -> u32
    requires { there ≡ true → at + 4 ≤ length b.now }
    ensures { result ≡ field_at b.now at there default }
{
    if there {
        return boxes::read4(b, at);
    }
    default
}

// ---- track fragment header

// The header in the body of a `tfhd`. A default that it does not have is the call's.
#[tactic(auto, unfolding(crate::specs::Headers::header_of))]
pub fn header_of(d: Defaults, b: &[u8]) -> Result<Header, Malformed>
    ensures { result ≡ header_of d b.now }
{
    let mut fields = Fields::new(b);
    let word = fields.u32()?;
    if version_of(word) != 0 {
        return Err(Malformed);
    }
    let id = fields.u32()?;
    fields.skip(optional(word, BASE_DATA_OFFSET, 8))?;
    fields.skip(optional(word, SAMPLE_DESCRIPTION, 4))?;
    let duration = fields.optional(flag_in(word, DEFAULT_DURATION), d.duration)?;
    let size = fields.optional(flag_in(word, DEFAULT_SIZE), d.size)?;
    let flags = fields.optional(flag_in(word, DEFAULT_FLAGS), d.flags)?;
    Ok(Header {
        id,
        defaults: Defaults {
            duration,
            size,
            flags,
        },
    })
}

// ---- decode time

// The decode time in the body of a `tfdt`.
#[tactic(auto, unfolding(crate::specs::Times::time_of))]
pub fn time_of(b: &[u8]) -> Result<u64, Malformed>
    ensures { result ≡ time_of b.now }
{
    let mut fields = Fields::new(b);
    let word = fields.u32()?;
    match version_of(word) {
        0 => Ok(u64::from(fields.u32()?)),
        1 => fields.u64(),
        _ => Err(Malformed),
    }
}

// ---- run

fn first_flags_at(word: u32) -> usize
    ensures { (result ≡ first_flags_at word) × (result ≤ 12) }
{
    8 + optional(word, 1, 4)
}

fn columns_at(word: u32) -> usize
    ensures { (result ≡ columns_at word) × (result ≤ 16) }
{
    first_flags_at(word) + optional(word, 4, 4)
}

fn size_column(word: u32) -> usize
    ensures { (result ≡ size_column word) × (result ≤ 4) }
{
    optional(word, 256, 4)
}

fn flags_column(word: u32) -> usize
    ensures { (result ≡ flags_column word) × (result ≤ 8) }
{
    size_column(word) + optional(word, 512, 4)
}

fn offset_column(word: u32) -> usize
    ensures { (result ≡ offset_column word) × (result ≤ 12) }
{
    flags_column(word) + optional(word, 1024, 4)
}

// The bytes of a sample's columns.
pub fn width_of(word: u32) -> usize
    ensures { (result ≡ width_of word) × (result ≤ 16) }
{
    offset_column(word) + optional(word, 2048, 4)
}

fn run_by(b: &[u8], word: u32, count: u32) -> Result<Run, Malformed>
    ensures { result ≡ run_by b.now word count }
{
    if word / 16777216 > 1 {
        return Err(Malformed);
    }
    let from = columns_at(word);
    let width = width_of(word);
    if b.len() < from + (count as usize) * width {
        return Err(Malformed);
    }
    Ok(Run { word, count })
}

// The run in the body of a `trun`.
#[tactic(auto, unfolding(crate::specs::Runs::run_of))]
pub fn run_of(b: &[u8]) -> Result<Run, Malformed>
    ensures { result ≡ run_of b.now }
{
    let mut fields = Fields::new(b);
    let word = fields.u32()?;
    let count = fields.u32()?;
    run_by(b, word, count)
}

// ---- a sample of a run
// Found by its place and not read in turn: of a run without columns only those samples are walked that a place is left for.

fn offset_by(word: u32, n: u32) -> i64
    ensures { (result ≡ offset_by word n) × (mag result < 4294967296) }
{
    if word / 16777216 == 0 {
        return n as i64;
    }
    if n < 2147483648 {
        return n as i64;
    }
    (n as i64) - 4294967296
}

fn sample_from(r: Run, i: u32) -> usize
    ensures { result ≡ sample_from r i }
{
    columns_at(r.word) + (i as usize) * width_of(r.word)
}

fn flags_of(b: &[u8], r: Run, i: u32, own: u32) -> u32
    requires { columns_at r.word ≤ length b.now }
    ensures { result ≡ flags_of b.now r i own }
{
    if i != 0 {
        return own;
    }
    if flag_in(r.word, 4) {
        return boxes::read4(b, first_flags_at(r.word));
    }
    own
}

// Sample i of a run, at a decode time.
pub fn sample_at(d: Defaults, r: Run, b: &[u8], i: u32, time: u64) -> Sample
    requires { Fitting b.now r × (i < r.count) }
    ensures { (result ≡ sample_at d r b.now i time) × (mag result.offset < 4294967296) }
{
    let word = r.word;
    let at = sample_from(r, i);
    let duration = field_at(b, at, flag_in(word, 256), d.duration);
    let size = field_at(b, at + size_column(word), flag_in(word, 512), d.size);
    let own = field_at(b, at + flags_column(word), flag_in(word, 1024), d.flags);
    let raw = field_at(b, at + offset_column(word), flag_in(word, 2048), 0);
    let offset = offset_by(word, raw);
    let flags = flags_of(b, r, i, own);
    Sample {
        time,
        offset,
        duration,
        size,
        flags,
    }
}

// The calls for programs in C, C++ and Rust: the head laid flat as numbers, by value, and the arrays as the program lends them.
// include/galumper.h declares the same for C, and a buffer of a head and its arrays with calls that take a pointer to it.
// Here they are functions for other crates; `galumper_c` exports each under its name, with the same promises.
// Any bits may be handed in. A flag is a number and no bool, since a bool that holds neither 0 nor 1 must not even be loaded. A double
// of the head is its 64 bits, and each number is as wide as its place, so that no byte of a head is padding: what is promised of a head is
// promised of every bit of it, a NaN's too. A head with a number that is none of its kind is not well-formed.

#![tactic(auto)]

ghost use Rattle.std.specs.Prelude.{◌≡◌, cond, map, ◌≤◌, length};
ghost use Rattle.std.specs.List.{list_all};
ghost use Rattle.buffer_state.specs.Answers.{times_created, tags_created, times_after, tags_after, list_after, outcome_of, abort_result, mode_result, offset_result, window_start_result, window_end_result, settings_result, range_count, ranges_after, track_ranges_result, common_ranges_result, walked_result, seek_result};
ghost use Rattle.buffer_state.specs.Layout.{buffer_of};
ghost use Rattle.buffer_state.specs.Lent.{state_at};
ghost use Rattle.buffer_state.specs.Run.{stored_on};
ghost use Rattle.buffer_state.specs.declared.Mode.TheVariants.{Segments, Sequence};
ghost use Rattle.buffer_state.specs.Settings.{create};
ghost use Rattle.segments.specs.Segments.{list_segment, row_count, rows_after};
ghost use Rattle.feed.specs.Feed.{feed_of, feed_at};
ghost use Rattle.feed.specs.Parts.{part_of, bytes_in, pointer_in};
ghost use Rattle.lumps.specs.Lumps.{more_result, buffer_after, frames_after};
ghost use Rattle.lumps.specs.Readers.{reader_of};
ghost use Rattle.lumps.specs.Readings.{fresh};
ghost use Rattle.galumper.specs.Calls.{answered_out, handed_back, created_out, outcome_out, append_flat, remove_flat, batched_out, batch_flat, batch_out, report_out, start_out, is_nonzero, part_in, lumped_out, last_flat, lump_out, reading_out};
ghost use Rattle.galumper.specs.Flat.{abi, buffer_size, flag_out, mode_in, mode_out, end_in, bounded_out, end_out, track_in, track_out, group_in, group_out, setting_in, setting_out, settings_in, settings_out, duration_in, offered_in, segment_track_in, phase_in, phase_out, reader_in, reader_out, plain_track, plain_end, plain_settings, plain_head, head_in, head_out};

use buffer_state::{
    Accepted, Group, Head, Mode, Offered, Refusal, Setting, Settings, Start, Tags, Times, Track,
    WindowEnd,
};
use fragments::Defaults;
use lumps::{LumpReader, Phase};
use segments::SegmentTrack;
use std::num::{f64_from_bits_with_nan, f64_to_bits_with_nan};

// ---- what C sees

#[repr(C)]
#[derive(Clone, Copy)]
pub struct FlatOffered {
    pub track: u32,
    pub flagged: u8,
    pub duration: u32,
    pub pts: i64,
    pub dts: i64,
}

// The track of a segment that is read: its ID there, the track number that its frames shall carry, its timescale, and its defaults.
#[repr(C)]
#[derive(Clone, Copy)]
pub struct FlatSegmentTrack {
    pub id: u32,
    pub track: u32,
    pub timescale: u32,
    pub duration: u32,
    pub size: u32,
    pub flags: u32,
}

// A reader of a segment in lumps. Its phase is 0 to 3: in a header, in a body that is passed over, in one that is kept, stuck.
#[repr(C)]
#[derive(Clone, Copy)]
pub struct FlatLumpReader {
    pub head: [u8; 16],
    pub left: u64,
    pub kept: usize,
    pub seen: usize,
    pub phase: u32,
    pub fragments: u32,
}

#[repr(C)]
#[derive(Clone, Copy)]
pub struct FlatTrack {
    pub kind: u8,
    pub known: u8,
    pub need: u16,
    pub duration: u32,
    pub dts: i64,
    pub end: i64,
}

#[repr(C)]
#[derive(Clone, Copy)]
pub struct FlatGroup {
    pub begun: u32,
    pub number: u32,
    pub start: i64,
    pub end: i64,
}

// A setting: the bits of the double as it was given, beside its microseconds.
#[repr(C)]
#[derive(Clone, Copy)]
pub struct FlatSetting {
    pub bits: u64,
    pub micros: i64,
}

#[repr(C)]
#[derive(Clone, Copy)]
pub struct FlatSettings {
    pub offset: FlatSetting,
    pub start: FlatSetting,
    pub bounded: u64,
    pub end: u64,
    pub limit: i64,
}

// All of a state but its frames.
#[repr(C)]
#[derive(Clone, Copy)]
pub struct FlatHead {
    pub tracks: [FlatTrack; 4],
    pub ntracks: usize,
    pub nframes: usize,
    pub mode: u32,
    pub last: u32,
    pub group: FlatGroup,
    pub settings: FlatSettings,
}

// What a call answers: its refusal number (0: done), and how many fate lines, ranges or frames it wrote, or frames that a walk took.
#[repr(C)]
#[derive(Clone, Copy)]
pub struct FlatAnswer {
    pub refusal: u32,
    pub count: usize,
}

// What a call that can change the state hands back: the head after it, and its answer.
#[repr(C)]
#[derive(Clone, Copy)]
pub struct Answered {
    pub head: FlatHead,
    pub answer: FlatAnswer,
}

// What a batch answers: the refusal number of the whole call (0: done), that of the frame which stopped it (0: none), how many frames were
// accepted, and how many fate lines it wrote.
#[repr(C)]
#[derive(Clone, Copy)]
pub struct FlatBatch {
    pub refusal: u32,
    pub stop: u32,
    pub accepted: usize,
    pub count: usize,
}

#[repr(C)]
#[derive(Clone, Copy)]
pub struct FlatBatched {
    pub head: FlatHead,
    pub answer: FlatBatch,
}

// What a lump answers, with the reader after it.
#[repr(C)]
#[derive(Clone, Copy)]
pub struct FlatLumped {
    pub reader: FlatLumpReader,
    pub answer: FlatAnswer,
}

// What a seek answers: its refusal number (0: done), the number of the frame that covers the instant, that of the random access point from
// which to decode, and how many frames there are to decode.
#[repr(C)]
#[derive(Clone, Copy)]
pub struct FlatStart {
    pub refusal: u32,
    pub target: u32,
    pub flagged: u32,
    pub count: usize,
}

// Where the bytes to feed start in what was lent, and how many they are.
#[repr(C)]
#[derive(Clone, Copy)]
pub struct FlatPart {
    pub start: usize,
    pub length: usize,
}

// What reading the settings answers: the doubles as they were given.
#[repr(C)]
#[derive(Clone, Copy)]
pub struct Reading {
    pub refusal: u32,
    pub bounded: u8,
    pub offset: f64,
    pub start: f64,
    pub end: f64,
}

// ---- numbers that stand for something

fn flag_out(b: bool) -> u8
    ensures { result ≡ flag_out b }
{
    if b { 1 } else { 0 }
}

fn mode_in(n: u32) -> Mode
    ensures { result ≡ mode_in n }
{
    if n == 1 {
        Mode::Sequence
    } else {
        Mode::Segments
    }
}

fn mode_out(m: Mode) -> u32
    ensures { result ≡ mode_out m }
{
    match m {
        Mode::Segments => 0,
        Mode::Sequence => 1,
    }
}

fn end_in(bounded: u64, bits: u64) -> WindowEnd
    ensures { result ≡ end_in bounded bits }
{
    if bounded == 1 {
        WindowEnd::At(f64_from_bits_with_nan(bits))
    } else {
        WindowEnd::Unbounded
    }
}

fn bounded_out(end: WindowEnd) -> u64
    ensures { result ≡ bounded_out end }
{
    match end {
        WindowEnd::Unbounded => 0,
        WindowEnd::At(_) => 1,
    }
}

fn end_out(end: WindowEnd) -> u64
    ensures { result ≡ end_out end }
{
    match end {
        WindowEnd::Unbounded => 0,
        WindowEnd::At(x) => f64_to_bits_with_nan(x),
    }
}

// ---- the parts of a head, in and out

impl From<FlatTrack> for Track {
    ghost from_gives = { λ flat t. t ≡ track_in flat };

    fn from(t: FlatTrack) -> Track {
        Track {
            kind: t.kind,
            known: t.known == 1,
            need: t.need == 1,
            duration: t.duration,
            dts: t.dts,
            end: t.end,
        }
    }
}

impl From<Track> for FlatTrack {
    ghost from_gives = { λ t flat. flat ≡ track_out t };

    fn from(t: Track) -> FlatTrack {
        FlatTrack {
            kind: t.kind,
            known: flag_out(t.known),
            need: flag_out(t.need) as u16,
            duration: t.duration,
            dts: t.dts,
            end: t.end,
        }
    }
}

fn tracks_in(ts: [FlatTrack; 4]) -> [Track; 4]
    ensures { result ≡ map track_in ts }
{
    [ts[0].into(), ts[1].into(), ts[2].into(), ts[3].into()]
}

fn tracks_out(ts: [Track; 4]) -> [FlatTrack; 4]
    ensures { result ≡ map track_out ts }
{
    [ts[0].into(), ts[1].into(), ts[2].into(), ts[3].into()]
}

impl From<FlatGroup> for Group {
    ghost from_gives = { λ flat g. g ≡ group_in flat };

    fn from(g: FlatGroup) -> Group {
        Group {
            begun: g.begun == 1,
            start: g.start,
            end: g.end,
            number: g.number,
        }
    }
}

impl From<Group> for FlatGroup {
    ghost from_gives = { λ g flat. flat ≡ group_out g };

    fn from(g: Group) -> FlatGroup {
        FlatGroup {
            begun: flag_out(g.begun) as u32,
            number: g.number,
            start: g.start,
            end: g.end,
        }
    }
}

impl From<FlatSetting> for Setting {
    ghost from_gives = { λ flat x. x ≡ setting_in flat };

    fn from(x: FlatSetting) -> Setting {
        Setting {
            seconds: f64_from_bits_with_nan(x.bits),
            micros: x.micros,
        }
    }
}

impl From<Setting> for FlatSetting {
    ghost from_gives = { λ x flat. flat ≡ setting_out x };

    fn from(x: Setting) -> FlatSetting {
        FlatSetting {
            bits: f64_to_bits_with_nan(x.seconds),
            micros: x.micros,
        }
    }
}

impl From<FlatSettings> for Settings {
    ghost from_gives = { λ flat t. t ≡ settings_in flat };

    fn from(t: FlatSettings) -> Settings {
        Settings {
            offset: t.offset.into(),
            start: t.start.into(),
            end: end_in(t.bounded, t.end),
            limit: t.limit,
        }
    }
}

impl From<Settings> for FlatSettings {
    ghost from_gives = { λ t flat. flat ≡ settings_out t };

    fn from(t: Settings) -> FlatSettings {
        FlatSettings {
            offset: t.offset.into(),
            start: t.start.into(),
            bounded: bounded_out(t.end),
            end: end_out(t.end),
            limit: t.limit,
        }
    }
}

// The duration of a frame whose flag is one; else 0, which is outside the limit of a duration.
fn duration_in(flagged: u8, duration: u32) -> u32
    ensures { result ≡ duration_in flagged duration }
{
    if flagged <= 1 { duration } else { 0 }
}

impl From<FlatOffered> for Offered {
    ghost from_gives = { λ flat f. f ≡ offered_in flat };

    fn from(f: FlatOffered) -> Offered {
        Offered {
            track: f.track,
            flagged: f.flagged == 1,
            duration: duration_in(f.flagged, f.duration),
            pts: f.pts,
            dts: f.dts,
        }
    }
}

impl From<FlatSegmentTrack> for SegmentTrack {
    ghost from_gives = { λ flat t. t ≡ segment_track_in flat };

    fn from(f: FlatSegmentTrack) -> SegmentTrack {
        SegmentTrack {
            id: f.id,
            track: f.track,
            timescale: f.timescale,
            defaults: Defaults {
                duration: f.duration,
                size: f.size,
                flags: f.flags,
            },
        }
    }
}

// ---- a reader, in and out

// A number that is no phase stands for the one in which no reader is handed out.
fn phase_in(n: u32) -> Phase
    ensures { result ≡ phase_in n }
{
    match n {
        0 => Phase::Heading,
        1 => Phase::Passing,
        2 => Phase::Keeping,
        3 => Phase::Stuck,
        _ => Phase::Large,
    }
}

fn phase_out(phase: Phase) -> u32
    ensures { result ≡ phase_out phase }
{
    match phase {
        Phase::Heading => 0,
        Phase::Passing => 1,
        Phase::Keeping => 2,
        Phase::Stuck => 3,
        Phase::Large => 4,
    }
}

impl From<FlatLumpReader> for LumpReader {
    ghost from_gives = { λ flat r. r ≡ reader_in flat };

    fn from(c: FlatLumpReader) -> LumpReader {
        let head = c.head;
        LumpReader {
            phase: phase_in(c.phase),
            head,
            seen: c.seen,
            left: c.left,
            fragments: c.fragments,
            kept: c.kept,
        }
    }
}

impl From<LumpReader> for FlatLumpReader {
    ghost from_gives = { λ r flat. flat ≡ reader_out r };

    fn from(r: LumpReader) -> FlatLumpReader {
        let head = r.head;
        FlatLumpReader {
            head,
            left: r.left,
            kept: r.kept,
            seen: r.seen,
            phase: phase_out(r.phase),
            fragments: r.fragments,
        }
    }
}

// ---- whether each number of a flat head is one of its kind

fn plain_track(t: FlatTrack) -> bool
    ensures { result ≡ plain_track t }
{
    t.known <= 1 && t.need <= 1
}

fn plain_tracks(ts: [FlatTrack; 4]) -> bool
    ensures { result ≡ list_all plain_track ts }
{
    ts.iter().all(|t| plain_track(*t))
}

// No window end: its bits are those of zero.
fn plain_end(bounded: u64, bits: u64) -> bool
    ensures { result ≡ plain_end bounded bits }
{
    if bounded == 1 {
        seconds::is_number(bits)
    } else {
        bounded == 0 && bits == 0
    }
}

fn plain_settings(t: FlatSettings) -> bool
    ensures { result ≡ plain_settings t }
{
    seconds::is_number(t.offset.bits)
        && seconds::is_number(t.start.bits)
        && plain_end(t.bounded, t.end)
}

#[tactic(auto, using(crate::proofs::CopyLaws::all_listed), unfolding(crate::specs::Flat::plain_head))]
fn plain_head(c: FlatHead) -> bool
    ensures { result ≡ plain_head c }
{
    c.mode <= 1 && c.group.begun <= 1 && plain_settings(c.settings) && plain_tracks(c.tracks)
}

// ---- the head

// A flat head whose numbers are not all of their kind is read as one without tracks, so that the state is not well-formed.
impl From<FlatHead> for Head {
    ghost from_gives = { λ flat h. h ≡ head_in flat };

    fn from(c: FlatHead) -> Head {
        Head {
            tracks: tracks_in(c.tracks),
            ntracks: if plain_head(c) { c.ntracks } else { 0 },
            nframes: c.nframes,
            mode: mode_in(c.mode),
            group: c.group.into(),
            last: c.last,
            settings: c.settings.into(),
        }
    }
}

impl From<Head> for FlatHead {
    ghost from_gives = { λ h flat. flat ≡ head_out h };

    fn from(h: Head) -> FlatHead {
        FlatHead {
            tracks: tracks_out(h.tracks),
            ntracks: h.ntracks,
            nframes: h.nframes,
            mode: mode_out(h.mode),
            last: h.last,
            group: h.group.into(),
            settings: h.settings.into(),
        }
    }
}

// ---- what a call answered, laid flat

impl From<Result<usize, Refusal>> for FlatAnswer {
    ghost from_gives = { λ given flat. flat ≡ report_out given };

    fn from(given: Result<usize, Refusal>) -> FlatAnswer {
        match given {
            Ok(count) => FlatAnswer { refusal: 0, count },
            Err(why) => FlatAnswer {
                refusal: why.number(),
                count: 0,
            },
        }
    }
}

impl Answered {
    // With the head after the call; after a refusal the head as it came, bit for bit.
    fn of(c: FlatHead, given: Result<usize, Refusal>, h: Head) -> Answered
        ensures { result ≡ answered_out c given h }
    {
        Answered {
            head: if given.is_ok() { h.into() } else { c },
            answer: given.into(),
        }
    }
}

impl FlatBatched {
    // The same of a batch.
    fn of(c: FlatHead, given: Result<Accepted, Refusal>, h: Head) -> FlatBatched
        ensures { result ≡ batched_out c given h }
    {
        match given {
            Ok(a) => FlatBatched {
                head: h.into(),
                answer: FlatBatch {
                    refusal: 0,
                    stop: buffer_state::stop_number(a.stop),
                    accepted: a.frames,
                    count: a.lines,
                },
            },
            Err(why) => FlatBatched {
                head: c,
                answer: FlatBatch {
                    refusal: why.number(),
                    stop: 0,
                    accepted: 0,
                    count: 0,
                },
            },
        }
    }
}

impl FlatLumped {
    // With the reader after the lump; after a refusal the reader as it came.
    fn of(c: FlatLumpReader, given: Result<usize, Refusal>, r: LumpReader) -> FlatLumped
        ensures { result ≡ lumped_out c given r }
    {
        FlatLumped {
            reader: if given.is_ok() { r.into() } else { c },
            answer: given.into(),
        }
    }
}

impl From<Result<Start, Refusal>> for FlatStart {
    ghost from_gives = { λ given flat. flat ≡ start_out given };

    fn from(given: Result<Start, Refusal>) -> FlatStart {
        match given {
            Ok(s) => FlatStart {
                refusal: 0,
                target: s.target,
                flagged: s.flagged,
                count: s.count,
            },
            Err(why) => FlatStart {
                refusal: why.number(),
                target: 0,
                flagged: 0,
                count: 0,
            },
        }
    }
}

impl From<Result<buffer_state::Reading, Refusal>> for Reading {
    ghost from_gives = { λ given flat. flat ≡ reading_out given };

    fn from(given: Result<buffer_state::Reading, Refusal>) -> Reading {
        let none = Reading {
            refusal: 0,
            bounded: 0,
            offset: 0.0,
            start: 0.0,
            end: 0.0,
        };
        match given {
            Ok(r) => match r.end {
                WindowEnd::Unbounded => Reading {
                    offset: r.offset,
                    start: r.start,
                    ..none
                },
                WindowEnd::At(end) => Reading {
                    bounded: 1,
                    offset: r.offset,
                    start: r.start,
                    end,
                    ..none
                },
            },
            Err(why) => Reading {
                refusal: why.number(),
                ..none
            },
        }
    }
}

// ---- what ties a header to this library

// The layout of what is handed over here, and of the functions that take it: a change of either is another number.
pub fn galumper_abi() -> u32
    ensures { result ≡ abi }
{
    8
}

// The bytes of a buffer: a head and its arrays.
pub fn galumper_size() -> usize
    ensures { result ≡ buffer_size }
{
    37064
}

// ---- the calls

// A buffer from a lent list of kinds: it clears the arrays. Refused, it touches nothing, and its head is of zeros.
pub fn galumper_lent_create(kinds: &[u8], times: &mut Times, tags: &mut Tags) -> Answered
    ensures answer { result ≡ created_out (create kinds.now) }
    ensures times { times.new ≡ times_created (create kinds.now) times.old }
    ensures tags { tags.new ≡ tags_created (create kinds.now) tags.old }
{
    match settings::create(kinds, times, tags) {
        Ok(h) => Answered::of(h.into(), Ok(0), h),
        Err(why) => {
            let none = settings::no_head();
            Answered::of(none.into(), Err(why), none)
        }
    }
}

// Append one frame.
pub fn galumper_lent_append(
    c: FlatHead,
    f: FlatOffered,
    times: &mut Times,
    tags: &mut Tags,
    fates: &mut [[u32; 2]],
) -> Answered
    ensures answer { result ≡ outcome_out c (append_flat (length fates.old) f c times.old tags.old) }
    ensures times { times.new ≡ times_after (append_flat (length fates.old) f c times.old tags.old) times.old }
    ensures tags { tags.new ≡ tags_after (append_flat (length fates.old) f c times.old tags.old) tags.old }
    ensures lines { fates.new ≡ list_after (append_flat (length fates.old) f c times.old tags.old) fates.old }
{
    let mut h = Head::from(c);
    let given = append::append(&mut h, f.into(), times, tags, fates);
    Answered::of(c, given, h)
}

// Append up to 64 frames, as rows of the numbers that reading a segment lists.
pub fn galumper_lent_append_batch(
    c: FlatHead,
    frames: &[[i64; 6]],
    times: &mut Times,
    tags: &mut Tags,
    fates: &mut [[u32; 2]],
) -> FlatBatched
    ensures answer { result ≡ batch_out c (batch_flat (length fates.old) frames.now c times.old tags.old) }
    ensures times { times.new ≡ times_after (outcome_of (batch_flat (length fates.old) frames.now c times.old tags.old)) times.old }
    ensures tags { tags.new ≡ tags_after (outcome_of (batch_flat (length fates.old) frames.now c times.old tags.old)) tags.old }
    ensures lines { fates.new ≡ list_after (outcome_of (batch_flat (length fates.old) frames.now c times.old tags.old)) fates.old }
{
    let mut h = Head::from(c);
    let given = batch::append_batch(&mut h, frames, times, tags, fates);
    FlatBatched::of(c, given, h)
}

// Remove a stretch of time.
pub fn galumper_lent_remove(
    c: FlatHead,
    start: f64,
    end: f64,
    times: &mut Times,
    tags: &mut Tags,
    fates: &mut [[u32; 2]],
) -> Answered
    ensures answer { result ≡ outcome_out c (remove_flat (length fates.old) start end c times.old tags.old) }
    ensures times { times.new ≡ times_after (remove_flat (length fates.old) start end c times.old tags.old) times.old }
    ensures tags { tags.new ≡ tags_after (remove_flat (length fates.old) start end c times.old tags.old) tags.old }
    ensures lines { fates.new ≡ list_after (remove_flat (length fates.old) start end c times.old tags.old) fates.old }
{
    let mut h = Head::from(c);
    let given = remove::remove(&mut h, start, end, times, tags, fates);
    Answered::of(c, given, h)
}

pub fn galumper_lent_abort(c: FlatHead, times: &Times, tags: &Tags) -> Answered
    ensures { result ≡ handed_back c (abort_result (head_in c) times.now tags.now) }
{
    let mut h = Head::from(c);
    let given = settings::abort(&mut h, times, tags);
    Answered::of(c, given.and(Ok(0)), h)
}

fn with_mode(c: FlatHead, times: &Times, tags: &Tags, mode: Mode) -> Answered
    ensures { result ≡ handed_back c (mode_result mode (head_in c) times.now tags.now) }
{
    let mut h = Head::from(c);
    let given = settings::set_mode(&mut h, times, tags, mode);
    Answered::of(c, given.and(Ok(0)), h)
}

// A call for each mode, so that no other can be passed.
pub fn galumper_lent_set_segments(c: FlatHead, times: &Times, tags: &Tags) -> Answered
    ensures { result ≡ handed_back c (mode_result Segments (head_in c) times.now tags.now) }
{
    with_mode(c, times, tags, Mode::Segments)
}

pub fn galumper_lent_set_sequence(c: FlatHead, times: &Times, tags: &Tags) -> Answered
    ensures { result ≡ handed_back c (mode_result Sequence (head_in c) times.now tags.now) }
{
    with_mode(c, times, tags, Mode::Sequence)
}

pub fn galumper_lent_set_offset(c: FlatHead, times: &Times, tags: &Tags, seconds: f64) -> Answered
    ensures { result ≡ handed_back c (offset_result seconds (head_in c) times.now tags.now) }
{
    let mut h = Head::from(c);
    let given = settings::set_offset(&mut h, times, tags, seconds);
    Answered::of(c, given.and(Ok(0)), h)
}

pub fn galumper_lent_set_window_start(
    c: FlatHead,
    times: &Times,
    tags: &Tags,
    seconds: f64,
) -> Answered
    ensures { result ≡ handed_back c (window_start_result seconds (head_in c) times.now tags.now) }
{
    let mut h = Head::from(c);
    let given = settings::set_window_start(&mut h, times, tags, seconds);
    Answered::of(c, given.and(Ok(0)), h)
}

pub fn galumper_lent_set_window_end(
    c: FlatHead,
    times: &Times,
    tags: &Tags,
    seconds: f64,
) -> Answered
    ensures { result ≡ handed_back c (window_end_result seconds (head_in c) times.now tags.now) }
{
    let mut h = Head::from(c);
    let given = settings::set_window_end(&mut h, times, tags, seconds);
    Answered::of(c, given.and(Ok(0)), h)
}

pub fn galumper_lent_read_settings(c: FlatHead, times: &Times, tags: &Tags) -> Reading
    ensures { result ≡ reading_out (settings_result (head_in c) times.now tags.now) }
{
    settings::read_settings(c.into(), times, tags).into()
}

// A track's ranges.
pub fn galumper_lent_track_ranges(
    c: FlatHead,
    times: &Times,
    tags: &Tags,
    track: u32,
    list: &mut [[i64; 2]],
) -> FlatAnswer
    ensures value { result ≡ report_out (range_count (track_ranges_result (length list.old) track (head_in c) times.now tags.now)) }
    ensures list_after { list.new ≡ ranges_after (track_ranges_result (length list.old) track (head_in c) times.now tags.now) list.old }
{
    ranges::track_ranges(c.into(), times, tags, track, list).into()
}

// The ranges common to all tracks.
pub fn galumper_lent_common_ranges(
    c: FlatHead,
    times: &Times,
    tags: &Tags,
    list: &mut [[i64; 2]],
) -> FlatAnswer
    ensures value { result ≡ report_out (range_count (common_ranges_result (length list.old) (head_in c) times.now tags.now)) }
    ensures list_after { list.new ≡ ranges_after (common_ranges_result (length list.old) (head_in c) times.now tags.now) list.old }
{
    ranges::common_ranges(c.into(), times, tags, list).into()
}

// How many frames the walk of a track's ranges takes where so many places are lent, also where these are too few for the ranges.
pub fn galumper_lent_walked(
    c: FlatHead,
    times: &Times,
    tags: &Tags,
    track: u32,
    room: usize,
) -> FlatAnswer
    ensures { result ≡ report_out (walked_result room track (head_in c) times.now tags.now) }
{
    ranges::walked(c.into(), times, tags, track, room).into()
}

// Where to start decoding for a track and an instant in microseconds. The frames to decode are never more than the track has.
pub fn galumper_lent_seek(
    c: FlatHead,
    times: &Times,
    tags: &Tags,
    track: u32,
    instant: i64,
) -> FlatStart
    ensures value { result ≡ start_out (seek_result track instant (head_in c) times.now tags.now) }
    ensures count_bound { result.count ≤ stored_on track (buffer_of (state_at (head_in c) times.now tags.now)) }
{
    seek::seek(c.into(), times, tags, track, instant).into()
}

// What to feed a decoder, by where it stands: in the initialization bytes, all of them, or in the segment, the part from a place up to
// another. An exported function can hand back no slice, so it tells the part, and what is lent is the caller's to point into.
pub fn galumper_lent_feed(
    initialization: &[u8],
    segment: &[u8],
    whole: u32,
    start: usize,
    end: usize,
) -> FlatPart
    ensures part { part_in result ≡ part_of (is_nonzero whole) (length initialization.now) (length segment.now) start end }
    ensures bytes { bytes_in (part_in result) (cond (is_nonzero whole) initialization.now segment.now) ≡ feed_of (is_nonzero whole) initialization.now segment.now start end }
    ensures stands { pointer_in (part_in result) (cond (is_nonzero whole) initialization.entry.ref_ptr segment.entry.ref_ptr) ≡ feed_at (is_nonzero whole) initialization.entry.ref_ptr segment.entry.ref_ptr (length segment.now) start end }
{
    let p = feed::part_of(initialization.len(), segment.len(), whole != 0, start, end);
    FlatPart {
        start: p.start,
        length: p.length,
    }
}

// The frames of one track in a segment, each with its size, as a row of numbers: track, presentation and decode timestamp, duration,
// 1 if flagged, size. It takes no buffer.
pub fn galumper_lent_list_segment(
    of: FlatSegmentTrack,
    segment: &[u8],
    list: &mut [[i64; 6]],
) -> FlatAnswer
    ensures value { result ≡ report_out (row_count (list_segment (segment_track_in of) (length list.old) segment.now)) }
    ensures list_after { list.new ≡ rows_after (list_segment (segment_track_in of) (length list.old) segment.now) list.old }
{
    segment_reader::list_segment(of.into(), segment, list).into()
}

// A reader to which no byte has come.
pub fn galumper_fresh_reader() -> FlatLumpReader
    ensures { result ≡ reader_out (reader_of fresh) }
{
    lumps::fresh_reader().into()
}

// A lump of a segment after which more comes.
pub fn galumper_lent_take_lump(c: FlatLumpReader, buffer: &mut [u8], lump: &[u8]) -> FlatLumped
    ensures answer { result ≡ lump_out c (more_result (reader_in c) buffer.old lump.now) }
    ensures buffer { buffer.new ≡ buffer_after (more_result (reader_in c) buffer.old lump.now) buffer.old }
{
    let mut reader = LumpReader::from(c);
    let given = lumps::take_more(&mut reader, buffer, lump);
    FlatLumped::of(c, given, reader)
}

// The last lump of a segment.
pub fn galumper_lent_take_last(
    c: FlatLumpReader,
    of: FlatSegmentTrack,
    buffer: &[u8],
    lump: &[u8],
    list: &mut [[i64; 6]],
) -> FlatLumped
    ensures answer { result ≡ lump_out c (last_flat of (length list.old) c buffer.now lump.now) }
    ensures frames { list.new ≡ frames_after (last_flat of (length list.old) c buffer.now lump.now) list.old }
{
    let mut reader = LumpReader::from(c);
    let given = lumps::take_last(of.into(), &mut reader, buffer, lump, list);
    FlatLumped::of(c, given, reader)
}

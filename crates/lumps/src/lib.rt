// Document 02, No. 5: a segment in lumps, cut anywhere. A lent reader says how far the bytes have come, and a lent buffer keeps the body of
// the movie fragment. A lump is first gone through without a write, so that a refused call takes nothing of it.
#![tactic(auto)]

ghost use Rattle.std.specs.Prelude.{IfOk, IfErr, ◌≡◌, Bool, true, false, cond, List, [], ◌++◌, ℕ, ◌+◌, ◌-◌, ◌≤◌, ◌<◌, length, take, drop, leb, eqb};
ghost use Rattle.std.specs.List.{list_all};
ghost use Rattle.segments.specs.Listings.{moof_kind};
ghost use Rattle.segments.specs.Segments.{list_movie, row_count, rows_after};
ghost use Rattle.lumps.specs.LumpAnswers.{IsBounded, whole_in};
ghost use Rattle.lumps.specs.Lumps.{ends, more_result, last_result, lump_result, taken_count, reader_after, buffer_after, frames_after};
ghost use Rattle.lumps.specs.Readers.{doing_of, reading_of, reader_of, bare_reader, most_kept, most_left, good_in, good_counts, good_reader};
ghost use Rattle.lumps.specs.Readings.{heading, going, fresh, opens_of, begun_of, begins, stepping, run, is_large};
ghost use Rattle.lumps.specs.Scans.{Fits, FitsIn, Shows, body_of, part_of, kept_by, Standing, Standing-prop, Through, Leads, Refuses};
ghost use Rattle.lumps.specs.declared.Begun.TheVariants.{Opens};
ghost use Rattle.lumps.specs.declared.LumpReader.{LumpReader};
ghost use Rattle.lumps.specs.declared.Phase.TheVariants.{Heading, Keeping};

use buffer_state::Refusal;
use segments::SegmentTrack;

// The type of a movie fragment box, `moof` in four letters.
const MOOF: u32 = 1836019558;

// The most bytes of a lump and of a movie fragment box, and the least of a buffer.
const MOST: usize = 65536;

// The longest body of a movie fragment box, and of any box.
const MOST_KEPT: usize = 65528;

const MOST_LEFT: u64 = 18446744073709551599;

// Where a reader stands: in a header, or between two boxes; in a body that is passed over, or kept; past a size under its header, where no
// box can be told any more; past the header of a movie fragment box that is too large, where no reader is handed out.
#[derive(Clone, Copy)]
pub enum Phase {
    Heading,
    Passing,
    Keeping,
    Stuck,
    Large,
}

#[derive(Clone, Copy)]
pub struct LumpReader {
    pub head: [u8; 16], // the bytes met of the header, then zeros
    pub seen: usize, // how many they are
    pub left: u64, // the bytes of the body still to come
    pub kept: usize, // the bytes of the first movie fragment's body in the buffer
    pub fragments: u32, // the movie fragments met, two for more
    pub phase: Phase,
}

// What the bytes met of a header begin.
#[derive(Clone, Copy)]
pub enum Begun {
    More,
    Stuck,
    Large,
    Opens(u32, u64),
}

// How far a lump is gone through from a reader: the reader there, where the bytes begin that the lump adds to those that are kept, and the
// next place.
#[derive(Clone, Copy)]
struct Scan<'a> {
    start: LumpReader,
    lump: &'a [u8],
    reader: LumpReader,
    from: usize,
    next: usize,
    ghost stands: { Standing start lump.now reader from next } by { Standing-prop start lump.now reader from next },
}

// ---- the condition on a reader

fn zeros(l: &[u8]) -> bool
    ensures { result ≡ list_all (λ b. eqb b 0) l.now }
{
    l.iter().all(|b| *b == 0)
}

fn zeros_from(l: &[u8], at: usize) -> bool
    ensures { result ≡ list_all (λ b. eqb b 0) (drop at l.now) }
{
    match l.get(at..) {
        Some(rest) => zeros(rest),
        None => true,
    }
}

// What is asked in every phase.
fn good_counts(r: LumpReader) -> bool
    ensures { result ≡ good_counts r }
{
    zeros_from(&r.head, r.seen)
        && r.fragments <= 2
        && r.kept <= MOST_KEPT
        && (0 < r.fragments || r.kept == 0)
}

fn good_heading(r: LumpReader) -> bool
    ensures { result ≡ good_in Heading r }
{
    r.seen < 16 && r.left == 0 && (r.seen < 8 || boxes::read4(&r.head, 0) == 1)
}

fn good_phase(r: LumpReader) -> bool
    requires { r.kept ≤ most_kept }
    ensures { result ≡ good_in r.phase r }
{
    let body = r.seen == 0 && 0 < r.left;
    match r.phase {
        Phase::Heading => good_heading(r),
        Phase::Passing => body && r.left <= MOST_LEFT,
        Phase::Keeping => body && r.left <= (MOST_KEPT - r.kept) as u64 && r.fragments == 1,
        Phase::Stuck => r.seen == 0 && r.left == 0,
        Phase::Large => false,
    }
}

#[tactic(auto, unfolding(crate::specs::Readers::good_reader))]
fn good_reader(r: LumpReader) -> bool
    ensures { result ≡ good_reader r }
{
    good_counts(r) && good_phase(r)
}

// ---- a header

// A box of this header length and size.
fn opens(l: &[u8], header: u64, size: u64) -> Begun
    requires { (8 ≤ length l.now) × (8 ≤ header) × (size ≤ most_left + header) }
    ensures is { result ≡ opens_of l.now header size }
    ensures bounded { IsBounded result }
{
    if size < header {
        return Begun::Stuck;
    }
    let kind = boxes::read4(l, 4);
    if kind == MOOF && (MOST as u64) < size {
        return Begun::Large;
    }
    Begun::Opens(kind, size - header)
}

// What the header bytes met so far begin.
fn begun_by(l: &[u8]) -> Begun
    ensures is { result ≡ begun_of l.now }
    ensures bounded { IsBounded result }
{
    match l.len() {
        8 => match boxes::read4(l, 0) {
            1 => Begun::More,
            size => opens(l, 8, u64::from(size)),
        },
        16 => opens(l, 16, boxes::read8(l, 8)),
        _ => Begun::More,
    }
}

// ---- a reader

// A reader that has no header bytes.
fn bare(phase: Phase, left: u64, fragments: u32, kept: usize) -> LumpReader
    ensures { result ≡ bare_reader phase left fragments kept }
{
    LumpReader {
        phase,
        head: [0; 16],
        seen: 0,
        left,
        fragments,
        kept,
    }
}

// In a body with so many bytes to come, kept or passed over; between two boxes if none.
fn in_body(keep: bool, left: u64, fragments: u32, kept: usize) -> LumpReader
    requires { (left ≤ most_left) × (fragments ≤ 2) × (kept ≤ most_kept) × (fragments ≡ 0 → kept ≡ 0) × (keep ≡ true → (kept + left ≤ most_kept) × (fragments ≡ 1)) }
    ensures shows { Shows result kept (λ k. record { doing = going (body_of keep) left; fragments = fragments; kept = k }) }
    ensures keeps { result.phase ≡ Keeping → (keep ≡ true) × (0 < left) }
{
    if left == 0 {
        return bare(Phase::Heading, 0, fragments, kept);
    }
    if keep {
        return bare(Phase::Keeping, left, fragments, kept);
    }
    bare(Phase::Passing, left, fragments, kept)
}

// A fresh reader.
pub fn fresh_reader() -> LumpReader
    ensures { result ≡ reader_of fresh }
{
    bare(Phase::Heading, 0, 0, 0)
}

// A box is opened: the first movie fragment's body is kept, any other passed over.
fn box_opened(kind: u32, left: u64, fragments: u32, kept: usize) -> LumpReader
    requires { IsBounded (Opens kind left) × (fragments ≤ 2) × (kept ≤ most_kept) × (fragments ≡ 0 → kept ≡ 0) }
    ensures shows { Shows result kept (begins (Opens kind left) [] fragments) }
    ensures keeps { result.phase ≡ Keeping → kept ≡ 0 }
{
    if kind != MOOF {
        return in_body(false, left, fragments, kept);
    }
    if fragments == 0 {
        return in_body(true, left, 1, 0);
    }
    in_body(false, left, 2, kept)
}

// One more byte of a header.
fn in_header(r: LumpReader, b: u8) -> LumpReader
    requires { Fits r × FitsIn Heading r }
    ensures shows { Shows result r.kept (λ k. stepping (heading (take r.seen r.head)) r.fragments k b) }
    ensures keeps { result.phase ≡ Keeping → r.kept ≡ 0 }
{
    let mut head = r.head;
    head[r.seen] = b;
    let seen = r.seen + 1;
    match begun_by(&head[..seen]) {
        Begun::More => LumpReader {
            phase: Phase::Heading,
            head,
            seen,
            left: 0,
            ..r
        },
        Begun::Stuck => bare(Phase::Stuck, 0, r.fragments, r.kept),
        Begun::Large => bare(Phase::Large, 0, r.fragments, r.kept),
        Begun::Opens(kind, left) => box_opened(kind, left, r.fragments, r.kept),
    }
}

// ---- a lump

// As much of a body as the lump has.
fn stretch(left: u64, room: usize) -> usize
    ensures { result ≡ cond (leb left room) left room }
{
    left.min(room as u64) as usize
}

impl<'a> Scan<'a> {
    // A byte of a header, a stretch of a body, or all where nothing counts any more.
    fn advance(&mut self)
        requires { self.old.next < length self.old.lump.now }
        ensures same { (self.new.start ≡ self.old.start) × (self.new.lump ≡ self.old.lump) }
        ensures further { self.old.next < self.new.next }
    {
        let q = self.reader;
        let i = self.next;
        match q.phase {
            Phase::Heading => {
                self.reader = in_header(q, self.lump[i]);
                self.next = i + 1;
            }
            Phase::Passing => {
                let n = stretch(q.left, self.lump.len() - i);
                self.reader = in_body(false, q.left - n as u64, q.fragments, q.kept);
                self.next = i + n;
            }
            Phase::Keeping => {
                let n = stretch(q.left, self.lump.len() - i);
                self.reader = in_body(true, q.left - n as u64, q.fragments, q.kept + n);
                self.from = i;
                self.next = i + n;
            }
            Phase::Stuck | Phase::Large => self.next = self.lump.len(),
        }
    }

    // The bytes that the lump adds to those that are kept.
    fn added(&self) -> &'a [u8]
        ensures is { result.now ≡ part_of self.now.lump.now self.now.from (self.now.reader.kept - self.now.start.kept) }
        ensures long { length result.now ≡ self.now.reader.kept - self.now.start.kept }
    {
        &self.lump[self.from..self.from + (self.reader.kept - self.start.kept)]
    }

    // They stand after those.
    fn keep(&self, buffer: &mut [u8])
        requires { most_kept ≤ length buffer.old }
        ensures { buffer.new ≡ kept_by self.now.start self.now.reader self.now.from buffer.old self.now.lump.now ++ drop self.now.reader.kept buffer.old }
    {
        buffer[self.start.kept..self.reader.kept].copy_from_slice(self.added());
    }

    // The frames of the movie fragment: its body stands in the buffer, or in the lump, or begins in the one and ends in the other.
    fn list_kept(
        &self,
        of: SegmentTrack,
        buffer: &[u8],
        list: &mut [[i64; 6]],
    ) -> Result<usize, Refusal>
        requires { most_kept ≤ length buffer.now }
        ensures value { result ≡ row_count (list_movie of (length list.old) (kept_by self.now.start self.now.reader self.now.from buffer.now self.now.lump.now)) }
        ensures list_after { list.new ≡ rows_after (list_movie of (length list.old) (kept_by self.now.start self.now.reader self.now.from buffer.now self.now.lump.now)) list.old }
    {
        let first = &buffer[..self.start.kept];
        let rest = self.added();
        if rest.is_empty() {
            return segments::list_movie(of, first, list);
        }
        if first.is_empty() {
            return segments::list_movie(of, rest, list);
        }
        list_parts(of, first, rest, list)
    }

    // The end is told.
    fn end(&self, of: SegmentTrack, buffer: &[u8], list: &mut [[i64; 6]]) -> Result<usize, Refusal>
        requires { Through buffer.now self.now.lump.now self.now.reader self.now.next }
        ensures value { result ≡ taken_count (ends of (length list.old) (run (reading_of self.now.start buffer.now) self.now.lump.now)) }
        ensures list_after { list.new ≡ frames_after (ends of (length list.old) (run (reading_of self.now.start buffer.now) self.now.lump.now)) list.old }
    {
        if !is_whole(self.reader) {
            return Err(Refusal::Malformed);
        }
        self.list_kept(of, buffer, list)
    }
}

// Where a lump leads to from a reader.
fn scanned(start: LumpReader, lump: &[u8]) -> Scan<'_>
    requires { Fits start }
    ensures { (result.start ≡ start) × (result.lump.now ≡ lump.now) × (result.next ≡ length lump.now) }
{
    let mut scan = Scan {
        start,
        lump,
        reader: start,
        from: 0,
        next: 0,
    };
    while scan.next < lump.len() {
        scan.advance();
    }
    scan
}

// ---- the end of a segment

// Whether a reader stands past a movie fragment box that is too large.
fn is_large(r: LumpReader) -> bool
    ensures { result ≡ is_large (doing_of r.phase r) }
{
    matches!(r.phase, Phase::Large)
}

// Whether what came is made of boxes, one movie fragment among them.
fn is_whole(r: LumpReader) -> bool
    ensures { result ≡ whole_in r.phase r }
{
    matches!(r.phase, Phase::Heading) && r.seen == 0 && r.fragments == 1
}

// The frames of a movie fragment whose body is in two parts, put together in lent room.
fn list_joined(
    of: SegmentTrack,
    first: &[u8],
    rest: &[u8],
    room: &mut [u8],
    list: &mut [[i64; 6]],
) -> Result<usize, Refusal>
    requires { (length first.now + length rest.now ≤ most_kept) × (most_kept ≤ length room.old) }
    ensures value { result ≡ row_count (list_movie of (length list.old) (first.now ++ rest.now)) }
    ensures list_after { list.new ≡ rows_after (list_movie of (length list.old) (first.now ++ rest.now)) list.old }
{
    let at = first.len();
    let end = at + rest.len();
    room[..at].copy_from_slice(first);
    room[at..end].copy_from_slice(rest);
    segments::list_movie(of, &room[..end], list)
}

// The same in room of the call's own, which no other call lays out on the stack. Apart, as the proof of the two parts doesn't close over the
// list of its zeros.
fn list_parts(
    of: SegmentTrack,
    first: &[u8],
    rest: &[u8],
    list: &mut [[i64; 6]],
) -> Result<usize, Refusal>
    requires { length first.now + length rest.now ≤ most_kept }
    ensures value { result ≡ row_count (list_movie of (length list.old) (first.now ++ rest.now)) }
    ensures list_after { list.new ≡ rows_after (list_movie of (length list.old) (first.now ++ rest.now)) list.old }
{
    let mut room = [0u8; MOST_KEPT];
    list_joined(of, first, rest, &mut room, list)
}

// ---- the call

// Where a lump leads to, or why it is not taken.
fn try_lump(r: LumpReader, room: usize, lump: &[u8]) -> Result<Scan<'_>, Refusal>
    ensures leads { IfOk result (λ s. (s.start ≡ r) × (s.lump.now ≡ lump.now) × Leads r room lump.now s.reader s.next) }
    ensures refuses { IfErr result (Refuses r room lump.now) }
{
    if !good_reader(r) {
        return Err(Refusal::IllFormed);
    }
    if room < MOST {
        return Err(Refusal::LentSize);
    }
    if MOST < lump.len() {
        return Err(Refusal::LentSize);
    }
    let scan = scanned(r, lump);
    if is_large(scan.reader) {
        return Err(Refusal::LargeFragment);
    }
    Ok(scan)
}

// A lump of a segment after which more comes. Nothing is listed.
pub fn take_more(r: &mut LumpReader, buffer: &mut [u8], lump: &[u8]) -> Result<usize, Refusal>
    ensures answer { result ≡ taken_count (more_result r.old buffer.old lump.now) }
    ensures reader { r.new ≡ reader_after (more_result r.old buffer.old lump.now) r.old }
    ensures buffer { buffer.new ≡ buffer_after (more_result r.old buffer.old lump.now) buffer.old }
{
    let scan = try_lump(*r, buffer.len(), lump)?;
    scan.keep(buffer);
    *r = scan.reader;
    Ok(0)
}

// The last lump of a segment, which may have no bytes. The buffer is not written, and listing leaves the reader fresh.
pub fn take_last(
    of: SegmentTrack,
    r: &mut LumpReader,
    buffer: &[u8],
    lump: &[u8],
    list: &mut [[i64; 6]],
) -> Result<usize, Refusal>
    ensures answer { result ≡ taken_count (last_result of (length list.old) r.old buffer.now lump.now) }
    ensures reader { r.new ≡ reader_after (last_result of (length list.old) r.old buffer.now lump.now) r.old }
    ensures frames { list.new ≡ frames_after (last_result of (length list.old) r.old buffer.now lump.now) list.old }
{
    let scan = try_lump(*r, buffer.len(), lump)?;
    let count = scan.end(of, buffer, list)?;
    *r = fresh_reader();
    Ok(count)
}

// A lump of a segment, and whether it is the last.
pub fn take_lump(
    of: SegmentTrack,
    r: &mut LumpReader,
    buffer: &mut [u8],
    lump: &[u8],
    last: bool,
    list: &mut [[i64; 6]],
) -> Result<usize, Refusal>
    ensures answer { result ≡ taken_count (lump_result of (length list.old) last r.old buffer.old lump.now) }
    ensures reader { r.new ≡ reader_after (lump_result of (length list.old) last r.old buffer.old lump.now) r.old }
    ensures buffer { buffer.new ≡ buffer_after (lump_result of (length list.old) last r.old buffer.old lump.now) buffer.old }
    ensures frames { list.new ≡ frames_after (lump_result of (length list.old) last r.old buffer.old lump.now) list.old }
{
    if last {
        return take_last(of, r, buffer, lump, list);
    }
    take_more(r, buffer, lump)
}

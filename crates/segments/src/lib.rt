// The recorder's segments: the frames of one track, listed as rows of numbers. The segment is walked twice: first every box and sample is
// judged, then the rows are written. `write` says which: one walk with one contract, so that what is written is what was judged.
#![tactic(auto)]

ghost use Rattle.std.specs.Prelude.{◌≡◌, true, false, cond, [], ◌∷◌, Some, Ok, ℕ, ◌+◌, ◌*◌, ◌≤◌, ◌<◌, pos, length, drop, set};
ghost use Rattle.std.specs.Int.Signed.{mag};
ghost use Rattle.boxes.specs.Boxes.{boxes_of};
ghost use Rattle.boxes.specs.Lone.{lone_in};
ghost use Rattle.fragments.specs.Runs.{samples_from, width_of, Fitting, run_of};
ghost use Rattle.media_times.specs.MediaTimes.{good_scale, row_of};
ghost use Rattle.media_times.specs.declared.Sample.{Sample};
ghost use Rattle.segments.specs.Listings.{tfhd_kind, tfdt_kind, trun_kind, total, run_listing, runs_from, header_in, time_in, runs_by, fragment_listing, movie_listing};
ghost use Rattle.segments.specs.Segments.{list_movie, list_segment, row_count, rows_after};
ghost use Rattle.segments.specs.Walks.{known, started_at, begun_at, moved_by, rows_for, Somewhere, IsTimed, Onward, Reached, Reaches, TimedBy};

use boxes::{BoxReader, Malformed};
use buffer_state::Refusal;
use fragments::{Defaults, Header, Run};
use media_times::Sample;

// The types of the boxes, four letters each.
const MOOF: u32 = 1836019558;

const TRAF: u32 = 1953653094;

const TFHD: u32 = 1952868452;

const TFDT: u32 = 1952867444;

const TRUN: u32 = 1953658222;

// The track that is read: its ID in the segment, the track number that its frames shall carry, its timescale, and what holds of a sample
// that says nothing else.
#[derive(Clone, Copy)]
pub struct SegmentTrack {
    pub id: u32,
    pub track: u32,
    pub timescale: u32,
    pub defaults: Defaults,
}

// What is known on the way, while everything was inside its limits: how many samples there were, up to the places lent, whether there were
// more (`over`: the count stops at the places), and the decode time of the next one. Past a sample outside its limits there is no walk: refusal 4, unless something is malformed.
#[derive(Clone, Copy, Debug)]
pub struct Walk {
    pub over: bool,
    pub count: usize,
    pub time: u64,
}

// ---- one sample

// n samples more, up to a time.
fn moved(w: Walk, places: usize, n: u32, time: u64) -> Walk
    requires { w.count ≤ places }
    ensures { known (Some result) ≡ moved_by places (known (Some w)) n time }
{
    let more = n as usize;
    if more <= places - w.count {
        return Walk {
            over: w.over,
            count: w.count + more,
            time,
        };
    }
    Walk {
        over: true,
        count: places,
        time,
    }
}

// By index: of a list lent to `get_mut` a proof knows its length alone.
fn put_row(list: &mut [[i64; 6]], k: usize, row: [i64; 6])
    ensures { list.new ≡ set list.old k row }
{
    if k < list.len() {
        list[k] = row;
    }
}

// The row of a sample, where rows are written.
fn write_row(of: SegmentTrack, k: usize, s: Sample, write: bool, list: &mut [[i64; 6]])
    requires { (good_scale of.timescale ≡ true) × ((mag s.offset < 4294967296) × (s.time ≤ 1000000000000)) }
    ensures { list.new ≡ cond write (set list.old k (row_of of.track of.timescale s)) list.old }
{
    if !write {
        return;
    }
    let row = media_times::row_of(of.track, of.timescale, s);
    put_row(list, k, row);
}

// One more sample.
fn walk_sample(
    of: SegmentTrack,
    w: Walk,
    s: Sample,
    write: bool,
    list: &mut [[i64; 6]],
) -> Option<Walk>
    requires { Somewhere of write (known (Some w)) list.old × (mag s.offset < 4294967296) }
    ensures stands { Onward of write (known (Some w)) list.old (s ∷ []) (known result) list.new }
    ensures timed { IsTimed (s.time + s.duration) (known result) }
{
    if !media_times::in_limits(of.timescale, s) {
        return None;
    }
    write_row(of, w.count, s, write, list);
    Some(moved(w, list.len(), 1, s.time + (s.duration as u64)))
}

// ---- a run

// The first n samples of a run.
fn walk_samples(
    of: SegmentTrack,
    d: Defaults,
    r: Run,
    b: &[u8],
    n: u32,
    w: Walk,
    write: bool,
    list: &mut [[i64; 6]],
) -> Option<Walk>
    requires { Fitting b.now r × ((n ≤ r.count) × Somewhere of write (known (Some w)) list.old) }
    ensures stands { Onward of write (known (Some w)) list.old (samples_from d r b.now 0 n w.time) (known result) list.new }
    ensures timed { IsTimed (w.time + total (samples_from d r b.now 0 n w.time)) (known result) }
{
    let mut v = w;
    for i in 0..n {
        let s = fragments::sample_at(d, r, b, i, v.time);
        v = walk_sample(of, v, s, write, list)?;
    }
    Some(v)
}

fn rows_for(write: bool, count: u32, left: usize) -> u32
    ensures { (result ≡ rows_for write count left) × (result ≤ count) }
{
    if !write {
        return 0;
    }
    if count as usize <= left {
        return count;
    }
    left as u32
}

// The time after n samples of one duration.
fn time_after(time: u64, n: u32, duration: u32) -> u64
    requires { time + n * duration ≤ 1000010000000 }
    ensures { result ≡ time + n * duration }
{
    time + (n as u64) * (duration as u64)
}

// A sample of a run without columns.
fn even_sample(d: Defaults, time: u64) -> Sample
    ensures { (result.time ≡ time) × ((result.offset ≡ pos 0) × (result.duration ≡ d.duration)) }
{
    Sample {
        time,
        offset: 0,
        duration: d.duration,
        size: d.size,
        flags: d.flags,
    }
}

// A run without columns, decided by its ends: of its samples, which may be 4,294,967,295, only those are walked that a place is left for.
fn walk_even(
    of: SegmentTrack,
    d: Defaults,
    r: Run,
    b: &[u8],
    w: Walk,
    write: bool,
    list: &mut [[i64; 6]],
) -> Option<Walk>
    requires { Fitting b.now r × ((width_of r.word ≡ 0) × Somewhere of write (known (Some w)) list.old) }
    ensures stands { Onward of write (known (Some w)) list.old (samples_from d r b.now 0 r.count w.time) (known result) list.new }
    ensures timed { IsTimed (w.time + total (samples_from d r b.now 0 r.count w.time)) (known result) }
{
    let count = r.count;
    if count == 0 {
        return Some(w);
    }
    let s = even_sample(d, w.time);
    if !media_times::evenly_in_limits(of.timescale, count, s) {
        return None;
    }
    let n = rows_for(write, count, list.len() - w.count);
    // Each of these samples is inside its limits, as all are.
    let _ = walk_samples(of, d, r, b, n, w, write, list);
    Some(moved(w, list.len(), count, time_after(w.time, count, s.duration)))
}

fn walk_run(
    of: SegmentTrack,
    d: Defaults,
    r: Run,
    b: &[u8],
    w: Walk,
    write: bool,
    list: &mut [[i64; 6]],
) -> Option<Walk>
    requires { Fitting b.now r × Somewhere of write (known (Some w)) list.old }
    ensures stands { Onward of write (known (Some w)) list.old (samples_from d r b.now 0 r.count w.time) (known result) list.new }
    ensures timed { IsTimed (w.time + total (samples_from d r b.now 0 r.count w.time)) (known result) }
{
    if fragments::width_of(r.word) == 0 {
        return walk_even(of, d, r, b, w, write, list);
    }
    walk_samples(of, d, r, b, r.count, w, write, list)
}

// The body of a `trun`.
fn walk_body(
    of: SegmentTrack,
    d: Defaults,
    b: &[u8],
    w: Option<Walk>,
    write: bool,
    list: &mut [[i64; 6]],
) -> Result<Option<Walk>, Malformed>
    requires { Somewhere of write (known w) list.old }
    ensures reached { (t : ℕ) → IsTimed t (known w) → Reaches of write (known w) list.old (run_listing d t b.now (run_of b.now)) result list.new }
    ensures timed { (t : ℕ) → IsTimed t (known w) → TimedBy t (run_listing d t b.now (run_of b.now)) result }
{
    let r = fragments::run_of(b)?;
    let Some(w) = w else {
        return Ok(None);
    };
    Ok(walk_run(of, d, r, b, w, write, list))
}

// ---- a track fragment

// The runs of a fragment, the first of which begins at a time.
fn walk_runs(
    of: SegmentTrack,
    d: Defaults,
    s: &[u8],
    time: u64,
    w: Option<Walk>,
    write: bool,
    list: &mut [[i64; 6]],
) -> Result<Option<Walk>, Malformed>
    requires { Somewhere of write (known w) list.old × IsTimed time (known w) }
    ensures { Reaches of write (known w) list.old (runs_from d time s.now) result list.new }
{
    let mut v = w;
    for part in BoxReader::new(s) {
        let part = part?;
        if part.kind == TRUN {
            v = walk_body(of, d, part.body, v, write, list)?;
        }
    }
    Ok(v)
}

// The walk at a fragment's decode time.
fn begun(w: Option<Walk>, time: u64) -> Option<Walk>
    ensures { known result ≡ begun_at (known w) time }
{
    let w = w?;
    Some(Walk { time, ..w })
}

// The header and the decode time of a fragment, each of which there is once and before every run.
fn header_in(d: Defaults, s: &[u8]) -> Result<Header, Malformed>
    ensures { result ≡ header_in d (lone_in tfhd_kind trun_kind (boxes_of s.now)) }
{
    fragments::header_of(d, boxes::lone(s, TFHD, TRUN)?)
}

fn time_in(s: &[u8]) -> Result<u64, Malformed>
    ensures { result ≡ time_in (lone_in tfdt_kind trun_kind (boxes_of s.now)) }
{
    fragments::time_of(boxes::lone(s, TFDT, TRUN)?)
}

// A fragment of the track that is read.
fn walk_own(
    of: SegmentTrack,
    d: Defaults,
    s: &[u8],
    w: Option<Walk>,
    write: bool,
    list: &mut [[i64; 6]],
) -> Result<Option<Walk>, Malformed>
    requires { Somewhere of write (known w) list.old }
    ensures { Reaches of write (known w) list.old (runs_by d s.now (time_in (lone_in tfdt_kind trun_kind (boxes_of s.now)))) result list.new }
{
    let t = time_in(s)?;
    walk_runs(of, d, s, t, begun(w, t), write, list)
}

// Any track's fragment: another's is read for its header only.
fn walk_fragment(
    of: SegmentTrack,
    s: &[u8],
    w: Option<Walk>,
    write: bool,
    list: &mut [[i64; 6]],
) -> Result<Option<Walk>, Malformed>
    requires { Somewhere of write (known w) list.old }
    ensures { Reaches of write (known w) list.old (fragment_listing of s.now) result list.new }
{
    let h = header_in(of.defaults, s)?;
    if h.id != of.id {
        return Ok(w);
    }
    walk_own(of, h.defaults, s, w, write, list)
}

// ---- the movie fragment

// The track fragments of a movie fragment.
fn walk_movie(
    of: SegmentTrack,
    s: &[u8],
    w: Option<Walk>,
    write: bool,
    list: &mut [[i64; 6]],
) -> Result<Option<Walk>, Malformed>
    requires { Somewhere of write (known w) list.old }
    ensures { Reaches of write (known w) list.old (movie_listing of s.now) result list.new }
{
    let mut v = w;
    for part in BoxReader::new(s) {
        let part = part?;
        if part.kind == TRAF {
            v = walk_fragment(of, part.body, v, write, list)?;
        }
    }
    Ok(v)
}

// A walk that has seen no sample yet.
fn started(scale: u32) -> Option<Walk>
    ensures { known result ≡ started_at scale }
{
    if !media_times::good_scale(scale) {
        return None;
    }
    Some(Walk {
        over: false,
        count: 0,
        time: 0,
    })
}

// A walk over a movie fragment, from its start.
fn walk_whole(
    of: SegmentTrack,
    b: &[u8],
    write: bool,
    list: &mut [[i64; 6]],
) -> Result<Option<Walk>, Malformed>
    ensures { Reached of write list.old [] (movie_listing of b.now) result list.new }
{
    let w = started(of.timescale);
    walk_movie(of, b, w, write, list)
}

// The rows, where the walk that judged the movie fragment found nothing to refuse.
fn listed(
    of: SegmentTrack,
    b: &[u8],
    w: Option<Walk>,
    list: &mut [[i64; 6]],
) -> Result<usize, Refusal>
    requires { Reached of false list.old [] (movie_listing of b.now) (Ok w) list.old }
    ensures value { result ≡ row_count (list_movie of (length list.old) b.now) }
    ensures list_after { list.new ≡ rows_after (list_movie of (length list.old) b.now) list.old }
{
    let Some(w) = w else {
        return Err(Refusal::FrameLimits);
    };
    if w.over {
        return Err(Refusal::ShortList);
    }
    // What was judged is written whole.
    let _ = walk_whole(of, b, true, list);
    Ok(w.count)
}

// The frames of a track in a movie fragment, of which the body is lent.
pub fn list_movie(of: SegmentTrack, b: &[u8], list: &mut [[i64; 6]]) -> Result<usize, Refusal>
    ensures value { result ≡ row_count (list_movie of (length list.old) b.now) }
    ensures list_after { list.new ≡ rows_after (list_movie of (length list.old) b.now) list.old }
{
    let w = walk_whole(of, b, false, list)?;
    listed(of, b, w, list)
}

// ---- the segment

// The frames of a track in the segment's one movie fragment.
fn list_whole(of: SegmentTrack, s: &[u8], list: &mut [[i64; 6]]) -> Result<usize, Refusal>
    ensures value { result ≡ row_count (list_segment of (length list.old) s.now) }
    ensures list_after { list.new ≡ rows_after (list_segment of (length list.old) s.now) list.old }
{
    list_movie(of, boxes::lone(s, MOOF, MOOF)?, list)
}

// The frames of a track in what stands from a place of the slice on. A place past the end has no movie fragment.
pub fn list_from(
    of: SegmentTrack,
    s: &[u8],
    at: usize,
    list: &mut [[i64; 6]],
) -> Result<usize, Refusal>
    ensures value { result ≡ row_count (list_segment of (length list.old) (drop at s.now)) }
    ensures list_after { list.new ≡ rows_after (list_segment of (length list.old) (drop at s.now)) list.old }
{
    let Some(rest) = s.get(at..) else {
        return Err(Refusal::Malformed);
    };
    list_whole(of, rest, list)
}

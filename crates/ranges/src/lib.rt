// The bars on the timeline: a track's ranges, what all tracks have in common, and both written to a lent list.
#![tactic(auto)]

ghost use Rattle.std.specs.Prelude.{◌≡◌, true, ◌+◌, ◌%◌, ◌<◌, ◌≤◌, length, take, drop, get_or, IfSome};
ghost use Rattle.buffer_state.specs.Lent.{frames_of, Lengths};
ghost use Rattle.buffer_state.specs.Limits.{places, most_tracks};
ghost use Rattle.buffer_state.specs.Ranges.{common_of, ranges_of, common_ranges_of};
ghost use Rattle.buffer_state.specs.Walked.{interval_of, presented, taken_of};
ghost use Rattle.buffer_state.specs.WellFormed.{all_of};
ghost use Rattle.buffer_state.specs.Answers.{track_ranges_result, common_ranges_result, walked_result};
ghost use Rattle.buffer_laws.proofs.CommonLaws.{shared};
ghost use Rattle.ranges.specs.Bars.{range_of, range_in, row_of, stored, Stores, Shows, Bars, Meets, Reported};
ghost use Rattle.ranges.specs.Read.{ranges_in};
ghost use Rattle.ranges.specs.Sweep.{is_timely, key_of, grown, starts_rise};
ghost use Rattle.ranges.specs.Walks.{up_from, sound_at, keys_of, places_in, count_in, stretches_in, standing_ranges, Named, Ordered, Standing, IsNext, Tells, Walks};

use buffer_state::{Frame, Head, PLACES, Refusal, Tags, Times};

// From start up to but not including end, in microseconds.
#[derive(Clone, Copy)]
struct Span {
    start: i64,
    end: i64,
}

impl Span {
    // What a row of a list of ranges holds.
    fn in_row(row: [i64; 2]) -> Span
        ensures { range_of result ≡ range_in row }
    {
        Span {
            start: row[0],
            end: row[1],
        }
    }

    fn row(self) -> [i64; 2]
        ensures { result ≡ row_of (range_of self) }
    {
        [self.start, self.end]
    }

    // The stretch that a frame covers.
    fn of(f: Frame) -> Span
        requires { is_timely f ≡ true }
        ensures { range_of result ≡ interval_of f }
    {
        Span {
            start: f.pts,
            end: f.pts + i64::from(f.duration),
        }
    }

    // As far as the later of two ends.
    fn grown(self, next: Span) -> Span
        ensures { range_of result ≡ grown (range_of self) (range_of next) }
    {
        Span {
            start: self.start,
            end: next.end.max(self.end),
        }
    }

    // From the later start to the sooner end of two.
    fn shared(self, other: Span) -> Span
        ensures { range_of result ≡ shared (range_of self) (range_of other) }
    {
        Span {
            start: other.start.max(self.start),
            end: self.end.min(other.end),
        }
    }
}

// ---- the track's frames in presentation order

const KEYS_A_TIME: u64 = PLACES as u64;

// A frame's presentation time, and its place in the store, as one number: each time has a key for each place.
fn key_of(f: Frame, place: usize) -> u64
    requires { (is_timely f ≡ true) × (place < places) }
    ensures { result ≡ key_of place f }
{
    f.pts as u64 * KEYS_A_TIME + place as u64
}

// The place in the store that a key names.
fn place_of(key: u64) -> usize
    ensures { result ≡ key % places }
{
    (key % KEYS_A_TIME) as usize
}

// The keys of so many frames from a place on.
fn keys_of(times: &[[i64; 2]], tags: &[[u32; 5]], first: usize, count: usize, keys: &mut [u64])
    requires { (Lengths times.now tags.now) × (first + count ≤ places) × (length keys.old ≡ places)
        × (all_of (sound_at (frames_of times.now tags.now)) (up_from count first) ≡ true) }
    ensures { take count keys.new ≡ keys_of (frames_of times.now tags.now) count first }
{
    for k in 0..count {
        let place = first + k;
        keys[k] = key_of(places::frame_at(times, tags, place), place);
    }
}

// The order in which a walk takes frames: so many as they stand in the store from a place on, or those that keys name.
#[derive(Clone, Copy)]
enum Order<'a> {
    Stored { first: usize, count: usize },
    Keyed(&'a [u64]),
}

impl Order<'_> {
    fn count(self) -> usize
        ensures { result ≡ count_in self.entry }
    {
        match self {
            Order::Stored { count, .. } => count,
            Order::Keyed(keys) => keys.len(),
        }
    }

    // The place of the i-th frame.
    fn place(self, i: usize) -> usize
        requires { Named self × (i < count_in self) }
        ensures { (result ≡ get_or (places_in self.entry) i 0) × (result < places) }
    {
        match self {
            Order::Stored { first, .. } => first + i,
            Order::Keyed(keys) => place_of(keys[i]),
        }
    }
}

// The stretch of the i-th frame in order.
fn stretch_at(times: &[[i64; 2]], tags: &[[u32; 5]], order: Order, i: usize) -> Span
    requires { Ordered times.now tags.now order × (i < count_in order) }
    ensures { IsNext (stretches_in (frames_of times.now tags.now) order.entry) i (range_of result) }
{
    Span::of(places::frame_at(times, tags, order.place(i)))
}

// ---- the walk

// How many frames a walk took and how many ranges it opened, one of them too many where it left early.
#[derive(Clone, Copy)]
struct Walk {
    taken: usize,
    ranges: usize,
}

// One walk over the frames in order: the outer loop opens a range, the inner one extends it, and both are left at one range too many, at
// the last frame, or, with no walk to tell of, at a frame that starts before the range that is open. Most frames start where the one before
// ends, and are met first: they need no greater of two ends.
fn walk_ordered(
    times: &[[i64; 2]],
    tags: &[[u32; 5]],
    order: Order,
    room: usize,
    spans: &mut [[i64; 2]],
) -> Option<Walk>
    requires { Ordered times.now tags.now order × (length spans.old ≡ places) }
    ensures { Tells room (stretches_in (frames_of times.now tags.now) order.entry) spans.new result }
{
    let n = order.count();
    if n == 0 {
        return Some(Walk {
            taken: 0,
            ranges: 0,
        });
    }
    if room == 0 {
        return Some(Walk {
            taken: 1,
            ranges: 1,
        });
    }
    let mut i: usize = 0;
    let mut k: usize = 0;
    'ranges: loop {
        let mut range = stretch_at(times, tags, order, i);
        i += 1;
        loop {
            if i == n {
                spans[k] = range.row();
                break 'ranges Some(Walk {
                    taken: n,
                    ranges: k + 1,
                });
            }
            let next = stretch_at(times, tags, order, i);
            if range.end == next.start {
                range.end = next.end;
                i += 1;
                continue;
            }
            if range.end < next.start {
                spans[k] = range.row();
                k += 1;
                if k == room {
                    break 'ranges Some(Walk {
                        taken: i + 1,
                        ranges: k + 1,
                    });
                }
                break;
            }
            if next.start < range.start {
                break 'ranges None;
            }
            range = range.grown(next);
            i += 1;
        }
    }
}

// Whether no frame behind the one at a place in the order starts before the one in front of it.
fn rise_from(times: &[[i64; 2]], tags: &[[u32; 5]], order: Order, at: usize) -> bool
    requires { Ordered times.now tags.now order × (at < count_in order) }
    ensures { result ≡ starts_rise (drop at (stretches_in (frames_of times.now tags.now) order.entry)) }
{
    let mut last = stretch_at(times, tags, order, at);
    for i in at + 1..order.count() {
        let next = stretch_at(times, tags, order, i);
        if next.start < last.start {
            return false;
        }
        last = next;
    }
    true
}

// The walk over so many frames from a place on, as they stand; none where they are not in order. Where it leaves
// early, the frames behind are to be in order too.
fn walk_stored(
    times: &[[i64; 2]],
    tags: &[[u32; 5]],
    first: usize,
    count: usize,
    room: usize,
    spans: &mut [[i64; 2]],
) -> Option<Walk>
    requires { (Standing times.now tags.now first count) × (length spans.old ≡ places) }
    ensures { IfSome result (λ w. Walks room (standing_ranges (frames_of times.now tags.now) first count) spans.new w) }
{
    let order = Order::Stored { first, count };
    let w = walk_ordered(times, tags, order, room, spans)?;
    if room < w.ranges && !rise_from(times, tags, order, w.taken - 1) {
        return None;
    }
    Some(w)
}

// The walk over the same frames, put in presentation order.
fn walk_sorted(
    times: &[[i64; 2]],
    tags: &[[u32; 5]],
    first: usize,
    count: usize,
    room: usize,
    spans: &mut [[i64; 2]],
) -> Walk
    requires { (Standing times.now tags.now first count) × (length spans.old ≡ places) }
    ensures { Walks room (standing_ranges (frames_of times.now tags.now) first count) spans.new result }
{
    let mut keys = [0u64; PLACES];
    keys_of(times, tags, first, count, &mut keys);
    let mut other = [0u64; PLACES];
    sorting::sort(&mut keys, &mut other, count);
    walk_ordered(times, tags, Order::Keyed(&keys[..count]), room, spans).unwrap()
}

// The walk over a track's frames, which stand together. Only frames that are not in order as they stand are sorted.
fn track_walk(
    times: &[[i64; 2]],
    tags: &[[u32; 5]],
    n: usize,
    track: u32,
    room: usize,
    spans: &mut [[i64; 2]],
) -> Walk
    requires { (Stores times.now tags.now n) × (track ≤ most_tracks) × (length spans.old ≡ places) }
    ensures taken_value { result.taken ≡ taken_of room (presented track (stored times.now tags.now n)) }
    ensures bars { Bars room (ranges_of track (stored times.now tags.now n)) spans.new result.ranges }
{
    let first = tags[..n].partition_point(|tag| tag[0] < track);
    let count = tags[first..n].partition_point(|tag| tag[0] <= track);
    match walk_stored(times, tags, first, count, room, spans) {
        Some(w) => w,
        None => walk_sorted(times, tags, first, count, room, spans),
    }
}

// ---- what all tracks have in common

// What the first m spans and n other ranges have in common, put in the place of the spans: of the next two ranges the one that ends
// sooner is done with. The spans are read from the end of their array. What is found is never more than the ranges done with, and
// m + n are at most 1,024, so that no span is overwritten before it is read.
fn both_bars(spans: &mut [[i64; 2]], m: usize, more: &[[i64; 2]], n: usize) -> usize
    requires { (Meets spans.old m more.now n) × (length spans.old ≡ places) }
    ensures { (Shows spans.new result (common_of (ranges_in (take m spans.old)) (ranges_in (take n more.now)))) × (result ≤ m + n) }
{
    spans.copy_within(..m, PLACES - m);
    let mut k: usize = 0;
    let mut i = PLACES - m;
    let mut j: usize = 0;
    while i < PLACES && j < n {
        let x = Span::in_row(spans[i]);
        let y = Span::in_row(more[j]);
        let common = x.shared(y);
        spans[k] = common.row();
        k += usize::from(common.start < common.end);
        if x.end < y.end {
            i += 1;
        } else {
            j += 1;
        }
    }
    k
}

// All ranges of a track.
fn track_bars(
    times: &[[i64; 2]],
    tags: &[[u32; 5]],
    n: usize,
    track: u32,
    spans: &mut [[i64; 2]],
) -> usize
    requires { (Stores times.now tags.now n) × (track ≤ most_tracks) × (length spans.old ≡ places) }
    ensures { Shows spans.new result (ranges_of track (stored times.now tags.now n)) }
{
    track_walk(times, tags, n, track, PLACES, spans).ranges
}

// The ranges that all tracks have in common. One track's walk leaves early; of more tracks, each walk finds all ranges, as what they have
// in common can be less.
fn common_bars(
    times: &[[i64; 2]],
    tags: &[[u32; 5]],
    n: usize,
    tracks: u32,
    room: usize,
    spans: &mut [[i64; 2]],
) -> usize
    requires { (Stores times.now tags.now n) × (1 ≤ tracks) × (tracks ≤ most_tracks) × (length spans.old ≡ places) }
    ensures { Bars room (common_ranges_of tracks (stored times.now tags.now n)) spans.new result }
{
    if tracks == 1 {
        return track_walk(times, tags, n, 1, room, spans).ranges;
    }
    let mut count = track_bars(times, tags, n, 1, spans);
    if count == 0 {
        return 0;
    }
    let mut more = [[0i64; 2]; PLACES];
    for t in 1..tracks {
        let m = track_bars(times, tags, n, t + 1, &mut more);
        count = both_bars(spans, count, &more, m);
    }
    count
}

// ---- the calls

// A track's ranges, written to a lent list of places [start, end]; the list is written only where all of them fit.
pub fn track_ranges(
    h: Head,
    times: &Times,
    tags: &Tags,
    track: u32,
    list: &mut [[i64; 2]],
) -> Result<usize, Refusal>
    ensures { Reported result list.new (track_ranges_result (length list.old) track h times.now tags.now) list.old }
{
    validation::check(&h, times, tags)?;
    if !limits::has_track(track, h.ntracks) {
        return Err(Refusal::NoTrack);
    }
    let mut spans = [[0i64; 2]; PLACES];
    let w = track_walk(times, tags, h.nframes, track, list.len(), &mut spans);
    if list.len() < w.ranges {
        return Err(Refusal::ShortList);
    }
    places::copy_rows(&spans, w.ranges, list);
    Ok(w.ranges)
}

// The ranges common to all tracks, with the same care.
pub fn common_ranges(
    h: Head,
    times: &Times,
    tags: &Tags,
    list: &mut [[i64; 2]],
) -> Result<usize, Refusal>
    ensures { Reported result list.new (common_ranges_result (length list.old) h times.now tags.now) list.old }
{
    validation::check(&h, times, tags)?;
    let mut spans = [[0i64; 2]; PLACES];
    let all = common_bars(
        times,
        tags,
        h.nframes,
        h.ntracks as u32,
        list.len(),
        &mut spans,
    );
    if list.len() < all {
        return Err(Refusal::ShortList);
    }
    places::copy_rows(&spans, all, list);
    Ok(all)
}

// How many frames the walk of a track's report takes where so many places are lent.
pub fn walked(
    h: Head,
    times: &Times,
    tags: &Tags,
    track: u32,
    room: usize,
) -> Result<usize, Refusal>
    ensures { result ≡ walked_result room track h times.now tags.now }
{
    validation::check(&h, times, tags)?;
    if !limits::has_track(track, h.ntracks) {
        return Err(Refusal::NoTrack);
    }
    let mut spans = [[0i64; 2]; PLACES];
    Ok(track_walk(times, tags, h.nframes, track, room, &mut spans).taken)
}

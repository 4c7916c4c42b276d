// A store of frames lent as two arrays of numbers: a row of times (presentation, decode) and a row of tags (track, flag, duration,
// number, group) for each place. A place is read as a Frame by value and written from one.
#![tactic(auto)]

ghost use Rattle.std.specs.Prelude.{◌≡◌, true, ◌++◌, ◌≤◌, ◌<◌, length, take, drop, get_or, set};
ghost use Rattle.std.specs.Int.Signed.{lt_z};
ghost use Rattle.buffer_state.specs.Layout.{zero_frame, padded_list};
ghost use Rattle.buffer_state.specs.Store.{is_before, insert_sorted};
ghost use Rattle.buffer_state.specs.WellFormed.{is_sorted};
ghost use Rattle.buffer_state.specs.Limits.{places};
ghost use Rattle.buffer_state.specs.Lent.{flag_out, frame_of, time_of, tag_of, frames_of, times_of, tags_of, Lengths};
ghost use Rattle.places.specs.Places.{opened, cleared_places, GoesAt, Holding};

use buffer_state::Frame;

// ---- a place

// The frame that two rows hold.
pub fn frame_of(time: [i64; 2], tag: [u32; 5]) -> Frame
    ensures { result ≡ frame_of time tag }
{
    Frame {
        track: tag[0],
        flagged: tag[1] == 1,
        duration: tag[2],
        number: tag[3],
        group: tag[4],
        pts: time[0],
        dts: time[1],
    }
}

// The frame at a place.
pub fn frame_at(times: &[[i64; 2]], tags: &[[u32; 5]], i: usize) -> Frame
    requires { (i < length times.now) × (i < length tags.now) }
    ensures { result ≡ get_or (frames_of times.now tags.now) i zero_frame }
{
    let time = times[i];
    let tag = tags[i];
    frame_of(time, tag)
}

// A frame put at a place.
pub fn put_at(times: &mut [[i64; 2]], tags: &mut [[u32; 5]], i: usize, f: Frame)
    requires { (i < length times.old) × (i < length tags.old) }
    ensures times { times.new ≡ set times.old i (time_of f) }
    ensures tags { tags.new ≡ set tags.old i (tag_of f) }
{
    let time = [f.pts, f.dts];
    let tag = [f.track, u32::from(f.flagged), f.duration, f.number, f.group];
    times[i] = time;
    tags[i] = tag;
}

// ---- clearing

// Zeros from place k up to n.
pub fn clear_times(times: &mut [[i64; 2]], k: usize, n: usize)
    requires { (k ≤ n) × (n ≤ length times.old) }
    ensures { times.new ≡ cleared_places (time_of zero_frame) k n times.old }
{
    times[k..n].fill([0; 2]);
}

pub fn clear_tags(tags: &mut [[u32; 5]], k: usize, n: usize)
    requires { (k ≤ n) × (n ≤ length tags.old) }
    ensures { tags.new ≡ cleared_places (tag_of zero_frame) k n tags.old }
{
    tags[k..n].fill([0; 5]);
}

// The same of both arrays.
pub fn clear(times: &mut [[i64; 2]], tags: &mut [[u32; 5]], k: usize, n: usize)
    requires { (k ≤ n) × (n ≤ length times.old) × (n ≤ length tags.old) }
    ensures times { times.new ≡ cleared_places (time_of zero_frame) k n times.old }
    ensures tags { tags.new ≡ cleared_places (tag_of zero_frame) k n tags.old }
{
    clear_times(times, k, n);
    clear_tags(tags, k, n);
}

// ---- store order

// Whether a comes before b in store order. Leaving at once where one dts is earlier: compared as tuples, without a branch, the test of a
// state of 1,024 frames took a third longer.
#[tactic(auto, unfolding(buffer_state::specs::Store::is_before))]
pub fn frame_before(a: Frame, b: Frame) -> bool
    ensures { result ≡ is_before a b }
{
    if a.track != b.track {
        return a.track < b.track;
    }
    if a.dts < b.dts {
        return true;
    }
    if b.dts < a.dts {
        return false;
    }
    a.number < b.number
}

// ---- insertion

// Where f goes: past the last frame that it does not come before. Often that is the last of all; else the place is found by halving.
fn place_of(times: &[[i64; 2]], tags: &[[u32; 5]], n: usize, f: Frame) -> usize
    requires { (n ≤ length times.now) × (length times.now ≡ length tags.now) × (is_sorted (take n (frames_of times.now tags.now)) ≡ true) }
    ensures { GoesAt f (take n (frames_of times.now tags.now)) result }
{
    if n < 1 {
        return 0;
    }
    if !frame_before(f, frame_at(times, tags, n - 1)) {
        return n;
    }
    let mut low: usize = 0;
    let mut high = n - 1;
    while low < high {
        let middle = (low + high) / 2;
        if frame_before(f, frame_at(times, tags, middle)) {
            high = middle;
        } else {
            low = middle + 1;
        }
    }
    low
}

// A frame stored in order among the first n: those that it comes before move one place on.
pub fn insert(times: &mut [[i64; 2]], tags: &mut [[u32; 5]], n: usize, f: Frame)
    requires { (n < places) × Lengths times.old tags.old × Holding times.old tags.old n × (is_sorted (take n (frames_of times.old tags.old)) ≡ true) }
    ensures times { times.new ≡ times_of (padded_list places zero_frame (insert_sorted f (take n (frames_of times.old tags.old)))) }
    ensures tags { tags.new ≡ tags_of (padded_list places zero_frame (insert_sorted f (take n (frames_of times.old tags.old)))) }
{
    let p = place_of(times, tags, n, f);
    times.copy_within(p..n, p + 1);
    tags.copy_within(p..n, p + 1);
    put_at(times, tags, p, f);
}

// ---- rows of times, and of ranges, which are as wide

// The first n rows of a list, copied to another.
pub fn copy_rows(from: &[[i64; 2]], n: usize, to: &mut [[i64; 2]])
    requires { (n ≤ length from.now) × (n ≤ length to.old) }
    ensures { to.new ≡ take n from.now ++ drop n to.old }
{
    to[..n].copy_from_slice(&from[..n]);
}

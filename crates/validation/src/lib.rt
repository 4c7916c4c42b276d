// The well-formed test on a head and two lent arrays, for whatever they hold: garbage in any field is answered, never read past or added up.
#![tactic(auto)]

ghost use Rattle.std.specs.Prelude.{◌≡◌, Some, is_some, true, false, cond, ◌&&◌, ◌≤◌, ◌-◌, eqb, ltb, pos, length, take, drop};
ghost use Rattle.std.specs.Int.Signed.{le_z};
ghost use Rattle.seconds.specs.Seconds.{same_int};
ghost use Rattle.sorting.specs.Sorting.{following};
ghost use Rattle.buffer_state.specs.Buffer.{end_of};
ghost use Rattle.buffer_state.specs.Layout.{zero_frame, is_zero_track};
ghost use Rattle.buffer_state.specs.Lent.{frame_of, Lengths, plain_time, plain_tag, well_formed_at};
ghost use Rattle.buffer_state.specs.Limits.{result_time, good_duration, places};
ghost use Rattle.buffer_state.specs.Store.{is_before};
ghost use Rattle.buffer_state.specs.WellFormed.{all_of, good_track, good_frame, good_group, converts, good_offset, good_start, good_end, good_settings};
ghost use Rattle.numbers.specs.Numbers.{numbers_of};
ghost use Rattle.validation.specs.Tests.{checked, is_placed, is_zero_time, is_zero_tag, good_row, rows_from, head_test, frames_test};

use buffer_state::{
    Frame, Group, Head, PLACES, Refusal, Setting, Settings, Tags, Times, Track, WindowEnd,
};

// ---- a track

fn zero_three(t: Track) -> bool
    ensures { result ≡ (same_int t.dts (pos 0) && (eqb t.duration 0 && same_int t.end (pos 0))) }
{
    limits::same_int(t.dts, 0) & ((t.duration == 0) & limits::same_int(t.end, 0))
}

fn good_three(t: Track) -> bool
    ensures { result ≡ (result_time t.dts && (good_duration t.duration && result_time t.end)) }
{
    limits::result_time(t.dts) & (limits::good_duration(t.duration) & limits::result_time(t.end))
}

fn good_track(t: Track) -> bool
    ensures { result ≡ good_track t }
{
    if 1 < t.kind {
        return false;
    }
    if t.known {
        good_three(t)
    } else {
        zero_three(t)
    }
}

fn is_zero_track(t: Track) -> bool
    ensures { result ≡ is_zero_track t }
{
    let numbers = (t.duration == 0) & (limits::same_int(t.dts, 0) & limits::same_int(t.end, 0));
    (t.kind == 0) & (!t.known & (!t.need & numbers))
}

// ---- the group

fn good_group(g: Group) -> bool
    ensures { result ≡ good_group g }
{
    if !limits::result_time(g.end) {
        return false;
    }
    if g.begun {
        return limits::result_time(g.start);
    }
    limits::same_int(g.start, 0)
}

// ---- the settings

// A kept double converts to its microseconds.
fn converts_to(x: f64, z: i64) -> bool
    ensures { result ≡ converts x z }
{
    seconds::micros_of(x) == Ok(z)
}

// The offset's double converts to it, or is the quotient that step 1 of an append keeps.
fn good_offset(o: Setting) -> bool
    ensures { result ≡ good_offset o }
{
    let x = o.seconds;
    let z = o.micros;
    if !limits::result_time(z) {
        return false;
    }
    converts_to(x, z) | seconds::same_double(x, seconds::seconds_of(z))
}

fn good_start(o: Setting) -> bool
    ensures { result ≡ good_start o }
{
    let x = o.seconds;
    let z = o.micros;
    limits::at_most(0, z) & converts_to(x, z)
}

fn good_end(start: i64, end: WindowEnd, limit: i64) -> bool
    ensures { result ≡ good_end start end limit }
{
    match end {
        WindowEnd::Unbounded => limits::same_int(limit, 0),
        WindowEnd::At(x) => converts_to(x, limit) & limits::below(start, limit),
    }
}

fn good_settings(t: Settings) -> bool
    ensures { result ≡ good_settings t }
{
    let o = t.offset;
    let w = t.start;
    let e = t.end;
    good_offset(o) & (good_start(w) & good_end(w.micros, e, t.limit))
}

// ---- the head

fn track_place(t: Track, used: bool) -> bool
    ensures { result ≡ cond used (good_track t) (is_zero_track t) }
{
    if used {
        good_track(t)
    } else {
        is_zero_track(t)
    }
}

// The tracks of a head: good up to the count, zeros past it.
fn tracks_placed(h: Head) -> bool
    ensures { result ≡ is_placed good_track is_zero_track h.ntracks h.tracks }
{
    for (i, t) in h.tracks.iter().enumerate() {
        if !track_place(*t, i < h.ntracks) {
            return false;
        }
    }
    true
}

fn good_head(h: Head) -> bool
    ensures { result ≡ head_test h }
{
    if 4 < h.ntracks {
        return false;
    }
    if h.ntracks < 1 {
        return false;
    }
    let g = h.group;
    let t = h.settings;
    tracks_placed(h) & (good_group(g) & good_settings(t))
}

// ---- zeros past the count

// By columns, and one test at the end: a loop without branches.
fn no_times(times: &[[i64; 2]], n: usize) -> bool
    requires { n ≤ length times.now }
    ensures { result ≡ all_of is_zero_time (drop n times.now) }
{
    let mut a: i64 = 0;
    let mut b: i64 = 0;
    for time in &times[n..] {
        a |= time[0];
        b |= time[1];
    }
    (a | b) == 0
}

fn no_tags(tags: &[[u32; 5]], n: usize) -> bool
    requires { n ≤ length tags.now }
    ensures { result ≡ all_of is_zero_tag (drop n tags.now) }
{
    let mut a: u32 = 0;
    let mut b: u32 = 0;
    let mut c: u32 = 0;
    let mut d: u32 = 0;
    let mut e: u32 = 0;
    for tag in &tags[n..] {
        a |= tag[0];
        b |= tag[1];
        c |= tag[2];
        d |= tag[3];
        e |= tag[4];
    }
    (((a | b) | (c | d)) | e) == 0
}

// ---- a row in use

// The flag is 0 or 1.
fn plain_rows(time: [i64; 2], tag: [u32; 5]) -> bool
    ensures { result ≡ (plain_time time && plain_tag tag) }
{
    tag[1] <= 1
}

// The latest presentation time at which a frame of this duration ends inside the limits.
fn latest_start(duration: u32) -> i64
    ensures { result ≡ pos (4000000000000 - duration) }
{
    (4000000000000 - duration as u64) as i64
}

// The presentation time is at least 0, and with the end it is inside the limits: two comparisons for three tests.
fn good_span(f: Frame) -> bool
    ensures { result ≡ (le_z (pos 0) f.pts && (result_time f.pts && result_time (end_of f))) }
{
    limits::at_most(0, f.pts) & limits::at_most(f.pts, latest_start(f.duration))
}

// Each test leaves at once where it fails: branches that are never taken cost less than bits that are gathered.
fn good_frame(f: Frame, tracks: u32, last: u32, group: u32) -> bool
    ensures { result ≡ good_frame tracks last group f }
{
    if !((1 <= f.track) & (f.track <= tracks)) {
        return false;
    }
    if !((1 <= f.number) & (f.number <= last)) {
        return false;
    }
    if group < f.group {
        return false;
    }
    if !limits::good_duration(f.duration) {
        return false;
    }
    if !limits::result_time(f.dts) {
        return false;
    }
    good_span(f)
}

fn good_row(time: [i64; 2], tag: [u32; 5], tracks: u32, last: u32, group: u32) -> bool
    ensures { result ≡ good_row tracks last group time tag }
{
    if !plain_rows(time, tag) {
        return false;
    }
    good_frame(places::frame_of(time, tag), tracks, last, group)
}

// Whether one row comes before another in store order.
fn row_before(time: [i64; 2], tag: [u32; 5], next: [i64; 2], mark: [u32; 5]) -> bool
    ensures { result ≡ is_before (frame_of time tag) (frame_of next mark) }
{
    places::frame_before(places::frame_of(time, tag), places::frame_of(next, mark))
}

// ---- the rows in use

// One pass over the rows in use: where they are good and in store order, whether their numbers rise, so that no two are equal.
// The row before is read again: to carry its numbers costs registers.
fn examine(
    times: &[[i64; 2]],
    tags: &[[u32; 5]],
    n: usize,
    tracks: u32,
    last: u32,
    group: u32,
) -> Option<bool>
    requires { (n ≤ length times.now) × (n ≤ length tags.now) }
    ensures good_value { is_some result ≡ rows_from tracks last group zero_frame (take n times.now) (take n tags.now) }
    ensures tags_value { result ≡ Some true → following ltb 0 (numbers_of (take n tags.now)) ≡ true }
{
    if n == 0 {
        return Some(true);
    }
    if !good_row(times[0], tags[0], tracks, last, group) {
        return None;
    }
    let mut rising = true;
    for i in 1..n {
        let time = times[i];
        let tag = tags[i];
        if !good_row(time, tag, tracks, last, group) {
            return None;
        }
        let t = times[i - 1];
        let g = tags[i - 1];
        if !row_before(t, g, time, tag) {
            return None;
        }
        rising &= numbers::number_of(g) < numbers::number_of(tag);
    }
    Some(rising)
}

// ---- the whole

fn good_frames(
    times: &[[i64; 2]],
    tags: &[[u32; 5]],
    n: usize,
    tracks: u32,
    last: u32,
    group: u32,
) -> bool
    requires { (n ≤ places) × Lengths times.now tags.now }
    ensures { result ≡ frames_test n tracks last group times.now tags.now }
{
    if !no_times(times, n) {
        return false;
    }
    if !no_tags(tags, n) {
        return false;
    }
    match examine(times, tags, n, tracks, last, group) {
        None => false,
        Some(rising) => rising || numbers::distinct(&tags[..n]),
    }
}

// For a caller that holds slices.
pub fn is_well_formed(h: Head, times: &[[i64; 2]], tags: &[[u32; 5]]) -> bool
    requires { Lengths times.now tags.now }
    ensures { result ≡ well_formed_at h times.now tags.now }
{
    let n = h.nframes;
    if PLACES < n {
        return false;
    }
    if !good_head(h) {
        return false;
    }
    let tracks = h.ntracks as u32;
    let last = h.last;
    let group = h.group.number;
    good_frames(times, tags, n, tracks, last, group)
}

// The test with which every call on a state begins: refusal 1 where it fails.
pub fn check(h: &Head, times: &Times, tags: &Tags) -> Result<(), Refusal>
    ensures { result ≡ checked (well_formed_at h.now times.now tags.now) }
{
    if well_formed(*h, times, tags) {
        Ok(())
    } else {
        Err(Refusal::IllFormed)
    }
}

// Whether a head and what it is lent are a well-formed state.
pub fn well_formed(h: Head, times: &Times, tags: &Tags) -> bool
    ensures { result ≡ well_formed_at h times.now tags.now }
{
    is_well_formed(h, times, tags)
}

// Frames taken out of a lent store in place, with their fate lines. What an append overlaps and what a removal removes differ in the
// stretches of time and in the cause. Frames of one group, as they usually are, go in one loop; of several, the causes are found first,
// in an array of their own, and then the frames that have one are taken out.
#![tactic(auto)]

ghost use Rattle.std.specs.Prelude.{◌≡◌, true, cond, not, ◌≤◌, length, take, eqb, get_or};
ghost use Rattle.std.specs.List.{list_all};
ghost use Rattle.buffer_state.specs.declared.Frame.{Frame};
ghost use Rattle.buffer_state.specs.Layout.{zero_frame, padded_list};
ghost use Rattle.buffer_state.specs.Lent.{frames_of, times_of, tags_of, Lengths};
ghost use Rattle.buffer_state.specs.Limits.{places};
ghost use Rattle.buffer_state.specs.Store.{kept, lines_of};
ghost use Rattle.buffer_state.specs.WellFormed.{all_of, is_sorted};
ghost use Rattle.places.specs.Places.{Holding};
ghost use Rattle.taking.specs.Marks.{cause_after, marked_by, NoneBefore, lines_then};
ghost use Rattle.taking.specs.Loss.{bound_in, earlier, ends, loss_here, loss_of};
ghost use Rattle.taking.specs.Taking.{on_track, in_span, in_spans, taken_marks, FindsFirst, IsOneGroup};

use buffer_state::{Frame, PLACES, Track};

// The presentation times from the start up to but not including the end.
#[derive(Clone, Copy)]
pub struct Span {
    pub start: i64,
    pub end: i64,
}

// How many frames are left, and how many lines were written.
#[derive(Clone, Copy)]
struct Closed {
    left: usize,
    lines: usize,
}

// The same, and where the first frame that went and ended its track was shown.
#[derive(Clone, Copy)]
pub struct Taken {
    pub left: usize,
    pub lines: usize,
    pub lost: Option<i64>,
}

// ---- the stretches

// Whether a frame is in a stretch. Each track number has one among five, empty where the track loses nothing: callers read it by the
// frame's track themselves, since the five handed on by value would be copied for every frame.
pub fn in_span(s: Span, g: Frame) -> bool
    ensures { result ≡ in_span s g }
{
    limits::at_most(s.start, g.pts) & limits::below(g.pts, s.end)
}

// The first frame in its track's stretch, if one is.
pub fn first_in(times: &[[i64; 2]], tags: &[[u32; 5]], n: usize, spans: [Span; 5]) -> Option<usize>
    requires { (n ≤ length times.now) × (length times.now ≡ length tags.now) × (all_of on_track (take n (frames_of times.now tags.now)) ≡ true) }
    ensures { FindsFirst (in_spans spans) (take n (frames_of times.now tags.now)) n result }
{
    for i in 0..n {
        let g = places::frame_at(times, tags, i);
        let k = g.track as usize;
        if in_span(spans[k], g) {
            return Some(i);
        }
    }
    None
}

// ---- the causes

// The cause by which a frame goes: that of the stretch where it is in it, or 5 where step 8's walk reaches it. 0 where it stays.
fn goes_by(s: Span, g: Frame, reached: bool, cause: u32) -> u32
    requires { 1 ≤ cause }
    ensures { result ≡ cause_after reached g (cond (in_span s g) cause 0) }
{
    if in_span(s, g) {
        return cause;
    }
    if !g.flagged & reached {
        return 5;
    }
    0
}

// The cause of each frame. None before the first is in a stretch. The walk reaches the next frame of a track and group exactly where the
// one before it, of both, goes: so one bit is kept for each, in the slot that its frames share.
pub fn mark(
    times: &[[i64; 2]],
    tags: &[[u32; 5]],
    n: usize,
    first: usize,
    spans: [Span; 5],
    cause: u32,
) -> [u32; PLACES]
    requires { (n ≤ places) × Lengths times.now tags.now × (all_of on_track (take n (frames_of times.now tags.now)) ≡ true) × (1 ≤ cause) × (first ≤ n) × (all_of (λ (g : Frame). not (in_spans spans g)) (take first (take n (frames_of times.now tags.now))) ≡ true) }
    ensures marks { marked_by (take n (frames_of times.now tags.now)) result ≡ taken_marks spans cause (take n (frames_of times.now tags.now)) }
    ensures before { NoneBefore first result }
{
    let mut slots = [0usize; PLACES];
    groups::fill_slots(tags, first, n, &mut slots);
    let mut on = [false; PLACES];
    let mut causes = [0u32; PLACES];
    for i in first..n {
        let g = places::frame_at(times, tags, i);
        let t = g.track as usize;
        let slot = slots[i];
        let c = goes_by(spans[t], g, on[slot], cause);
        causes[i] = c;
        on[slot] = c != 0;
    }
    causes
}

// ---- the rule on the last decode time

// Whether a frame has a track's last decode time.
fn ends_track(t: Track, g: Frame) -> bool
    ensures { result ≡ ends t g }
{
    t.known & limits::same_int(g.dts, t.dts)
}

// Where a frame that goes was shown, if it ends its track.
fn loss_here(t: Track, g: Frame) -> Option<i64>
    ensures { bound_in result ≡ loss_here t g }
{
    ends_track(t, g).then_some(g.pts)
}

// Where the first frame that goes and ends its track was shown. The tracks are numbered as the stretches are.
pub fn loss_of(
    times: &[[i64; 2]],
    tags: &[[u32; 5]],
    n: usize,
    first: usize,
    causes: &[u32],
    tracks: [Track; 5],
) -> Option<i64>
    requires { (n ≤ places) × Lengths times.now tags.now × (all_of on_track (take n (frames_of times.now tags.now)) ≡ true) × (n ≤ length causes.now) × (first ≤ n) × NoneBefore first causes.now }
    ensures { bound_in result ≡ loss_of tracks (marked_by (take n (frames_of times.now tags.now)) causes.now) }
{
    for i in first..n {
        if causes[i] == 0 {
            continue;
        }
        let g = places::frame_at(times, tags, i);
        let t = g.track as usize;
        let lost = loss_here(tracks[t], g);
        if lost.is_some() {
            return lost;
        }
    }
    None
}

// ---- taking out by the causes

// The frames with a cause go, each with its line, and the others close up.
fn take_out(
    times: &mut [[i64; 2]],
    tags: &mut [[u32; 5]],
    n: usize,
    first: usize,
    causes: &[u32],
    fates: &mut [[u32; 2]],
) -> Closed
    requires { (n ≤ places) × Lengths times.old tags.old × Holding times.old tags.old n × (n ≤ length causes.now) × (n ≤ length fates.old) × (first ≤ n) × NoneBefore first causes.now }
    ensures times { times.new ≡ times_of (padded_list places zero_frame (kept (marked_by (take n (frames_of times.old tags.old)) causes.now))) }
    ensures tags { tags.new ≡ tags_of (padded_list places zero_frame (kept (marked_by (take n (frames_of times.old tags.old)) causes.now))) }
    ensures lines { fates.new ≡ lines_then (marked_by (take n (frames_of times.old tags.old)) causes.now) fates.old }
    ensures counts { (result.left ≡ length (kept (marked_by (take n (frames_of times.old tags.old)) causes.now))) × (result.lines ≡ length (lines_of (marked_by (take n (frames_of times.old tags.old)) causes.now))) }
{
    let mut k = first;
    let mut m: usize = 0;
    for i in first..n {
        let cause = causes[i];
        let tag = tags[i];
        if cause == 0 {
            times[k] = times[i];
            tags[k] = tag;
            k += 1;
            continue;
        }
        fates[m] = [tag[3], cause];
        m += 1;
    }
    places::clear(times, tags, k, n);
    Closed { left: k, lines: m }
}

// ---- taking out along one group

// Whether the rows are all of the group.
fn are_of(tags: &[[u32; 5]], group: u32) -> bool
    ensures { result ≡ list_all (λ tag. eqb (get_or tag 4 0) group) tags.now }
{
    tags.iter().all(|tag| tag[4] == group)
}

// Whether the rows from the first up to n are all of one group.
fn one_group(tags: &[[u32; 5]], first: usize, n: usize) -> bool
    requires { (first ≤ n) × (n ≤ length tags.now) }
    ensures { result ≡ true → IsOneGroup tags.now first n }
{
    if n <= first {
        return true;
    }
    are_of(&tags[first..n], tags[first][4])
}

// The loss so far, or else this frame, which goes, where it ends its track.
fn first_loss(lost: Option<i64>, t: Track, g: Frame) -> Option<i64>
    ensures { bound_in result ≡ earlier (bound_in lost) (loss_here t g) }
{
    lost.or(loss_here(t, g))
}

// All in one loop, with no array of causes. The walk carries the track of the frame taken last, and whether it goes on: in store order,
// and in one group, no frame further back can reach the next one.
fn take_along(
    times: &mut [[i64; 2]],
    tags: &mut [[u32; 5]],
    n: usize,
    first: usize,
    spans: [Span; 5],
    tracks: [Track; 5],
    cause: u32,
    fates: &mut [[u32; 2]],
) -> Taken
    requires { (n ≤ places) × Lengths times.old tags.old × Holding times.old tags.old n × (is_sorted (take n (frames_of times.old tags.old)) ≡ true) × (all_of on_track (take n (frames_of times.old tags.old)) ≡ true) × (1 ≤ cause) × (n ≤ length fates.old) × (first ≤ n) × (all_of (λ (g : Frame). not (in_spans spans g)) (take first (take n (frames_of times.old tags.old))) ≡ true) × IsOneGroup tags.old first n }
    ensures times { times.new ≡ times_of (padded_list places zero_frame (kept (taken_marks spans cause (take n (frames_of times.old tags.old))))) }
    ensures tags { tags.new ≡ tags_of (padded_list places zero_frame (kept (taken_marks spans cause (take n (frames_of times.old tags.old))))) }
    ensures lines { fates.new ≡ lines_then (taken_marks spans cause (take n (frames_of times.old tags.old))) fates.old }
    ensures lost { bound_in result.lost ≡ loss_of tracks (taken_marks spans cause (take n (frames_of times.old tags.old))) }
    ensures counts { (result.left ≡ length (kept (taken_marks spans cause (take n (frames_of times.old tags.old))))) × (result.lines ≡ length (lines_of (taken_marks spans cause (take n (frames_of times.old tags.old))))) }
{
    let mut track: u32 = 0;
    let mut follows = false;
    let mut k = first;
    let mut m: usize = 0;
    let mut lost = None;
    for i in first..n {
        let time = times[i];
        let tag = tags[i];
        let g = places::frame_of(time, tag);
        let t = g.track as usize;
        if in_span(spans[t], g) {
            lost = first_loss(lost, tracks[t], g);
            fates[m] = [g.number, cause];
            m += 1;
            track = g.track;
            follows = true;
            continue;
        }
        if follows & (!g.flagged & (g.track == track)) {
            lost = first_loss(lost, tracks[t], g);
            fates[m] = [g.number, 5];
            m += 1;
            continue;
        }
        times[k] = time;
        tags[k] = tag;
        k += 1;
        follows = false;
    }
    places::clear(times, tags, k, n);
    Taken {
        left: k,
        lines: m,
        lost,
    }
}

// ---- either way

// The frames in their track's stretch go by the cause, and those that step 8's walk reaches by 5; the others close up. None before the
// first is in a stretch. The loss is that of a removal. The tracks are numbered as the stretches are.
pub fn take_in(
    times: &mut [[i64; 2]],
    tags: &mut [[u32; 5]],
    n: usize,
    first: usize,
    spans: [Span; 5],
    tracks: [Track; 5],
    cause: u32,
    fates: &mut [[u32; 2]],
) -> Taken
    requires { (n ≤ places) × Lengths times.old tags.old × Holding times.old tags.old n × (is_sorted (take n (frames_of times.old tags.old)) ≡ true) × (all_of on_track (take n (frames_of times.old tags.old)) ≡ true) × (1 ≤ cause) × (n ≤ length fates.old) × (first ≤ n) × (all_of (λ (g : Frame). not (in_spans spans g)) (take first (take n (frames_of times.old tags.old))) ≡ true) }
    ensures times { times.new ≡ times_of (padded_list places zero_frame (kept (taken_marks spans cause (take n (frames_of times.old tags.old))))) }
    ensures tags { tags.new ≡ tags_of (padded_list places zero_frame (kept (taken_marks spans cause (take n (frames_of times.old tags.old))))) }
    ensures lines { fates.new ≡ lines_then (taken_marks spans cause (take n (frames_of times.old tags.old))) fates.old }
    ensures lost { bound_in result.lost ≡ loss_of tracks (taken_marks spans cause (take n (frames_of times.old tags.old))) }
    ensures counts { (result.left ≡ length (kept (taken_marks spans cause (take n (frames_of times.old tags.old))))) × (result.lines ≡ length (lines_of (taken_marks spans cause (take n (frames_of times.old tags.old))))) }
{
    if one_group(tags, first, n) {
        return take_along(times, tags, n, first, spans, tracks, cause, fates);
    }
    let causes = mark(times, tags, n, first, spans, cause);
    let lost = loss_of(times, tags, n, first, &causes, tracks);
    let out = take_out(times, tags, n, first, &causes, fates);
    Taken {
        left: out.left,
        lines: out.lines,
        lost,
    }
}

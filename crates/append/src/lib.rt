// Appending one frame. Steps 1 to 6 work on the head of the state (the crate heads); the frames are lent as two arrays and changed in
// place, after every refusal is decided. The crate batch appends many, to a state that is tested once.
#![tactic(auto)]

ghost use Rattle.std.specs.Prelude.{◌≡◌, true, ◌&&◌, ◌||◌, ◌≤◌, ◌<◌, length, take, eqb, Some};
ghost use Rattle.std.specs.Int.Signed.{le_z};
ghost use Rattle.buffer_state.specs.declared.Frame.{Frame};
ghost use Rattle.buffer_state.specs.Answers.{line_count, head_after, times_after, tags_after, list_after, append_result};
ghost use Rattle.buffer_state.specs.Append.{is_overlapped, step_nine, is_offerable};
ghost use Rattle.buffer_state.specs.Buffer.{Buffer};
ghost use Rattle.buffer_state.specs.Layout.{zero_frame, padded_list};
ghost use Rattle.buffer_state.specs.Lent.{frames_of, times_of, tags_of, head_of, times_in, tags_in, well_formed_at};
ghost use Rattle.buffer_state.specs.Limits.{offered_time, result_time, last_number, places};
ghost use Rattle.buffer_state.specs.Store.{kept, lines_of, insert_sorted};
ghost use Rattle.heads.specs.Heads.{IsGoodHead, HasTrack, drop_cause};
ghost use Rattle.taking.specs.Marks.{lines_then};
ghost use Rattle.taking.specs.Taking.{in_span, in_spans, IsFirstIn, FindsFirst};
ghost use Rattle.append.specs.Settled.{settled_result, pass_at, storing_at, IsReady, IsStored, Before, Follows, overlap_at};

use buffer_state::{Frame, Head, Offered, PLACES, Refusal, Tags, Times, Track};
use heads::Passed;
use taking::{Span, Taken};

const LAST_NUMBER: u32 = 4294967295;

const PAST_LIMITS: i64 = 4000000000001; // the first microsecond past the limits

// ---- a frame that is dropped

// The head after it. Its line is the only one. The promise is made of every buffer that has the head.
fn drop_frame(h: Head, g: Offered, cause: u32, fates: &mut [[u32; 2]]) -> Head
    requires { HasTrack h g.track × (h.nframes ≤ places) × (h.last < last_number) × (1 ≤ cause) × (1 ≤ length fates.old) }
    ensures head { (b : Buffer) → h ≡ head_of b → cause ≡ drop_cause (record { buffer = b; frame = g }) → result ≡ head_after (settled_result (record { buffer = b; frame = g })) h }
    ensures lines { (b : Buffer) → h ≡ head_of b → cause ≡ drop_cause (record { buffer = b; frame = g }) → fates.new ≡ list_after (settled_result (record { buffer = b; frame = g })) fates.old }
{
    let t = heads::dropped_head(h, g.track, cause);
    fates[0] = [t.last, cause];
    t
}

// ---- steps 7 and 8

// The stretch of presentation times whose frames go: from P, or from highest end where it is set and at most P, up to frame end.
fn span_of(t: Track, f: Offered) -> Span
    requires { result_time f.pts ≡ true }
    ensures { (g : Frame) → (eqb g.track f.track && in_span result g) ≡ is_overlapped t f g }
{
    let e = heads::end_offered(f);
    if !t.known {
        return Span {
            start: f.pts,
            end: e,
        };
    }
    if limits::below(f.pts, t.end) {
        return Span { start: e, end: e };
    }
    Span {
        start: t.end,
        end: e,
    }
}

// One track's stretch among those of all tracks; the others lose nothing.
fn spans_with(track: u32, s: Span) -> [Span; 5]
    requires { track < 5 }
    ensures { (g : Frame) → in_spans result g ≡ (eqb g.track track && in_span s g) }
{
    let none = Span { start: 0, end: 0 };
    let mut spans = [none; 5];
    spans[track as usize] = s;
    spans
}

// A stretch past the bound of its track, an instant before which every frame of the track is presented, or empty, has no frame.
fn is_free(s: Span, bound: i64) -> bool
    ensures { result ≡ (le_z bound s.start || le_z s.end s.start) }
{
    limits::at_most(bound, s.start) | limits::at_most(s.end, s.start)
}

// The first frame in the stretch of its track, if one is. A stretch that is free by the bound is not searched for.
fn first_overlapped(
    times: &[[i64; 2]],
    tags: &[[u32; 5]],
    n: usize,
    track: u32,
    s: Span,
    spans: [Span; 5],
    bound: i64,
) -> Option<usize>
    requires { IsStored n times.now tags.now × ((g : Frame) → in_spans spans g ≡ (eqb g.track track && in_span s g)) × Before track bound (take n (frames_of times.now tags.now)) }
    ensures { FindsFirst (in_spans spans) (take n (frames_of times.now tags.now)) n result }
{
    if is_free(s, bound) {
        return None;
    }
    taking::first_in(times, tags, n, spans)
}

// ---- a frame that is stored

// A frame that overlaps nothing takes its place.
pub fn put_next(h: &mut Head, g: Offered, times: &mut [[i64; 2]], tags: &mut [[u32; 5]])
    requires { IsReady h.old times.old tags.old g × (h.old.nframes < places) }
    ensures head { h.new ≡ head_of (step_nine (storing_at h.old times.old tags.old g) (take h.old.nframes (frames_of times.old tags.old))) }
    ensures times { times.new ≡ times_in (step_nine (storing_at h.old times.old tags.old g) (take h.old.nframes (frames_of times.old tags.old))) }
    ensures tags { tags.new ≡ tags_in (step_nine (storing_at h.old times.old tags.old g) (take h.old.nframes (frames_of times.old tags.old))) }
{
    let n = h.nframes;
    let k = heads::need_track(*h, g.track, false);
    let nine = heads::step_nine(k, g, n);
    let f = heads::stored_as(nine.last, nine.group.number, g);
    places::insert(times, tags, n, f);
    *h = nine;
}

// The frames in the stretches are taken out, then the frame takes its place among those left.
fn put_in(
    times: &mut [[i64; 2]],
    tags: &mut [[u32; 5]],
    n: usize,
    first: usize,
    f: Frame,
    spans: [Span; 5],
    fates: &mut [[u32; 2]],
) -> Taken
    requires { IsStored n times.old tags.old × IsFirstIn (in_spans spans) (take n (frames_of times.old tags.old)) n first × (first < n) × (n ≤ length fates.old) }
    ensures times { times.new ≡ times_of (padded_list places zero_frame (insert_sorted f (kept (overlap_at spans n times.old tags.old)))) }
    ensures tags { tags.new ≡ tags_of (padded_list places zero_frame (insert_sorted f (kept (overlap_at spans n times.old tags.old)))) }
    ensures lines { fates.new ≡ lines_then (overlap_at spans n times.old tags.old) fates.old }
    ensures counts { (result.left ≡ length (kept (overlap_at spans n times.old tags.old))) × (result.lines ≡ length (lines_of (overlap_at spans n times.old tags.old))) }
{
    let none = Track {
        kind: 0,
        known: false,
        need: false,
        duration: 0,
        dts: 0,
        end: 0,
    };
    let out = taking::take_in(times, tags, n, first, spans, [none; 5], 4, fates);
    places::insert(times, tags, out.left, f);
    out
}

// The frame is stored, unless the store is full and no place is freed: a frame that is taken out frees one.
fn store_frame(
    h: &mut Head,
    p: Passed,
    bound: i64,
    times: &mut [[i64; 2]],
    tags: &mut [[u32; 5]],
    fates: &mut [[u32; 2]],
) -> Result<usize, Refusal>
    requires { IsReady p.head times.old tags.old p.frame × (drop_cause (pass_at p.head times.old tags.old p.frame) ≡ 0) × Before p.frame.track bound (take p.head.nframes (frames_of times.old tags.old)) × (p.head.nframes ≤ length fates.old) }
    ensures answer { result ≡ line_count (settled_result (pass_at p.head times.old tags.old p.frame)) }
    ensures head { h.new ≡ head_after (settled_result (pass_at p.head times.old tags.old p.frame)) h.old }
    ensures times { times.new ≡ times_after (settled_result (pass_at p.head times.old tags.old p.frame)) times.old }
    ensures tags { tags.new ≡ tags_after (settled_result (pass_at p.head times.old tags.old p.frame)) tags.old }
    ensures lines { fates.new ≡ list_after (settled_result (pass_at p.head times.old tags.old p.frame)) fates.old }
{
    let g = p.frame;
    let track = g.track;
    let n = p.head.nframes;
    let k = heads::need_track(p.head, track, false);
    let s = span_of(heads::track_of(k, track), g);
    let spans = spans_with(track, s);
    let Some(first) = first_overlapped(times, tags, n, track, s, spans, bound) else {
        if PLACES <= n {
            return Err(Refusal::Full);
        }
        *h = p.head;
        put_next(h, g, times, tags);
        return Ok(0);
    };
    let f = heads::stored_as(k.last + 1, k.group.number, g);
    let out = put_in(times, tags, n, first, f, spans, fates);
    *h = heads::step_nine(k, g, out.left);
    Ok(out.lines)
}

// ---- the call

fn offered_time(z: i64) -> bool
    ensures { result ≡ offered_time z }
{
    limits::at_most(-1000000000000, z) & limits::at_most(z, 1000000000000)
}

fn is_offerable(f: Offered) -> bool
    ensures { result ≡ is_offerable f }
{
    offered_time(f.pts) & (offered_time(f.dts) & limits::good_duration(f.duration))
}

// A frame that goes on from where its track stands, as it is after step 2: nothing of the head changes before step 9, and the frame is
// stored and overlaps nothing. Where it says none, nothing is known, and all the steps are taken.
pub fn follows(h: Head, f: Offered, bound: i64) -> Option<Offered>
    requires { IsGoodHead h }
    ensures { (b : Buffer) → h ≡ head_of b → (g : Offered) → result ≡ Some g → Follows b f g bound }
{
    if !limits::has_track(f.track, h.ntracks) {
        return None;
    }
    if !is_offerable(f) {
        return None;
    }
    if h.last == LAST_NUMBER {
        return None;
    }
    let g = heads::steady_frame(h, f)?;
    if heads::drop_cause(h, g) != 0 {
        return None;
    }
    let span = span_of(heads::track_of(h, g.track), g);
    if is_free(span, bound) & (h.nframes < PLACES) {
        return Some(g);
    }
    None
}

// The last pass, once it is inside the limits, drops or stores the frame.
fn settle(
    h: &mut Head,
    p: Passed,
    bound: i64,
    times: &mut [[i64; 2]],
    tags: &mut [[u32; 5]],
    fates: &mut [[u32; 2]],
) -> Result<usize, Refusal>
    requires { IsReady p.head times.old tags.old p.frame × Before p.frame.track bound (take p.head.nframes (frames_of times.old tags.old)) × (p.head.nframes ≤ length fates.old) × (1 ≤ length fates.old) }
    ensures answer { result ≡ line_count (settled_result (pass_at p.head times.old tags.old p.frame)) }
    ensures head { h.new ≡ head_after (settled_result (pass_at p.head times.old tags.old p.frame)) h.old }
    ensures times { times.new ≡ times_after (settled_result (pass_at p.head times.old tags.old p.frame)) times.old }
    ensures tags { tags.new ≡ tags_after (settled_result (pass_at p.head times.old tags.old p.frame)) tags.old }
    ensures lines { fates.new ≡ list_after (settled_result (pass_at p.head times.old tags.old p.frame)) fates.old }
{
    let cause = heads::drop_cause(p.head, p.frame);
    if cause == 0 {
        return store_frame(h, p, bound, times, tags, fates);
    }
    *h = drop_frame(p.head, p.frame, cause, fates);
    Ok(1)
}

// Append one frame to a state that was tested, as if lent 1,024 lines: refusals 3, 4, 9 (the number), 7 and 9 (the group) in that order,
// then 8 or the steps' outcome. The lines lent need be no more than can be written: one for each stored frame, or one for this frame. The
// bound is that of its track. How many lines it wrote.
pub fn append_tested(
    h: &mut Head,
    f: Offered,
    bound: i64,
    times: &mut [[i64; 2]],
    tags: &mut [[u32; 5]],
    fates: &mut [[u32; 2]],
) -> Result<usize, Refusal>
    requires { (well_formed_at h.old times.old tags.old ≡ true) × Before f.track bound (take h.old.nframes (frames_of times.old tags.old)) × (h.old.nframes ≤ length fates.old) × (1 ≤ length fates.old) }
    ensures answer { result ≡ line_count (append_result places f h.old times.old tags.old) }
    ensures head { h.new ≡ head_after (append_result places f h.old times.old tags.old) h.old }
    ensures times { times.new ≡ times_after (append_result places f h.old times.old tags.old) times.old }
    ensures tags { tags.new ≡ tags_after (append_result places f h.old times.old tags.old) tags.old }
    ensures lines { fates.new ≡ list_after (append_result places f h.old times.old tags.old) fates.old }
{
    if !limits::has_track(f.track, h.ntracks) {
        return Err(Refusal::NoTrack);
    }
    if !is_offerable(f) {
        return Err(Refusal::FrameLimits);
    }
    if h.last == LAST_NUMBER {
        return Err(Refusal::LastNumber);
    }
    let p = heads::last_pass(*h, f)?;
    settle(h, p, bound, times, tags, fates)
}

// Append one frame: refusals 1, 2, 3, 4, 9 (the number), 7 and 9 (the group) in that order, then 8 or the steps' outcome. How many lines it
// wrote.
pub fn append(
    h: &mut Head,
    f: Offered,
    times: &mut Times,
    tags: &mut Tags,
    fates: &mut [[u32; 2]],
) -> Result<usize, Refusal>
    ensures answer { result ≡ line_count (append_result (length fates.old) f h.old times.old tags.old) }
    ensures head { h.new ≡ head_after (append_result (length fates.old) f h.old times.old tags.old) h.old }
    ensures times { times.new ≡ times_after (append_result (length fates.old) f h.old times.old tags.old) times.old }
    ensures tags { tags.new ≡ tags_after (append_result (length fates.old) f h.old times.old tags.old) tags.old }
    ensures lines { fates.new ≡ list_after (append_result (length fates.old) f h.old times.old tags.old) fates.old }
{
    validation::check(h, times, tags)?;
    if fates.len() < PLACES {
        return Err(Refusal::ShortFates);
    }
    append_tested(h, f, PAST_LIMITS, times, tags, fates)
}

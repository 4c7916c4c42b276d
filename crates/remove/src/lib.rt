// Removing a stretch of time: document 01, "Removing, aborting, setting". Any state and any times may be handed in.
#![tactic(auto)]

ghost use Rattle.std.specs.Prelude.{◌≡◌, true, false, ◌&&◌, ◌∷◌, ◌≤◌, ◌<◌, eqb, length, take};
ghost use Rattle.buffer_state.specs.declared.Frame.{Frame};
ghost use Rattle.buffer_state.specs.Buffer.{zero_track};
ghost use Rattle.buffer_state.specs.Answers.{line_count, head_after, times_after, tags_after, list_after, remove_result};
ghost use Rattle.buffer_state.specs.Layout.{buffer_of};
ghost use Rattle.buffer_state.specs.Lent.{frames_of, state_at, well_formed_at};
ghost use Rattle.buffer_state.specs.Limits.{places, last_group};
ghost use Rattle.buffer_state.specs.Remove.{before_bound};
ghost use Rattle.taking.specs.Loss.{bound_in, loss_of};
ghost use Rattle.taking.specs.Taking.{in_spans, taken_marks, IsFirstIn};
ghost use Rattle.remove.specs.Edges.{in_order, stretch_of, beyond, opens_after, FarSpans};
ghost use Rattle.remove.specs.Loss.{is_loss, over_result, settled_by};

use buffer_state::{Frame, Head, LAST_GROUP, PLACES, Refusal, Tags, Times, Track};
use taking::Span;

const BEYOND: i64 = 4000000000001; // past every presentation time

// ---- the stretch of time

// Whether z is before the instant; where there is none, it is.
fn is_before(z: i64, end: Option<i64>) -> bool
    ensures { result ≡ before_bound z (bound_in end) }
{
    end.is_none_or(|e| z < e)
}

// The start and the end of a removal. Refusal 6: the start is under 0, or the end is not above it.
fn in_order(start: i64, end: Option<i64>) -> Result<(i64, Option<i64>), Refusal>
    ensures { result ≡ in_order start end }
{
    if start < 0 || !is_before(start, end) {
        return Err(Refusal::Order);
    }
    Ok((start, end))
}

// Refusal 5 of either time, then refusal 6.
fn stretch_of(start: f64, end: f64) -> Result<(i64, Option<i64>), Refusal>
    ensures { result ≡ stretch_of start end }
{
    let from = seconds::micros_of(start)?;
    let to = seconds::end_micros(end)?;
    in_order(from, to)
}

// ---- the far edges

// The stretch that a track loses where it has no far edge.
fn open_from(start: i64) -> Span
    ensures { (result.start ≡ start) × (result.end ≡ beyond) }
{
    Span { start, end: BEYOND }
}

// A flagged frame at or after the end.
fn opens(f: Frame, end: Option<i64>) -> bool
    ensures { result ≡ opens_after (bound_in end) f }
{
    f.flagged && !is_before(f.pts, end)
}

// The stretches of all tracks, from the start up to their far edges, in one pass from the back: a frame that opens after the end, and is
// earlier than the edge so far, is a nearer one.
fn far_spans(
    h: Head,
    whole: Span,
    end: Option<i64>,
    times: &[[i64; 2]],
    tags: &[[u32; 5]],
) -> [Span; 5]
    requires { (well_formed_at h times.now tags.now ≡ true) × (whole.end ≡ beyond) }
    ensures { FarSpans whole.start (bound_in end) (take h.nframes (frames_of times.now tags.now)) result }
{
    let mut spans = [whole; 5];
    for i in (0..h.nframes).rev() {
        let f = places::frame_at(times, tags, i);
        let track = f.track as usize;
        if opens(f, end) && f.pts < spans[track].end {
            spans[track].end = f.pts;
        }
    }
    spans
}

// ---- the rule on the last decode time

// The tracks by their numbers, which run from 1.
fn by_number(t: [Track; 4]) -> [Track; 5]
    ensures { result ≡ zero_track ∷ t }
{
    let none = Track {
        kind: 0,
        known: false,
        need: false,
        duration: 0,
        dts: 0,
        end: 0,
    };
    [none, t[0], t[1], t[2], t[3]]
}

// Refusal 9: such a loss would begin a group after the last one. In that group alone the causes are found before anything is written.
fn lacks_group(
    h: Head,
    times: &[[i64; 2]],
    tags: &[[u32; 5]],
    first: usize,
    spans: [Span; 5],
    numbered: [Track; 5],
) -> bool
    requires { (well_formed_at h times.now tags.now ≡ true) × IsFirstIn (in_spans spans) (take h.nframes (frames_of times.now tags.now)) h.nframes first }
    ensures { result ≡ (is_loss (loss_of numbered (taken_marks spans 6 (take h.nframes (frames_of times.now tags.now)))) && eqb h.group.number last_group) }
{
    if h.group.number != LAST_GROUP {
        return false;
    }
    let causes = taking::mark(times, tags, h.nframes, first, spans, 6);
    taking::loss_of(times, tags, h.nframes, first, &causes, numbered).is_some()
}

// The head with so many frames left, after such a loss: regrouped there, every track begun again, in the next group.
fn settled(h: Head, left: usize, first: Option<i64>) -> Head
    requires { (h.ntracks ≤ 4) × ((is_loss (bound_in first) && eqb h.group.number last_group) ≡ false) }
    ensures { result ≡ settled_by (bound_in first) left h }
{
    let Some(shown) = first else {
        return Head { nframes: left, ..h };
    };
    let regrouped = tracks::regroup(h.mode, h.group, shown);
    Head {
        tracks: tracks::restart_all(h.tracks, h.ntracks),
        nframes: left,
        group: tracks::next_group(regrouped),
        ..h
    }
}

// ---- the call

// A removal that is not refused by its times: where no frame is in its track's stretch, nothing changes.
fn remove_over(
    h: &mut Head,
    start: i64,
    end: Option<i64>,
    times: &mut [[i64; 2]],
    tags: &mut [[u32; 5]],
    fates: &mut [[u32; 2]],
) -> Result<usize, Refusal>
    requires { (well_formed_at h.old times.old tags.old ≡ true) × (places ≤ length fates.old) }
    ensures answer { result ≡ line_count (over_result start (bound_in end) (buffer_of (state_at h.old times.old tags.old))) }
    ensures head { h.new ≡ head_after (over_result start (bound_in end) (buffer_of (state_at h.old times.old tags.old))) h.old }
    ensures times { times.new ≡ times_after (over_result start (bound_in end) (buffer_of (state_at h.old times.old tags.old))) times.old }
    ensures tags { tags.new ≡ tags_after (over_result start (bound_in end) (buffer_of (state_at h.old times.old tags.old))) tags.old }
    ensures lines { fates.new ≡ list_after (over_result start (bound_in end) (buffer_of (state_at h.old times.old tags.old))) fates.old }
{
    let n = h.nframes;
    let spans = far_spans(*h, open_from(start), end, times, tags);
    let Some(first) = taking::first_in(times, tags, n, spans) else {
        return Ok(0);
    };
    let numbered = by_number(h.tracks);
    if lacks_group(*h, times, tags, first, spans, numbered) {
        return Err(Refusal::LastNumber);
    }
    let out = taking::take_in(times, tags, n, first, spans, numbered, 6, fates);
    *h = settled(*h, out.left, out.lost);
    Ok(out.lines)
}

// Remove from one time in seconds to another: refusals 1, 2, 5, 6, 9 in that order.
pub fn remove(
    h: &mut Head,
    start: f64,
    end: f64,
    times: &mut Times,
    tags: &mut Tags,
    fates: &mut [[u32; 2]],
) -> Result<usize, Refusal>
    ensures answer { result ≡ line_count (remove_result (length fates.old) start end h.old times.old tags.old) }
    ensures head { h.new ≡ head_after (remove_result (length fates.old) start end h.old times.old tags.old) h.old }
    ensures times { times.new ≡ times_after (remove_result (length fates.old) start end h.old times.old tags.old) times.old }
    ensures tags { tags.new ≡ tags_after (remove_result (length fates.old) start end h.old times.old tags.old) tags.old }
    ensures lines { fates.new ≡ list_after (remove_result (length fates.old) start end h.old times.old tags.old) fates.old }
{
    validation::check(h, times, tags)?;
    if fates.len() < PLACES {
        return Err(Refusal::ShortFates);
    }
    let (from, to) = stretch_of(start, end)?;
    remove_over(h, from, to, times, tags, fates)
}

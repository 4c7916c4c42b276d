// Where to start decoding: the frame that a track shows at an instant, the random access point from which to decode it, and how many
// frames that takes.
#![tactic(auto)]

ghost use Rattle.std.specs.Prelude.{◌≡◌, true, cond, ◌&&◌, ◌+◌, ◌<◌, eqb, take, get_or, IfSome};
ghost use Rattle.buffer_state.specs.Answers.{seek_result};
ghost use Rattle.buffer_state.specs.Layout.{zero_frame, buffer_of};
ghost use Rattle.buffer_state.specs.Lent.{frames_of, state_at, Lengths};
ghost use Rattle.buffer_state.specs.Limits.{places, result_time};
ghost use Rattle.buffer_state.specs.Ranges.{covers};
ghost use Rattle.buffer_state.specs.Run.{stored_on};
ghost use Rattle.buffer_state.specs.Seek.{picked, over, pick, target_of, from_flagged, start_by};
ghost use Rattle.buffer_state.specs.Store.{is_of};
ghost use Rattle.seek.specs.Places.{Stands, placed_target, same_group, Within};

use buffer_state::{Frame, Head, Refusal, Start, Tags, Times};

// ---- the target

// Whether a frame is of the track and covers the instant.
fn shows(f: Frame, track: u32, instant: i64) -> bool
    requires { result_time f.pts ≡ true }
    ensures { result ≡ (eqb f.track track && covers instant f) }
{
    f.track == track && f.pts <= instant && instant < limits::end_of(f)
}

// Whether a frame is picked rather than another that shows at the same instant.
fn is_over(f: Frame, g: Frame) -> bool
    ensures { result ≡ over f g }
{
    (g.pts, g.number) < (f.pts, f.number)
}

// Whether a frame is picked rather than the one at the place picked so far, if there is one.
fn is_picked(times: &[[i64; 2]], tags: &[[u32; 5]], f: Frame, best: Option<usize>) -> bool
    requires { Lengths times.now tags.now × IfSome best (λ place. place < places) }
    ensures { cond result (picked f) (placed_target (frames_of times.now tags.now) best) ≡ pick f (placed_target (frames_of times.now tags.now) best) }
{
    match best {
        None => true,
        Some(place) => is_over(f, places::frame_at(times, tags, place)),
    }
}

// The place of the target among the first n frames.
fn target_at(
    times: &[[i64; 2]],
    tags: &[[u32; 5]],
    n: usize,
    track: u32,
    instant: i64,
) -> Option<usize>
    requires { Stands times.now tags.now n }
    ensures target { target_of track instant (take n (frames_of times.now tags.now)) ≡ placed_target (frames_of times.now tags.now) result }
    ensures within { IfSome result (λ place. place < n) }
{
    let mut best = None;
    for i in (0..n).rev() {
        let f = places::frame_at(times, tags, i);
        if shows(f, track, instant) && is_picked(times, tags, f, best) {
            best = Some(i);
        }
    }
    best
}

// ---- the walk

fn same_group(f: Frame, g: Frame) -> bool
    ensures { result ≡ is_of f.track f.group g }
{
    g.track == f.track && g.group == f.group
}

// From the frame at a place back to the nearest flagged one of its group and track, and how many of these there are on the way.
fn walk_back(times: &[[i64; 2]], tags: &[[u32; 5]], at: usize) -> Result<Start, Refusal>
    requires { (Lengths times.now tags.now) × (at < places) }
    ensures { result ≡ start_by (get_or (frames_of times.now tags.now) at zero_frame)
        (from_flagged (same_group (get_or (frames_of times.now tags.now) at zero_frame) (take (at + 1) (frames_of times.now tags.now)))) }
{
    let f = places::frame_at(times, tags, at);
    let mut count: usize = 0;
    for i in (0..at + 1).rev() {
        let g = places::frame_at(times, tags, i);
        if same_group(f, g) {
            count += 1;
            if g.flagged {
                return Ok(Start {
                    target: f.number,
                    flagged: g.number,
                    count,
                });
            }
        }
    }
    Err(Refusal::NoStart)
}

// ---- the call

// Where to start decoding for a track and an instant in microseconds. The frames to decode are never more than the track has.
pub fn seek(h: Head, times: &Times, tags: &Tags, track: u32, instant: i64) -> Result<Start, Refusal>
    ensures answer { result ≡ seek_result track instant h times.now tags.now }
    ensures within { Within (stored_on track (buffer_of (state_at h times.now tags.now))) result }
{
    validation::check(&h, times, tags)?;
    if !limits::has_track(track, h.ntracks) {
        return Err(Refusal::NoTrack);
    }
    let at = target_at(times, tags, h.nframes, track, instant).ok_or(Refusal::NoStart)?;
    walk_back(times, tags, at)
}

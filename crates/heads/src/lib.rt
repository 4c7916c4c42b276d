// A state's head under an append: steps 1 to 6, and what step 9 does beside storing the frame.
// A promise on a head is made of every buffer b that has it: h ≡ head_of b.
#![tactic(auto)]

ghost use Rattle.std.specs.Prelude.{◌≡◌, true, ◌&&◌, ◌||◌, cond, List, ◌*◌, ◌^◌, ◌≤◌, ◌<◌, pos, ◌+ℤ◌, ◌-ℤ◌, nat_abs, length, Some};
ghost use Rattle.std.specs.Int.Signed.{lt_z, mag};
ghost use Rattle.buffer_state.specs.declared.Frame.{Frame};
ghost use Rattle.buffer_state.specs.Append.{with_offset, step_one, step_two, end_offered, fits, moved, breaks, above, dropped_outcome, raised, stored_as, followed, step_nine, is_offerable};
ghost use Rattle.buffer_state.specs.Buffer.{Buffer, is_sequence, track_of, with_track, with_need, with_end, in_next_group};
ghost use Rattle.buffer_state.specs.Lent.{head_of};
ghost use Rattle.buffer_state.specs.Limits.{offered_time, result_time, last_number, last_group, places};
ghost use Rattle.buffer_state.specs.WellFormed.{good_track};
ghost use Rattle.heads.specs.Heads.{IsGoodHead, HasTrack, IsCalm, decided, first_decision, second_decision, decision, drop_cause, drop_buffer, next_head, grown_head};

use buffer_state::{
    Frame, Group, Head, LAST_GROUP, Offered, Refusal, Setting, Settings, Track, WindowEnd,
};

// A pass: the head after step 1, and the frame after step 2.
#[derive(Clone, Copy)]
pub struct Passed {
    pub head: Head,
    pub frame: Offered,
}

// ---- one track

// Tracks are numbered from 1.
pub fn track_of(h: Head, n: u32) -> Track
    requires { HasTrack h n }
    ensures { (b : Buffer) → h ≡ head_of b → result ≡ track_of b n }
{
    h.tracks[n as usize - 1]
}

fn with_track(h: Head, n: u32, t: Track) -> Head
    requires { HasTrack h n }
    ensures { (b : Buffer) → h ≡ head_of b → result ≡ head_of (with_track b n t) }
{
    let mut out = h;
    let i = n as usize - 1;
    out.tracks[i] = t;
    out
}

// Need-random-access on or off for one track. Where it is off already, as for most frames, no head is made.
pub fn need_track(h: Head, n: u32, on: bool) -> Head
    requires { HasTrack h n }
    ensures { (b : Buffer) → h ≡ head_of b → result ≡ head_of (with_track b n (with_need on (track_of b n))) }
{
    let t = track_of(h, n);
    if !on & !t.need {
        return h;
    }
    with_track(h, n, tracks::with_need(t, on))
}

// ---- step 1

// The double kept is one division, even where z was the offset already.
fn with_offset(s: Settings, z: i64) -> Settings
    requires { nat_abs z ≤ 2 ^ 53 }
    ensures { result ≡ with_offset s z }
{
    let x = seconds::seconds_of(z);
    Settings {
        offset: Setting {
            seconds: x,
            micros: z,
        },
        ..s
    }
}

// The offset that brings P to the group start.
fn offset_to(start: i64, pts: i64) -> i64
    requires { (result_time start ≡ true) × (offered_time pts ≡ true) }
    ensures { result ≡ start -ℤ pts }
{
    start - pts
}

// Sequence mode with group start set.
fn begins(h: Head) -> bool
    ensures { result ≡ (is_sequence h.mode && h.group.begun) }
{
    tracks::is_sequence(h.mode) & h.group.begun
}

// Offset = group start - P as offered; group end = group start; need-random-access on for all tracks; group start unset.
fn step_one(h: Head, f: Offered) -> Head
    requires { IsGoodHead h × (is_offerable f ≡ true) }
    ensures { (b : Buffer) → h ≡ head_of b → result ≡ head_of (step_one b f) }
{
    if !begins(h) {
        return h;
    }
    let g = h.group;
    let tracks = tracks::need_all(h.tracks, h.ntracks);
    let settings = with_offset(h.settings, offset_to(g.start, f.pts));
    let group = Group {
        begun: false,
        start: 0,
        end: g.start,
        ..g
    };
    Head {
        tracks,
        group,
        settings,
        ..h
    }
}

// ---- step 2

// A time as offered, with the offset added.
fn plus(z: i64, offset: i64) -> i64
    requires { (offered_time z ≡ true) × (mag offset ≤ 6000000000000) }
    ensures { result ≡ z +ℤ offset }
{
    z + offset
}

fn step_two(h: Head, f: Offered) -> Offered
    requires { (mag h.settings.offset.micros ≤ 6000000000000) × (is_offerable f ≡ true) }
    ensures { (b : Buffer) → h ≡ head_of b → result ≡ step_two b f }
{
    let offset = h.settings.offset.micros;
    Offered {
        pts: plus(f.pts, offset),
        dts: plus(f.dts, offset),
        ..f
    }
}

// ---- refusal 7

// The frame as it is stored, with its number and its group.
pub fn stored_as(n: u32, group: u32, f: Offered) -> Frame
    ensures { result ≡ stored_as n group f }
{
    Frame {
        track: f.track,
        flagged: f.flagged,
        duration: f.duration,
        number: n,
        group,
        pts: f.pts,
        dts: f.dts,
    }
}

// The end of the frame, which its number and its group do not bear on.
pub fn end_offered(f: Offered) -> i64
    requires { result_time f.pts ≡ true }
    ensures { result ≡ end_offered f }
{
    limits::end_of(stored_as(0, 0, f))
}

// Offset, P, D and frame end inside the result limits. P is asked first, so that the end can be added up.
fn fits(h: Head, g: Offered) -> bool
    ensures { (b : Buffer) → h ≡ head_of b → result ≡ fits (record { buffer = b; frame = g }) }
{
    if !limits::result_time(g.pts) {
        return false;
    }
    let times = limits::result_time(h.settings.offset.micros) & limits::result_time(g.dts);
    times & limits::result_time(end_offered(g))
}

// Steps 1 and 2, unless they lead out of the result limits.
fn pass(h: Head, f: Offered) -> Result<Passed, Refusal>
    requires { IsGoodHead h × (is_offerable f ≡ true) }
    ensures { (b : Buffer) → h ≡ head_of b → result ≡ decided (first_decision b f) }
{
    let g = step_one(h, f);
    let k = step_two(g, f);
    if !fits(g, k) {
        return Err(Refusal::ResultLimits);
    }
    Ok(Passed { head: g, frame: k })
}

// ---- step 3

// The last decode time, and twice the last duration after it.
fn latest(t: Track) -> i64
    requires { good_track t ≡ true }
    ensures { result ≡ t.dts +ℤ pos (2 * t.duration) }
{
    let n = 2 * (t.duration as u64);
    t.dts + n as i64
}

// D is below the last decode time, or exceeds it by more than twice the last duration.
fn is_break(t: Track, dts: i64) -> bool
    requires { good_track t ≡ true }
    ensures { result ≡ (t.known && (lt_z dts t.dts || lt_z (t.dts +ℤ pos (2 * t.duration)) dts)) }
{
    if !t.known {
        return false;
    }
    limits::below(dts, t.dts) | limits::below(latest(t), dts)
}

fn breaks(h: Head, g: Offered) -> bool
    requires { IsGoodHead h × HasTrack h g.track }
    ensures { (b : Buffer) → h ≡ head_of b → result ≡ breaks (record { buffer = b; frame = g }) }
{
    is_break(track_of(h, g.track), g.dts)
}

// The frame after step 2, where its first pass is the last and leaves the head as it is: step 1 has nothing to do, no time leaves the limits
// and there is no break, so that no head need be made.
pub fn steady_frame(h: Head, f: Offered) -> Option<Offered>
    requires { IsGoodHead h × (is_offerable f ≡ true) × HasTrack h f.track }
    ensures { (b : Buffer) → h ≡ head_of b → (g : Offered) → result ≡ Some g → IsCalm b f g }
{
    if begins(h) {
        return None;
    }
    let g = step_two(h, f);
    if !fits(h, g) {
        return None;
    }
    if breaks(h, g) {
        return None;
    }
    Some(g)
}

// After a break: the group moved, the three unset and need-random-access on for all tracks. The next group begins with it, but its number
// is given once no refusal is left.
fn moved(h: Head, p: i64) -> Head
    requires { h.ntracks ≤ 4 }
    ensures { (b : Buffer) → h ≡ head_of b → result ≡ head_of (moved b p) }
{
    let tracks = tracks::restart_all(h.tracks, h.ntracks);
    let group = tracks::regroup(h.mode, h.group, p);
    Head { tracks, group, ..h }
}

fn in_next_group(h: Head) -> Head
    requires { h.group.number < last_group }
    ensures { (b : Buffer) → h ≡ head_of b → result ≡ head_of (in_next_group b) }
{
    Head {
        group: tracks::next_group(h.group),
        ..h
    }
}

// After a break at p, the frame as offered begins again at 1, in the next group, if there is one.
fn second_pass(h: Head, f: Offered, p: i64) -> Result<Passed, Refusal>
    requires { IsGoodHead h × (is_offerable f ≡ true) × (result_time p ≡ true) }
    ensures { (b : Buffer) → h ≡ head_of b → result ≡ decided (second_decision b f p) }
{
    let q = pass(moved(h, p), f)?;
    let k = q.head;
    if k.group.number == LAST_GROUP {
        return Err(Refusal::LastNumber);
    }
    Ok(Passed {
        head: in_next_group(k),
        ..q
    })
}

// What steps 1 to 3 come to: the pass that step 4 goes on from, unless refusal 7 of either pass stops the frame, or refusal 9 of a second
// that begins a group after the last one.
pub fn last_pass(h: Head, f: Offered) -> Result<Passed, Refusal>
    requires { IsGoodHead h × (is_offerable f ≡ true) × HasTrack h f.track }
    ensures { (b : Buffer) → h ≡ head_of b → result ≡ decided (decision b f) }
{
    let p = pass(h, f)?;
    if !breaks(p.head, p.frame) {
        return Ok(p);
    }
    second_pass(p.head, f, p.frame.pts)
}

// ---- steps 4 to 6

// Frame end above window end, where there is one.
fn past_window(end: WindowEnd, limit: i64, e: i64) -> bool
    ensures { result ≡ above end limit e }
{
    match end {
        WindowEnd::Unbounded => false,
        WindowEnd::At(x) => limits::below(limit, e),
    }
}

// The cause by which the frame is dropped, 0 where it is stored.
pub fn drop_cause(h: Head, g: Offered) -> u32
    requires { HasTrack h g.track × (result_time g.pts ≡ true) }
    ensures { (b : Buffer) → h ≡ head_of b → result ≡ drop_cause (record { buffer = b; frame = g }) }
{
    let s = h.settings;
    if limits::below(g.pts, s.start.micros) {
        return 1;
    }
    if past_window(s.end, s.limit, end_offered(g)) {
        return 2;
    }
    let t = track_of(h, g.track);
    if t.need & !g.flagged {
        return 3;
    }
    0
}

// The next number is given.
fn numbered(h: Head) -> Head
    requires { h.last < last_number }
    ensures { result ≡ next_head h }
{
    Head {
        last: h.last + 1,
        ..h
    }
}

// Causes 1 and 2 turn need-random-access on for the frame's track.
pub fn dropped_head(h: Head, n: u32, cause: u32) -> Head
    requires { HasTrack h n × (h.last < last_number) }
    ensures { (b : Buffer) → h ≡ head_of b → result ≡ head_of (dropped_outcome (drop_buffer b n cause) cause).after }
{
    let k = numbered(h);
    if cause == 3 {
        return k;
    }
    need_track(k, n, true)
}

// ---- step 9

fn raised(a: i64, b: i64) -> i64
    ensures { result ≡ raised a b }
{
    if limits::below(a, b) {
        return b;
    }
    a
}

// Highest end raised, or set where it is unset.
fn highest(t: Track, e: i64) -> i64
    ensures { result ≡ cond t.known (raised t.end e) e }
{
    if t.known {
        return raised(t.end, e);
    }
    e
}

// The track after the frame.
fn followed(t: Track, f: Offered) -> Track
    requires { result_time f.pts ≡ true }
    ensures { result ≡ followed t f }
{
    Track {
        known: true,
        duration: f.duration,
        dts: f.dts,
        end: highest(t, end_offered(f)),
        ..t
    }
}

fn group_raised(g: Group, e: i64) -> Group
    ensures { result ≡ with_end g (raised g.end e) }
{
    Group {
        end: raised(g.end, e),
        ..g
    }
}

// So many frames stored, and another group.
fn grown(h: Head, nframes: usize, g: Group) -> Head
    ensures { result ≡ grown_head h nframes g }
{
    Head {
        nframes: nframes,
        group: g,
        ..h
    }
}

// The frame is stored beside those left.
pub fn step_nine(h: Head, f: Offered, left: usize) -> Head
    requires { HasTrack h f.track × (result_time f.pts ≡ true) × (h.last < last_number) × (left < places) }
    ensures { (b : Buffer) (l : List Frame) → h ≡ head_of b → left ≡ length l → result ≡ head_of (step_nine (record { buffer = b; frame = f }) l) }
{
    let n = f.track;
    let t = followed(track_of(h, n), f);
    let k = numbered(h);
    let g = k.group;
    let group = group_raised(g, end_offered(f));
    let count = left + 1;
    let m = grown(k, count, group);
    with_track(m, n, t)
}

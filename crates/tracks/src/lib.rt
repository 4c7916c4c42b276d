// The tracks of a buffer, all of them at once or one: what append, remove and abort do to them.
#![tactic(auto)]

ghost use Rattle.std.specs.Prelude.{◌≡◌, cond, true, map, ◌++◌, ◌≤◌, ◌<◌, take, drop};
ghost use Rattle.buffer_state.specs.Buffer.{restarted_track, with_need, is_sequence, start_at_end, with_end, next_group};
ghost use Rattle.buffer_state.specs.Limits.{last_group};

use buffer_state::{Group, Mode, Track};

// Last decode time, last duration and highest end unset, need-random-access on.
pub fn restart(t: Track) -> Track
    ensures { result ≡ restarted_track t }
{
    Track {
        kind: t.kind,
        known: false,
        need: true,
        duration: 0,
        dts: 0,
        end: 0,
    }
}

// Need-random-access on or off.
pub fn with_need(t: Track, on: bool) -> Track
    ensures { result ≡ with_need on t }
{
    Track { need: on, ..t }
}

fn after(t: Track, unset: bool) -> Track
    ensures { result ≡ cond unset (restarted_track t) (with_need true t) }
{
    if unset {
        restart(t)
    } else {
        with_need(t, true)
    }
}

// All n tracks changed.
fn changed_all(mut ts: [Track; 4], n: usize, unset: bool) -> [Track; 4]
    requires { n ≤ 4 }
    ensures { result ≡ map (λ t. cond unset (restarted_track t) (with_need true t)) (take n ts) ++ drop n ts }
{
    for i in 0..n {
        ts[i] = after(ts[i], unset);
    }
    ts
}

// Need-random-access on for all n tracks.
pub fn need_all(ts: [Track; 4], n: usize) -> [Track; 4]
    requires { n ≤ 4 }
    ensures { result ≡ map (with_need true) (take n ts) ++ drop n ts }
{
    changed_all(ts, n, false)
}

// Last decode time, last duration and highest end unset on all n tracks, need-random-access on for all.
pub fn restart_all(ts: [Track; 4], n: usize) -> [Track; 4]
    requires { n ≤ 4 }
    ensures { result ≡ map restarted_track (take n ts) ++ drop n ts }
{
    changed_all(ts, n, true)
}

pub fn is_sequence(m: Mode) -> bool
    ensures { result ≡ is_sequence m }
{
    match m {
        Mode::Segments => false,
        Mode::Sequence => true,
    }
}

// Group start = group end.
pub fn start_at_end(g: Group) -> Group
    ensures { result ≡ start_at_end g }
{
    Group {
        begun: true,
        start: g.end,
        ..g
    }
}

// In segments mode group end = p, in sequence mode group start = group end.
pub fn regroup(m: Mode, g: Group, p: i64) -> Group
    ensures { result ≡ cond (is_sequence m) (start_at_end g) (with_end g p) }
{
    match m {
        Mode::Segments => Group { end: p, ..g },
        Mode::Sequence => start_at_end(g),
    }
}

// The next group begins.
pub fn next_group(g: Group) -> Group
    requires { g.number < last_group }
    ensures { result ≡ next_group g }
{
    Group {
        number: g.number + 1,
        ..g
    }
}

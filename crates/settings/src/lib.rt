// Creation, abort, the setters and reading the settings back. Refusal 1 comes first in each call on a state, and a refused call leaves the
// head as it was. None but creation changes a frame: the others borrow the two arrays to test them.
#![tactic(auto)]

ghost use Rattle.std.specs.List.{list_all};
ghost use Rattle.std.specs.Prelude.{◌≡◌, cond, map, ◌≤◌, length};
ghost use Rattle.settings.specs.Windows.{open_window, with_offset, with_start, with_end, group_from, fresh_head, setting_answer};
ghost use Rattle.buffer_state.specs.Buffer.{is_sequence, start_at_end, fresh_track, zero_track};
ghost use Rattle.buffer_state.specs.Layout.{padded_list};
ghost use Rattle.buffer_state.specs.Limits.{known_kind};
ghost use Rattle.buffer_state.specs.Remove.{before_bound};
ghost use Rattle.buffer_state.specs.Settings.{window_end, create};
ghost use Rattle.buffer_state.specs.Answers.{created, times_created, tags_created, zero_head, set_answer, head_set, abort_result, mode_result, offset_result, window_start_result, window_end_result, settings_result};

use buffer_state::{
    Group, Head, LAST_GROUP, Mode, Reading, Refusal, Setting, Settings, Tags, Times, Track,
    WindowEnd,
};
use seconds::OutOfRange;

// ---- abort and the mode

// In sequence mode group start = group end.
fn group_after(m: Mode, g: Group) -> Group
    ensures { result ≡ cond (is_sequence m) (start_at_end g) g }
{
    match m {
        Mode::Segments => g,
        Mode::Sequence => tracks::start_at_end(g),
    }
}

// The window from 0 on, with this offset.
fn open_window(offset: Setting) -> Settings
    ensures { result ≡ open_window offset }
{
    Settings {
        offset,
        start: Setting {
            seconds: 0.0,
            micros: 0,
        },
        end: WindowEnd::Unbounded,
        limit: 0,
    }
}

// Abort: refusals 1 and 9 in that order.
pub fn abort(h: &mut Head, times: &Times, tags: &Tags) -> Result<(), Refusal>
    ensures answer { result ≡ set_answer (abort_result h.old times.now tags.now) }
    ensures head { h.new ≡ head_set (abort_result h.old times.now tags.now) h.old }
{
    validation::check(h, times, tags)?;
    if h.group.number == LAST_GROUP {
        return Err(Refusal::LastNumber);
    }
    h.tracks = tracks::restart_all(h.tracks, h.ntracks);
    h.group = group_after(h.mode, tracks::next_group(h.group));
    h.settings = open_window(h.settings.offset);
    Ok(())
}

// Setting sequence sets group start = group end; setting segments changes the mode only.
pub fn set_mode(h: &mut Head, times: &Times, tags: &Tags, m: Mode) -> Result<(), Refusal>
    ensures answer { result ≡ set_answer (mode_result m h.old times.now tags.now) }
    ensures head { h.new ≡ head_set (mode_result m h.old times.now tags.now) h.old }
{
    validation::check(h, times, tags)?;
    h.mode = m;
    h.group = group_after(m, h.group);
    Ok(())
}

// ---- the offset and the window

// A double as it is given, beside its microseconds, or refusal 5.
fn given(x: f64) -> Result<Setting, OutOfRange>
    ensures { result ≡ setting_answer x }
{
    let micros = seconds::micros_of(x)?;
    Ok(Setting { seconds: x, micros })
}

// The settings are a struct by value: each of these three hands it back with one setting changed.
fn with_offset(t: Settings, offset: Setting) -> Settings
    ensures { result ≡ with_offset t offset }
{
    Settings { offset, ..t }
}

fn with_start(t: Settings, start: Setting) -> Settings
    ensures { result ≡ with_start t start }
{
    Settings { start, ..t }
}

fn with_end(t: Settings, end: WindowEnd, limit: i64) -> Settings
    ensures { result ≡ with_end t end limit }
{
    Settings { end, limit, ..t }
}

// In sequence mode group start = z.
fn group_from(m: Mode, g: Group, z: i64) -> Group
    ensures { result ≡ group_from m g z }
{
    match m {
        Mode::Segments => g,
        Mode::Sequence => Group {
            begun: true,
            start: z,
            ..g
        },
    }
}

// Set the offset: refusals 1 and 5 in that order.
pub fn set_offset(h: &mut Head, times: &Times, tags: &Tags, x: f64) -> Result<(), Refusal>
    ensures answer { result ≡ set_answer (offset_result x h.old times.now tags.now) }
    ensures head { h.new ≡ head_set (offset_result x h.old times.now tags.now) h.old }
{
    validation::check(h, times, tags)?;
    let offset = given(x)?;
    h.settings = with_offset(h.settings, offset);
    h.group = group_from(h.mode, h.group, offset.micros);
    Ok(())
}

// z comes before the window's end.
fn before_end(z: i64, t: Settings) -> bool
    ensures { result ≡ before_bound z (window_end t) }
{
    match t.end {
        WindowEnd::Unbounded => true,
        WindowEnd::At(_) => z < t.limit,
    }
}

// Set the window start: refusals 1, 5 and 6 in that order.
pub fn set_window_start(h: &mut Head, times: &Times, tags: &Tags, x: f64) -> Result<(), Refusal>
    ensures answer { result ≡ set_answer (window_start_result x h.old times.now tags.now) }
    ensures head { h.new ≡ head_set (window_start_result x h.old times.now tags.now) h.old }
{
    validation::check(h, times, tags)?;
    let start = given(x)?;
    if start.micros < 0 || !before_end(start.micros, h.settings) {
        return Err(Refusal::Order);
    }
    h.settings = with_start(h.settings, start);
    Ok(())
}

// Set the window end: refusals 1, 5 and 6 in that order.
pub fn set_window_end(h: &mut Head, times: &Times, tags: &Tags, x: f64) -> Result<(), Refusal>
    ensures answer { result ≡ set_answer (window_end_result x h.old times.now tags.now) }
    ensures head { h.new ≡ head_set (window_end_result x h.old times.now tags.now) h.old }
{
    validation::check(h, times, tags)?;
    match seconds::end_micros(x)? {
        None => {
            h.settings = with_end(h.settings, WindowEnd::Unbounded, 0);
        }
        Some(limit) => {
            if limit <= h.settings.start.micros {
                return Err(Refusal::Order);
            }
            h.settings = with_end(h.settings, WindowEnd::At(x), limit);
        }
    }
    Ok(())
}

// The three settings in seconds, as they were given.
pub fn read_settings(h: Head, times: &Times, tags: &Tags) -> Result<Reading, Refusal>
    ensures { result ≡ settings_result h times.now tags.now }
{
    validation::check(&h, times, tags)?;
    let t = h.settings;
    let offset = t.offset.seconds;
    let start = t.start.seconds;
    match t.end {
        WindowEnd::Unbounded => Ok(Reading {
            offset,
            start,
            end: WindowEnd::Unbounded,
        }),
        WindowEnd::At(x) => Ok(Reading {
            offset,
            start,
            end: WindowEnd::At(x),
        }),
    }
}

// ---- creation

fn fresh_track(kind: u8) -> Track
    ensures { result ≡ fresh_track kind }
{
    Track {
        kind,
        known: false,
        need: true,
        duration: 0,
        dts: 0,
        end: 0,
    }
}

fn zero_track() -> Track
    ensures { result ≡ zero_track }
{
    Track {
        kind: 0,
        known: false,
        need: false,
        duration: 0,
        dts: 0,
        end: 0,
    }
}

// Video and audio are known.
fn kinds_known(kinds: &[u8]) -> bool
    ensures { result ≡ list_all known_kind kinds.now }
{
    kinds.iter().all(|kind| *kind <= 1)
}

// The tracks of a fresh buffer.
fn fresh_tracks(kinds: &[u8]) -> [Track; 4]
    requires { length kinds.now ≤ 4 }
    ensures { result ≡ padded_list 4 zero_track (map fresh_track kinds.now) }
{
    let mut out = [zero_track(); 4];
    for (i, kind) in kinds.iter().enumerate() {
        out[i] = fresh_track(*kind);
    }
    out
}

// A head without frames, everything unset, in segments mode.
fn fresh_head(tracks: [Track; 4], n: usize) -> Head
    ensures { result ≡ fresh_head tracks n }
{
    Head {
        tracks,
        ntracks: n,
        nframes: 0,
        mode: Mode::Segments,
        group: Group {
            begun: false,
            start: 0,
            end: 0,
            number: 0,
        },
        last: 0,
        settings: open_window(Setting {
            seconds: 0.0,
            micros: 0,
        }),
    }
}

// The head of zeros, which every call refuses: it stands for the head where a creation is refused.
pub fn no_head() -> Head
    ensures { result ≡ zero_head }
{
    fresh_head([zero_track(); 4], 0)
}

// A buffer from a lent list of kinds. It clears the arrays that it is lent; refused, it touches nothing.
pub fn create(kinds: &[u8], times: &mut Times, tags: &mut Tags) -> Result<Head, Refusal>
    ensures answer { result ≡ created (create kinds.now) }
    ensures times { times.new ≡ times_created (create kinds.now) times.old }
    ensures tags { tags.new ≡ tags_created (create kinds.now) tags.old }
{
    if kinds.is_empty() || 4 < kinds.len() || !kinds_known(kinds) {
        return Err(Refusal::Kinds);
    }
    times.fill([0; 2]);
    tags.fill([0; 5]);
    Ok(fresh_head(fresh_tracks(kinds), kinds.len()))
}

// A sample's media times in microseconds, rounded down: its limits, by products alone, and the row that lists it, by division.
#![tactic(auto)]

ghost use Rattle.std.specs.Prelude.{◌≡◌, true, ◌<◌, ◌≤◌, pos, ◌+ℤ◌};
ghost use Rattle.std.specs.Int.Signed.{mag};
ghost use Rattle.buffer_state.specs.Limits.{is_within, offered_time};
ghost use Rattle.buffer_state.specs.WellFormed.{all_of};
ghost use Rattle.media_times.specs.MediaTimes.{micros_of, duration_of, good_scale, in_limits, row_of, evenly};

// A sample as the file has it: in units of the timescale.
#[derive(Clone, Copy)]
pub struct Sample {
    pub time: u64, // media decode time
    pub offset: i64, // composition offset
    pub duration: u32,
    pub size: u32,
    pub flags: u32,
}

// ---- limits

// The latest time that a frame may have, in microseconds. No unit is shorter than one, so no later media time is inside the limits:
// it is refused before it is added to or multiplied.
const LATEST: u64 = 1_000_000_000_000;

// The timescale stays a number with a clause, and is no type of its own: `in_limits`, `evenly_in_limits` and `row_of` take it as the file has
// it, and only `lasts` and `offered` besides ask the same of it.
#[tactic(auto, unfolding(crate::specs::MediaTimes::good_scale))]
pub fn good_scale(n: u32) -> bool
    ensures { result ≡ good_scale n }
{
    1 <= n && n <= 1_000_000
}

// Whether the frame lasts 1 to 10,000,000 microseconds, wherever it stands: as a unit is a microsecond at least, one unit is long
// enough, and one more than ten seconds is too long.
fn lasts(scale: u32, s: Sample) -> bool
    requires { good_scale scale ≡ true }
    ensures { result ≡ is_within (pos 1) (pos 10000000) (duration_of scale s) }
{
    1 <= s.duration && s.duration <= 10 * scale
}

// Whether a media time is inside the limits once it is converted.
fn offered(t: i64, scale: u32) -> bool
    requires { (good_scale scale ≡ true) × (mag t < 4000000000000) }
    ensures { result ≡ offered_time (micros_of t scale) }
{
    let d = i64::from(scale);
    -1_000_000 * d <= t && t * 1_000_000 < 1_000_000_000_001 * d
}

// The media time at which a sample is presented.
fn presented(s: Sample) -> i64
    requires { (s.time ≤ 1000000000000) × (mag s.offset < 4294967296) }
    ensures { result ≡ pos s.time +ℤ s.offset }
{
    s.time as i64 + s.offset
}

pub fn in_limits(scale: u32, s: Sample) -> bool
    requires { (good_scale scale ≡ true) × (mag s.offset < 4294967296) }
    ensures { result ≡ in_limits scale s }
{
    if s.time > LATEST {
        return false;
    }
    offered(presented(s), scale) && offered(s.time as i64, scale) && lasts(scale, s)
}

// Decided by its ends, and never walked: all last as long as the first, and none is later than the last.
pub fn evenly_in_limits(scale: u32, n: u32, s: Sample) -> bool
    requires { (good_scale scale ≡ true) × (s.offset ≡ pos 0) }
    ensures { result ≡ all_of (in_limits scale) (evenly n s) }
{
    if n == 0 {
        return true;
    }
    if s.time > LATEST {
        return false;
    }
    let before = u64::from(n - 1) * u64::from(s.duration);
    if before > LATEST {
        return false;
    }
    lasts(scale, s) && offered((s.time + before) as i64, scale)
}

// ---- a row

// In microseconds, rounded down, also below zero.
#[tactic(auto, unfolding(crate::specs::MediaTimes::micros_of))]
fn micros(t: i64, scale: u32) -> i64
    requires { (0 < scale) × (mag t < 4000000000000) }
    ensures { result ≡ micros_of t scale }
{
    (t * 1_000_000).div_euclid(i64::from(scale))
}

// The frame as a row of the lists that programs in C lend, which are rows of numbers.
pub fn row_of(track: u32, scale: u32, s: Sample) -> [i64; 6]
    requires { (good_scale scale ≡ true) × ((mag s.offset < 4294967296) × (s.time ≤ 1000000000000)) }
    ensures { result ≡ row_of track scale s }
{
    let t = presented(s);
    let pts = micros(t, scale);
    let dts = micros(s.time as i64, scale);
    let end = micros(t + i64::from(s.duration), scale);
    [
        i64::from(track),
        pts,
        dts,
        end - pts,
        i64::from(s.flags / 65536 % 2 == 0),
        i64::from(s.size),
    ]
}

// Tests of single values: integers, the limits of document 01's "Times and numbers", a frame's end, and a track's number.
#![tactic(auto)]

ghost use Rattle.std.specs.Prelude.{◌≡◌, true, ◌&&◌, leb};
ghost use Rattle.std.specs.Int.Signed.{le_z, lt_z};
ghost use Rattle.seconds.specs.Seconds.{same_int};
ghost use Rattle.buffer_state.specs.Buffer.{end_of};
ghost use Rattle.buffer_state.specs.Limits.{result_time, good_duration};

use buffer_state::Frame;

// ---- integers

pub fn at_most(a: i64, b: i64) -> bool
    ensures { result ≡ le_z a b }
{
    a <= b
}

pub fn below(a: i64, b: i64) -> bool
    ensures { result ≡ lt_z a b }
{
    a < b
}

pub fn same_int(a: i64, b: i64) -> bool
    ensures { result ≡ same_int a b }
{
    at_most(a, b) & at_most(b, a)
}

// ---- limits

// A time inside the result limits.
pub fn result_time(z: i64) -> bool
    ensures { result ≡ result_time z }
{
    at_most(-4000000000000, z) & at_most(z, 4000000000000)
}

pub fn good_duration(n: u32) -> bool
    ensures { result ≡ good_duration n }
{
    (1 <= n) & (n <= 10000000)
}

// ---- a frame

// A frame's end. Its presentation time has been tested, so the sum fits.
pub fn end_of(f: Frame) -> i64
    requires { result_time f.pts ≡ true }
    ensures { result ≡ end_of f }
{
    let p = f.pts;
    let d = f.duration as i64;
    p + d
}

// ---- tracks

// Whether a track number is one of so many tracks.
pub fn has_track(track: u32, tracks: usize) -> bool
    ensures { result ≡ (leb 1 track && leb track tracks) }
{
    (1 <= track) & (track as usize <= tracks)
}

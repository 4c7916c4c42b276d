// A time in seconds, an f64, and the same time in whole microseconds, an i64. The rule is in specs/Seconds.antt.
#![tactic(auto)]

ghost use Rattle.std.specs.Prelude.{◌≡◌, not, ◌*◌, ◌^◌, ◌≤◌, ◌<◌, nat_abs};
ghost use Rattle.std.specs.Float.{binary64};
ghost use Rattle.std.specs.Float.Ieee.{nan_bits};
ghost use Rattle.seconds.specs.Seconds.{tie_of, nearest_of, signed, is_convertible, micros_answer, end_answer, seconds_of, same_double};

use std::cmp::Ordering;
use std::num::{f64_from_bits_with_nan, f64_to_bits_with_nan};

const SIGN: u64 = 0x8000_0000_0000_0000; // 2^63, the sign's bit

const HIDDEN: u64 = 0x10_0000_0000_0000; // 2^52, the leading digit, which is not written

/// Why a double is no time in seconds: it is a NaN, or too far from zero.
#[derive(Clone, Copy, Debug, PartialEq, Eq)]
pub struct OutOfRange;

// The tie rule: a magnitude half way between whole and whole + 1 goes towards plus infinity, which is down below zero.
fn tie(negative: bool, whole: u64) -> u64
    requires { whole < 2 ^ 63 }
    ensures { result ≡ tie_of negative whole }
{
    if negative { whole } else { whole + 1 }
}

// The whole number nearest to m * 15625 / 2^j. The product has up to 67 bits.
fn nearest(negative: bool, m: u64, j: u64) -> u64
    requires { (m < 2 ^ 53) × (27 ≤ j) × (j < 68) }
    ensures { result ≡ nearest_of negative (m * 15625) (2 ^ j) }
{
    let product = m as u128 * 15625;
    let unit = 1u128 << j;
    let whole = (product / unit) as u64;
    let rest = product % unit;
    match (rest * 2).cmp(&unit) {
        Ordering::Less => whole,
        Ordering::Equal => tie(negative, whole),
        Ordering::Greater => whole + 1,
    }
}

// A magnitude with its sign.
fn with_sign(negative: bool, n: u64) -> i64
    requires { n < 2 ^ 63 }
    ensures { result ≡ signed negative n }
{
    let z = n as i64;
    if negative { -z } else { z }
}

// A finite double from -1,000,000 to 1,000,000, both included. A NaN fails both tests.
fn in_range(x: f64) -> bool
    ensures { result ≡ is_convertible x }
{
    -1000000.0 <= x && x <= 1000000.0
}

/// The microsecond nearest to x seconds.
// A normal double is (HIDDEN + digits) * 2^(exponent - 1075), and 1000000 is 15625 * 2^6, so it is
// (HIDDEN + digits) * 15625 / 2^(1069 - exponent) microseconds. Below 2^-21 seconds that rounds to none.
pub fn micros_of(x: f64) -> Result<i64, OutOfRange>
    ensures { result ≡ micros_answer x }
{
    if !in_range(x) {
        return Err(OutOfRange);
    }
    let bits = x.to_bits();
    let exponent = bits % SIGN / HIDDEN;
    let digits = bits % HIDDEN;
    let negative = SIGN <= bits;
    if exponent < 1002 {
        return Ok(0);
    }
    let n = nearest(negative, HIDDEN + digits, 1069 - exponent);
    Ok(with_sign(negative, n))
}

/// The end of a window or of a removal: `None` is unbounded, plus infinity.
pub fn end_micros(x: f64) -> Result<Option<i64>, OutOfRange>
    ensures { result ≡ end_answer x }
{
    if x == f64::INFINITY {
        return Ok(None);
    }
    Ok(Some(micros_of(x)?))
}

/// n microseconds as seconds: exact as a double, then divided once.
pub fn seconds_of(n: i64) -> f64
    requires { nat_abs n ≤ 2 ^ 53 }
    ensures { result ≡ seconds_of n }
{
    (n as f64) / 1000000.0
}

/// The same double bit for bit: 0.0 and -0.0 differ, and a NaN is the same as a NaN.
pub fn same_double(a: f64, b: f64) -> bool
    ensures { result ≡ same_double a b }
{
    f64_to_bits_with_nan(a) == f64_to_bits_with_nan(b)
}

/// The bits are not those of a NaN.
pub fn is_number(bits: u64) -> bool
    ensures { result ≡ not (nan_bits binary64 bits) }
{
    !f64_from_bits_with_nan(bits).is_nan()
}

// Numbers and doubles read from a word. specs/Reading.antt says what a word stands for.
ghost use Rattle.std.specs.Prelude.{◌≡◌, ◌≤◌, ◌<◌, ◌==◌, length};
ghost use Rattle.std.specs.List.{position};
ghost use Rattle.text.specs.Reading.{digit_of, longer_by, digits_from, natural_of, positive_of, negative_of, whole_of, power_of, quotient_of, fraction_of, index_of, decimal_of};

use std::num::f64_from_bits_with_nan;

const PAST: u64 = 1 << 60; // from which another digit may leave 64 bits

const EXACT: u64 = 999_999_999_999_999; // fifteen digits, which a double holds exactly

// 10^0 to 10^22: the powers of ten that are exact as doubles
const POWERS: [f64; 23] = [
    1.0,
    10.0,
    100.0,
    1000.0,
    10000.0,
    100000.0,
    1000000.0,
    10000000.0,
    100000000.0,
    1000000000.0,
    10000000000.0,
    100000000000.0,
    1000000000000.0,
    10000000000000.0,
    100000000000000.0,
    1000000000000000.0,
    10000000000000000.0,
    100000000000000000.0,
    1000000000000000000.0,
    10000000000000000000.0,
    100000000000000000000.0,
    1000000000000000000000.0,
    10000000000000000000000.0,
];

// Why a word is no number of a type: it is past the type's last, below its first, or no whole number at all.
#[derive(Clone, Copy, Debug, PartialEq, Eq)]
pub enum NoNumber {
    Above,
    Below,
    NotWhole,
}

// ---- whole numbers

// What a digit is worth, in either case.
fn digit(b: u8) -> Option<u64>
    ensures { result ≡ digit_of b }
{
    match b {
        b'0'..=b'9' => Some(u64::from(b - b'0')),
        b'A'..=b'F' => Some(u64::from(b - b'A') + 10),
        b'a'..=b'f' => Some(u64::from(b - b'a') + 10),
        _ => None,
    }
}

// One digit more. What may leave 64 bits stays at the largest number.
fn longer(n: u64, base: u64, d: u64) -> u64
    requires { (base ≤ 16) × (d < base) }
    ensures { result ≡ longer_by base n d }
{
    if n < PAST { n * base + d } else { u64::MAX }
}

// The digits of w written after the number n.
pub fn digits(n: u64, w: &[u8], base: u64) -> Option<u64>
    requires { base ≤ 16 }
    ensures { result ≡ digits_from base n w.now }
{
    let mut m = n;
    for b in w {
        let d = digit(*b)?;
        if base <= d {
            return None;
        }
        m = longer(m, base, d);
    }
    Some(m)
}

// One decimal digit or more.
fn as_natural(w: &[u8]) -> Option<u64>
    ensures { result ≡ natural_of w.now }
{
    if w.is_empty() {
        return None;
    }
    digits(0, w, 10)
}

// n with no sign before it.
fn positive(n: u64) -> Result<i64, NoNumber>
    ensures { result ≡ positive_of n }
{
    i64::try_from(n).map_err(|_| NoNumber::Above)
}

// n with a minus before it.
fn negative(n: u64) -> Result<i64, NoNumber>
    ensures { result ≡ negative_of n }
{
    0i64.checked_sub_unsigned(n).ok_or(NoNumber::Below)
}

// An optional minus, then digits.
pub fn as_whole(w: &[u8]) -> Result<i64, NoNumber>
    ensures { result ≡ whole_of w.now }
{
    match w {
        [b'-', rest @ ..] => negative(as_natural(rest).ok_or(NoNumber::NotWhole)?),
        _ => positive(as_natural(w).ok_or(NoNumber::NotWhole)?),
    }
}

// The same number in 32 bits without a sign.
pub fn small_of(z: i64) -> Result<u32, NoNumber> {
    if z < 0 {
        return Err(NoNumber::Below);
    }
    u32::try_from(z).map_err(|_| NoNumber::Above)
}

// A number of 32 bits, read as a whole one.
pub fn as_small(w: &[u8]) -> Result<u32, NoNumber> {
    small_of(as_whole(w)?)
}

// ---- places

fn first(w: &[u8], b: u8) -> Option<usize>
    ensures { result ≡ position (λ x. x == b) w.now }
{
    w.iter().position(|x| *x == b)
}

// The place of the first byte b, the length where there is none.
pub fn find(w: &[u8], b: u8) -> usize
    ensures bound { result ≤ length w.now }
    ensures value { result ≡ index_of b w.now }
{
    first(w, b).unwrap_or(w.len())
}

// ---- doubles

fn power(k: usize) -> f64
    requires { k < 23 }
    ensures { result ≡ power_of k }
{
    POWERS[k]
}

// n / 10^places, both exact as doubles, divided once. A longer decimal is not read.
fn quotient(n: u64, places: usize) -> Option<f64>
    ensures { result ≡ quotient_of n places }
{
    if EXACT < n || POWERS.len() <= places {
        return None;
    }
    Some(n as f64 / power(places))
}

// The number n, the point, and the digits after it.
fn fraction(n: u64, after: &[u8]) -> Option<f64>
    ensures { result ≡ fraction_of n after.now }
{
    if after.is_empty() {
        return None;
    }
    quotient(digits(n, after, 10)?, after.len())
}

// A decimal without a sign: digits, and where there is a point, digits after it.
fn decimal(w: &[u8]) -> Option<f64>
    ensures { result ≡ decimal_of w.now }
{
    let dot = find(w, b'.');
    let whole = as_natural(&w[..dot])?;
    match &w[dot..] {
        [] => quotient(whole, 0),
        [_, after @ ..] => fraction(whole, after),
    }
}

// 16 hexadecimal digits.
fn pattern(w: &[u8]) -> Option<f64> {
    if w.len() != 16 {
        return None;
    }
    Some(f64_from_bits_with_nan(digits(0, w, 16)?))
}

// A time in seconds, as the protocol writes it.
pub fn as_double(w: &[u8]) -> Option<f64> {
    match w {
        b"inf" => Some(f64::INFINITY),
        b"-inf" => Some(f64::NEG_INFINITY),
        b"nan" => Some(f64::NAN),
        [b'-', rest @ ..] => decimal(rest).map(|x| -x),
        [b'0', b'x', rest @ ..] => pattern(rest),
        _ => decimal(w),
    }
}

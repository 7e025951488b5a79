//! How far a text is plain: bytes below 80 hex, and units of two bytes that are no surrogates.

ghost use Rattle.std.specs.Prelude.{◌≡◌, ◌+◌, ◌*◌, ◌≤◌, length, drop, IsTrue};
ghost use Rattle.std.specs.List.{AllByRecursion};
ghost use Rattle.ascii_lanes.specs.Runs.{ascii_run, plain_units, numbers, number_of, high_bytes, is_plain_unit};

use crate::is_plain;
use std::simd::prelude::*;

/// How many bytes come before the first one of 80 hex or above.
pub fn ascii_run(bytes: &[u8]) -> usize
    ensures { result ≡ ascii_run bytes.now }
{
    let mut at = 0;
    while 16 <= bytes.len() - at && is_plain(u8x16::from_slice(&bytes[at..])) {
        at += 16;
    }
    go_on(bytes, at)
}

/// The same, where it is known from a place on.
#[inline(always)]
fn go_on(bytes: &[u8], from: usize) -> usize
    requires within { from ≤ length bytes.now }
    requires rest { ascii_run bytes.now ≡ from + ascii_run (drop from bytes.now) }
    ensures { result ≡ ascii_run bytes.now }
{
    let mut at = from;
    while at < bytes.len() && bytes[at] < 0x80 {
        at += 1;
    }
    at
}

/// How many bytes the units of two bytes have that come before the first surrogate, high bytes first
/// where `big` says so. A single last byte is no unit.
pub fn plain_units(bytes: &[u8], big: bool) -> usize
    ensures { result ≡ plain_units big bytes.now }
{
    let mut at = 0;
    while 16 <= bytes.len() - at && are_plain(u8x16::from_slice(&bytes[at..]), big) {
        at += 16;
    }
    go_on_units(bytes, big, at)
}

/// The same, where it is known from a place on.
#[inline(always)]
fn go_on_units(bytes: &[u8], big: bool, from: usize) -> usize
    requires within { from ≤ length bytes.now }
    requires rest { plain_units big bytes.now ≡ from + plain_units big (drop from bytes.now) }
    ensures { result ≡ plain_units big bytes.now }
{
    let mut at = from;
    while 2 <= bytes.len() - at {
        if !is_plain_unit(bytes[at], bytes[at + 1], big) {
            return at;
        }
        at += 2;
    }
    at
}

/// Whether two bytes are a unit that is no surrogate.
#[inline(always)]
fn is_plain_unit(first: u8, second: u8, big: bool) -> bool
    ensures { result ≡ is_plain_unit (number_of big first second) }
{
    let high = if big { first } else { second };
    high < 0xD8 || 0xE0 <= high
}

/// The high bytes of eight units.
#[inline(always)]
fn high_bytes(bytes: u8x16, big: bool) -> u8x8
    ensures { result ≡ high_bytes big bytes }
{
    if big {
        return bytes.shuffle(bytes, [0, 2, 4, 6, 8, 10, 12, 14]);
    }
    bytes.shuffle(bytes, [1, 3, 5, 7, 9, 11, 13, 15])
}

/// Whether no byte is the high one of a surrogate.
#[inline(always)]
fn no_surrogate(high: u8x8) -> bool
    ensures { IsTrue result → AllByRecursion (λ h. IsTrue (is_plain_unit (256 * h))) high }
{
    (high - u8x8::splat(0xD8))
        .simd_lt(u8x8::splat(8))
        .to_bitmask()
        == 0
}

/// Whether each of eight units is no surrogate.
#[inline(always)]
fn are_plain(bytes: u8x16, big: bool) -> bool
    ensures { IsTrue result → AllByRecursion (λ n. IsTrue (is_plain_unit n)) (numbers big bytes) }
{
    no_surrogate(high_bytes(bytes, big))
}

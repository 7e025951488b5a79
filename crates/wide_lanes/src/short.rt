//! Eight points below 800 hex written in UTF-8: the bytes that count of four at a time are brought together
//! by a row of a table and stored as eight bytes, and what stood behind the last is put back.

ghost use Rattle.std.specs.Prelude.{◌≡◌, ◌+◌, ◌<◌, ◌≤◌, ◌++◌, count_ones, nat_le, length, take, drop, map, IsTrue};
ghost use Rattle.std.specs.List.{AllByRecursion, flat_map};
ghost use Rattle.std.specs.Simd.Lanes.{mask_l};
ghost use Rattle.step_unicode.specs.Utf8.{utf8};
ghost use Rattle.wide_lanes.specs.Wide.{low_first};
ghost use Rattle.wide_lanes.specs.Words.{front_short};
ghost use Rattle.wide_lanes.specs.Ends.{by_bits, both_or_first};

use crate::stores::{eight_at, put_eight};
use crate::units::bytes_of;
use crate::words::short_fronts;
use std::simd::prelude::*;

/// Of each four bits the bytes of four pairs: the first of each, the second where the bit is set, and 0
/// behind them.
static ROWS: [[u8; 16]; 16] = [
    [
        0, 2, 4, 6, 128, 128, 128, 128, 128, 128, 128, 128, 128, 128, 128, 128,
    ],
    [
        0, 1, 2, 4, 6, 128, 128, 128, 128, 128, 128, 128, 128, 128, 128, 128,
    ],
    [
        0, 2, 3, 4, 6, 128, 128, 128, 128, 128, 128, 128, 128, 128, 128, 128,
    ],
    [
        0, 1, 2, 3, 4, 6, 128, 128, 128, 128, 128, 128, 128, 128, 128, 128,
    ],
    [
        0, 2, 4, 5, 6, 128, 128, 128, 128, 128, 128, 128, 128, 128, 128, 128,
    ],
    [
        0, 1, 2, 4, 5, 6, 128, 128, 128, 128, 128, 128, 128, 128, 128, 128,
    ],
    [
        0, 2, 3, 4, 5, 6, 128, 128, 128, 128, 128, 128, 128, 128, 128, 128,
    ],
    [
        0, 1, 2, 3, 4, 5, 6, 128, 128, 128, 128, 128, 128, 128, 128, 128,
    ],
    [
        0, 2, 4, 6, 7, 128, 128, 128, 128, 128, 128, 128, 128, 128, 128, 128,
    ],
    [
        0, 1, 2, 4, 6, 7, 128, 128, 128, 128, 128, 128, 128, 128, 128, 128,
    ],
    [
        0, 2, 3, 4, 6, 7, 128, 128, 128, 128, 128, 128, 128, 128, 128, 128,
    ],
    [
        0, 1, 2, 3, 4, 6, 7, 128, 128, 128, 128, 128, 128, 128, 128, 128,
    ],
    [
        0, 2, 4, 5, 6, 7, 128, 128, 128, 128, 128, 128, 128, 128, 128, 128,
    ],
    [
        0, 1, 2, 4, 5, 6, 7, 128, 128, 128, 128, 128, 128, 128, 128, 128,
    ],
    [
        0, 2, 3, 4, 5, 6, 7, 128, 128, 128, 128, 128, 128, 128, 128, 128,
    ],
    [
        0, 1, 2, 3, 4, 5, 6, 7, 128, 128, 128, 128, 128, 128, 128, 128,
    ],
];

/// Eight bytes that begin with those that count of the first four pairs.
#[inline(always)]
fn packed(bytes: u8x16, mask: usize) -> u8x8
    requires { mask < 16 }
    ensures value { take (4 + count_ones mask) result ≡ by_bits both_or_first mask (take 8 bytes) }
    ensures long { length result ≡ 8 }
{
    let all = bytes.swizzle_dyn(u8x16::from_array(ROWS[mask]));
    all.shuffle(all, [0, 1, 2, 3, 4, 5, 6, 7])
}

/// The last eight bytes in front.
#[inline(always)]
fn last_eight(bytes: u8x16) -> u8x16
    ensures { take 8 result ≡ take 8 (drop 8 bytes) }
{
    bytes.shuffle(
        bytes,
        [8, 9, 10, 11, 12, 13, 14, 15, 0, 1, 2, 3, 4, 5, 6, 7],
    )
}

/// Whether each point is below 800 hex.
#[inline(always)]
pub fn are_short(points: u16x8) -> bool
    ensures { IsTrue result → AllByRecursion (λ p. p < 0x800) points }
{
    points.simd_ge(u16x8::splat(0x800)).to_bitmask() == 0
}

/// A bit for each point that isn't below 80 hex.
#[inline(always)]
fn twos_at(points: u16x8) -> u64
    ensures { result ≡ mask_l (map (λ p. nat_le 0x80 p) points) }
{
    points.simd_ge(u16x8::splat(0x80)).to_bitmask()
}

/// How many bytes four points have.
#[inline(always)]
fn size(mask: usize) -> usize
    requires { mask < 16 }
    ensures value { result ≡ 4 + count_ones mask }
    ensures few { result ≤ 8 }
{
    4 + mask.count_ones() as usize
}

/// Writes the points behind the first `at` bytes, and says how many bytes they are.
#[inline(always)]
pub fn put_short(points: u16x8, output: &mut [u8], at: usize) -> usize
    requires short { AllByRecursion (λ p. p < 0x800) points }
    requires room { at + 24 ≤ length output.old }
    ensures within { at + result ≤ length output.new }
    ensures front { take (at + result) output.new ≡ take at output.old ++ flat_map utf8 points }
    ensures rest { drop (at + result) output.new ≡ drop (at + result) output.old }
{
    let bytes = bytes_of(short_fronts(points));
    let mask = twos_at(points);
    let low = (mask % 16) as usize;
    let high = (mask / 16 % 16) as usize;
    let first = size(low);
    let made = first + size(high);
    let kept = eight_at(output, at + made);
    put_eight(packed(bytes, low), output, at);
    put_eight(packed(last_eight(bytes), high), output, at + first);
    put_eight(kept, output, at + made);
    made
}

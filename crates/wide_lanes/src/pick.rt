//! The numbers that are kept of sixteen, written as two bytes each: eight at a time are brought together by
//! a row of a table and stored as sixteen bytes, and what stood behind the last is put back.

ghost use Rattle.std.specs.Prelude.{◌≡◌, ◌+◌, ◌*◌, ◌<◌, ◌≤◌, ◌++◌, count_ones, length, take, drop};
ghost use Rattle.wide_lanes.specs.Wide.{low_first, high_first, swapped};
ghost use Rattle.wide_lanes.specs.Ends.{picked, picked_pairs};

use crate::ends::Ends;
use crate::rows::ROWS;
use crate::stores::{put_sixteen, sixteen_at};
use crate::words::bytes_of;
use std::simd::prelude::*;

/// Sixteen bytes that begin with the pairs that are kept.
#[inline(always)]
fn packed(bytes: u8x16, mask: usize) -> u8x16
    requires { mask < 256 }
    ensures value { take (2 * count_ones mask) result ≡ picked_pairs mask bytes }
    ensures long { length result ≡ 16 }
{
    bytes.swizzle_dyn(u8x16::from_array(ROWS[mask]))
}

/// The first sixteen bytes.
#[inline(always)]
fn front(bytes: u8x32) -> u8x16
    ensures { result ≡ take 16 bytes }
{
    bytes.shuffle(
        bytes,
        [0, 1, 2, 3, 4, 5, 6, 7, 8, 9, 10, 11, 12, 13, 14, 15],
    )
}

/// The last sixteen bytes.
#[inline(always)]
fn back(bytes: u8x32) -> u8x16
    ensures { result ≡ drop 16 bytes }
{
    bytes.shuffle(
        bytes,
        [
            16, 17, 18, 19, 20, 21, 22, 23, 24, 25, 26, 27, 28, 29, 30, 31,
        ],
    )
}

/// How many bytes the pairs have that are kept of eight.
#[inline(always)]
fn size(mask: usize) -> usize
    requires { mask < 256 }
    ensures value { result ≡ 2 * count_ones mask }
    ensures few { result ≤ 16 }
{
    2 * mask.count_ones() as usize
}

/// Writes the pairs that are kept behind the first `at` bytes, and says how many bytes they are.
#[inline(always)]
fn put_pairs(bytes: u8x32, mask: u64, output: &mut [u8], at: usize) -> usize
    requires room { at + 48 ≤ length output.old }
    ensures within { at + result ≤ length output.new }
    ensures front { take (at + result) output.new ≡ take at output.old ++ picked_pairs mask bytes }
    ensures rest { drop (at + result) output.new ≡ drop (at + result) output.old }
{
    let low = (mask % 256) as usize;
    let high = (mask / 256 % 256) as usize;
    let first = size(low);
    let made = first + size(high);
    let kept = sixteen_at(output, at + made);
    put_sixteen(packed(front(bytes), low), output, at);
    put_sixteen(packed(back(bytes), high), output, at + first);
    put_sixteen(kept, output, at + made);
    made
}

/// Each pair of bytes the other way round.
#[inline(always)]
fn swap(bytes: u8x32) -> u8x32
    ensures { result ≡ swapped bytes }
{
    bytes.shuffle(
        bytes,
        [
            1, 0, 3, 2, 5, 4, 7, 6, 9, 8, 11, 10, 13, 12, 15, 14, 17, 16, 19, 18, 21, 20, 23, 22,
            25, 24, 27, 26, 29, 28, 31, 30,
        ],
    )
}

/// Writes the points behind the first `at` bytes, two bytes each, low ones first.
#[inline(always)]
pub fn put_ends_low_first(ends: Ends, output: &mut [u8], at: usize) -> usize
    requires { at + 48 ≤ length output.old }
    ensures within { at + result ≤ length output.new }
    ensures front { take (at + result) output.new
        ≡ take at output.old ++ low_first (picked ends.mask ends.numbers) }
    ensures rest { drop (at + result) output.new ≡ drop (at + result) output.old }
{
    put_pairs(bytes_of(ends.numbers), ends.mask, output, at)
}

/// Writes the points behind the first `at` bytes, two bytes each, high ones first.
#[inline(always)]
pub fn put_ends_high_first(ends: Ends, output: &mut [u8], at: usize) -> usize
    requires { at + 48 ≤ length output.old }
    ensures within { at + result ≤ length output.new }
    ensures front { take (at + result) output.new
        ≡ take at output.old ++ high_first (picked ends.mask ends.numbers) }
    ensures rest { drop (at + result) output.new ≡ drop (at + result) output.old }
{
    put_pairs(swap(bytes_of(ends.numbers)), ends.mask, output, at)
}

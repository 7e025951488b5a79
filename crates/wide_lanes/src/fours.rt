//! The numbers that are kept of sixteen, written as four bytes each, highest ones first: four at a time are
//! brought together by a row of a table and stored as sixteen bytes, and what stood behind the last is put
//! back.

ghost use Rattle.std.specs.Prelude.{◌≡◌, ◌+◌, ◌*◌, ◌%◌, ◌<◌, ◌≤◌, ◌++◌, count_ones, length, take, drop};
ghost use Rattle.wide_lanes.specs.Wide.{in_fours};
ghost use Rattle.wide_lanes.specs.Ends.{picked, by_bits, four_or_none};

use crate::ends::Ends;
use crate::stores::{put_sixteen, sixteen_at};
use crate::words::bytes_of;
use std::simd::prelude::*;

/// Of each four bits the pairs of bytes at those that are set, the other way round and two 0 before each.
static ROWS: [[u8; 16]; 16] = [
    [
        128, 128, 128, 128, 128, 128, 128, 128, 128, 128, 128, 128, 128, 128, 128, 128,
    ],
    [
        128, 128, 1, 0, 128, 128, 128, 128, 128, 128, 128, 128, 128, 128, 128, 128,
    ],
    [
        128, 128, 3, 2, 128, 128, 128, 128, 128, 128, 128, 128, 128, 128, 128, 128,
    ],
    [
        128, 128, 1, 0, 128, 128, 3, 2, 128, 128, 128, 128, 128, 128, 128, 128,
    ],
    [
        128, 128, 5, 4, 128, 128, 128, 128, 128, 128, 128, 128, 128, 128, 128, 128,
    ],
    [
        128, 128, 1, 0, 128, 128, 5, 4, 128, 128, 128, 128, 128, 128, 128, 128,
    ],
    [
        128, 128, 3, 2, 128, 128, 5, 4, 128, 128, 128, 128, 128, 128, 128, 128,
    ],
    [
        128, 128, 1, 0, 128, 128, 3, 2, 128, 128, 5, 4, 128, 128, 128, 128,
    ],
    [
        128, 128, 7, 6, 128, 128, 128, 128, 128, 128, 128, 128, 128, 128, 128, 128,
    ],
    [
        128, 128, 1, 0, 128, 128, 7, 6, 128, 128, 128, 128, 128, 128, 128, 128,
    ],
    [
        128, 128, 3, 2, 128, 128, 7, 6, 128, 128, 128, 128, 128, 128, 128, 128,
    ],
    [
        128, 128, 1, 0, 128, 128, 3, 2, 128, 128, 7, 6, 128, 128, 128, 128,
    ],
    [
        128, 128, 5, 4, 128, 128, 7, 6, 128, 128, 128, 128, 128, 128, 128, 128,
    ],
    [
        128, 128, 1, 0, 128, 128, 5, 4, 128, 128, 7, 6, 128, 128, 128, 128,
    ],
    [
        128, 128, 3, 2, 128, 128, 5, 4, 128, 128, 7, 6, 128, 128, 128, 128,
    ],
    [
        128, 128, 1, 0, 128, 128, 3, 2, 128, 128, 5, 4, 128, 128, 7, 6,
    ],
];

/// Sixteen bytes that begin with the first four that are kept.
#[inline(always)]
fn packed(bytes: u8x16, mask: usize) -> u8x16
    requires { mask < 16 }
    ensures value { take (4 * count_ones mask) result ≡ by_bits four_or_none mask (take 8 bytes) }
    ensures long { length result ≡ 16 }
{
    bytes.swizzle_dyn(u8x16::from_array(ROWS[mask]))
}

/// Eight of the bytes in front, and others behind them.
#[inline(always)]
fn four_pairs(bytes: u8x32, i: usize) -> u8x16
    requires { i < 4 }
    ensures { take 8 result ≡ take 8 (drop (8 * i) bytes) }
{
    if i == 0 {
        return bytes.shuffle(bytes, [0, 1, 2, 3, 4, 5, 6, 7, 0, 1, 2, 3, 4, 5, 6, 7]);
    }
    if i == 1 {
        return bytes.shuffle(
            bytes,
            [8, 9, 10, 11, 12, 13, 14, 15, 0, 1, 2, 3, 4, 5, 6, 7],
        );
    }
    if i == 2 {
        return bytes.shuffle(
            bytes,
            [16, 17, 18, 19, 20, 21, 22, 23, 0, 1, 2, 3, 4, 5, 6, 7],
        );
    }
    bytes.shuffle(
        bytes,
        [24, 25, 26, 27, 28, 29, 30, 31, 0, 1, 2, 3, 4, 5, 6, 7],
    )
}

/// How many bytes the first four that are kept have.
#[inline(always)]
fn size(mask: u64) -> usize
    ensures value { result ≡ 4 * count_ones (mask % 16) }
    ensures few { result ≤ 16 }
{
    4 * ((mask % 16).count_ones() as usize)
}

/// How many bytes those that are kept have.
#[inline(always)]
fn total(bytes: u8x32, mask: u64) -> usize
    ensures value { result ≡ length (by_bits four_or_none mask bytes) }
    ensures few { result ≤ 64 }
{
    let mut made = 0;
    let mut left = mask;
    let mut i: usize = 0;
    while i < 4 {
        made += size(left);
        left /= 16;
        i += 1;
    }
    made
}

/// Writes those that are kept behind the first `at` bytes, and up to sixteen bytes more.
#[inline(always)]
fn put_rows(bytes: u8x32, mask: u64, output: &mut [u8], at: usize) -> usize
    requires room { at + 80 ≤ length output.old }
    ensures value { result ≡ at + length (by_bits four_or_none mask bytes) }
    ensures front { take result output.new ≡ take at output.old ++ by_bits four_or_none mask bytes }
    ensures rest { drop (result + 16) output.new ≡ drop (result + 16) output.old }
{
    let mut end = at;
    let mut left = mask;
    let mut i = 0;
    while i < 4 {
        let sixteen = packed(four_pairs(bytes, i), (left % 16) as usize);
        put_sixteen(sixteen, output, end);
        end += size(left);
        left /= 16;
        i += 1;
    }
    end
}

/// Writes the points behind the first `at` bytes, four bytes each, highest ones first.
#[inline(always)]
pub fn put_ends_in_fours(ends: Ends, output: &mut [u8], at: usize) -> usize
    requires { at + 80 ≤ length output.old }
    ensures within { at + result ≤ length output.new }
    ensures front { take (at + result) output.new
        ≡ take at output.old ++ in_fours (picked ends.mask ends.numbers) }
    ensures rest { drop (at + result) output.new ≡ drop (at + result) output.old }
{
    let bytes = bytes_of(ends.numbers);
    let made = total(bytes, ends.mask);
    let kept = sixteen_at(output, at + made);
    let end = put_rows(bytes, ends.mask, output, at);
    put_sixteen(kept, output, end);
    made
}

//! Units of two bytes that are eight points, read and written.

ghost use Rattle.std.specs.Prelude.{◌≡◌, ◌+◌, ◌≤◌, ◌++◌, length, take, drop, IsTrue, IfSome};
ghost use Rattle.wide_lanes.specs.Wide.{AreWide, low_first, high_first, swapped, in_fours, widened};

use crate::stores::store_sixteen;
use std::simd::prelude::*;

/// Eight numbers of 16 bits.
#[derive(Clone, Copy)]
pub struct Wide {
    pub points: u16x8,
}

/// Whether no number is a surrogate.
#[inline(always)]
pub fn are_wide(numbers: u16x8) -> bool
    ensures { IsTrue result → AreWide numbers }
{
    (numbers - u16x8::splat(0xD800))
        .simd_lt(u16x8::splat(0x800))
        .to_bitmask()
        == 0
}

/// The numbers of eight pairs of bytes, low ones first.
#[inline(always)]
fn numbers(bytes: u8x16) -> u16x8
    ensures { low_first result ≡ bytes }
{
    u16x8::from_le_bytes(bytes)
}

/// Eight numbers as pairs of bytes, low ones first.
#[inline(always)]
pub fn bytes_of(numbers: u16x8) -> u8x16
    ensures value { result ≡ low_first numbers }
    ensures long { length result ≡ 16 }
{
    numbers.to_le_bytes()
}

/// Each pair of bytes the other way round.
#[inline(always)]
fn swap(bytes: u8x16) -> u8x16
    ensures value { result ≡ swapped bytes }
    ensures long { length result ≡ 16 }
{
    bytes.shuffle(
        bytes,
        [1, 0, 3, 2, 5, 4, 7, 6, 9, 8, 11, 10, 13, 12, 15, 14],
    )
}

/// Eight numbers as pairs of bytes, high ones first.
#[inline(always)]
fn high_bytes_of(numbers: u16x8) -> u8x16
    ensures value { result ≡ high_first numbers }
    ensures long { length result ≡ 16 }
{
    swap(bytes_of(numbers))
}

/// Two 0 before each pair of bytes, and the pair the other way round.
#[inline(always)]
fn widen(bytes: u8x16) -> u8x32
    ensures value { result ≡ widened bytes }
    ensures long { length result ≡ 32 }
{
    bytes.shuffle(
        u8x16::splat(0),
        [
            16, 16, 1, 0, 16, 16, 3, 2, 16, 16, 5, 4, 16, 16, 7, 6, 16, 16, 9, 8, 16, 16, 11, 10,
            16, 16, 13, 12, 16, 16, 15, 14,
        ],
    )
}

/// Eight numbers as four bytes each, highest ones first.
#[inline(always)]
fn fours_of(numbers: u16x8) -> u8x32
    ensures value { result ≡ in_fours numbers }
    ensures long { length result ≡ 32 }
{
    widen(bytes_of(numbers))
}

/// The last two bytes of each four, as a number whose high byte comes first.
#[inline(always)]
fn narrow(bytes: u8x32) -> u16x8 {
    numbers(bytes.shuffle(
        bytes,
        [3, 2, 7, 6, 11, 10, 15, 14, 19, 18, 23, 22, 27, 26, 31, 30],
    ))
}

#[inline(always)]
fn are_same(first: u8x32, second: u8x32) -> bool
    ensures { IsTrue result → first ≡ second }
{
    first.simd_ne(second).to_bitmask() == 0
}

/// Eight points, where the first 32 bytes are these as units of four bytes, highest ones first.
#[inline(always)]
pub fn load_in_fours(bytes: &[u8]) -> Option<Wide>
    requires { 32 ≤ length bytes.now }
    ensures { IfSome result (λ w. AreWide w.points × (take 32 bytes.now ≡ in_fours w.points)) }
{
    let fours = u8x32::from_slice(bytes);
    let points = narrow(fours);
    if are_wide(points) && are_same(fours_of(points), fours) {
        Some(Wide { points })
    } else {
        None
    }
}

/// Eight points, where the first 16 bytes are these as units, low bytes first.
#[inline(always)]
pub fn load_low_first(bytes: &[u8]) -> Option<Wide>
    requires { 16 ≤ length bytes.now }
    ensures { IfSome result (λ w. AreWide w.points × (take 16 bytes.now ≡ low_first w.points)) }
{
    let points = numbers(u8x16::from_slice(bytes));
    if are_wide(points) {
        Some(Wide { points })
    } else {
        None
    }
}

/// Eight points, where the first 16 bytes are these as units, high bytes first.
#[inline(always)]
pub fn load_high_first(bytes: &[u8]) -> Option<Wide>
    requires { 16 ≤ length bytes.now }
    ensures { IfSome result (λ w. AreWide w.points × (take 16 bytes.now ≡ high_first w.points)) }
{
    let points = numbers(swap(u8x16::from_slice(bytes)));
    if are_wide(points) {
        Some(Wide { points })
    } else {
        None
    }
}

#[inline(always)]
#[tactic(auto, using(std::proofs::lemmas::Simd::put_chunk_whole))]
fn store_fours(bytes: u8x32, part: &mut [u8])
    requires part { length part.old ≡ 32 }
    requires bytes { length bytes ≡ 32 }
    ensures { part.new ≡ bytes }
{
    bytes.copy_to_slice(part);
}

/// Writes eight points behind the first `at` bytes, four bytes each, highest ones first.
#[inline(always)]
#[tactic(auto, using(std::proofs::lemmas::Slice::overwrites))]
pub fn put_in_fours(wide: Wide, output: &mut [u8], at: usize)
    requires { at + 32 ≤ length output.old }
    ensures front { take (at + 32) output.new ≡ take at output.old ++ in_fours wide.points }
    ensures rest { drop (at + 32) output.new ≡ drop (at + 32) output.old }
{
    store_fours(fours_of(wide.points), &mut output[at..at + 32]);
}

/// Writes eight points behind the first `at` bytes, two bytes each, low ones first.
#[inline(always)]
#[tactic(auto, using(std::proofs::lemmas::Slice::overwrites))]
pub fn put_low_first(wide: Wide, output: &mut [u8], at: usize)
    requires { at + 16 ≤ length output.old }
    ensures front { take (at + 16) output.new ≡ take at output.old ++ low_first wide.points }
    ensures rest { drop (at + 16) output.new ≡ drop (at + 16) output.old }
{
    store_sixteen(bytes_of(wide.points), &mut output[at..at + 16]);
}

/// Writes eight points behind the first `at` bytes, two bytes each, high ones first.
#[inline(always)]
#[tactic(auto, using(std::proofs::lemmas::Slice::overwrites))]
pub fn put_high_first(wide: Wide, output: &mut [u8], at: usize)
    requires { at + 16 ≤ length output.old }
    ensures front { take (at + 16) output.new ≡ take at output.old ++ high_first wide.points }
    ensures rest { drop (at + 16) output.new ≡ drop (at + 16) output.old }
{
    store_sixteen(high_bytes_of(wide.points), &mut output[at..at + 16]);
}

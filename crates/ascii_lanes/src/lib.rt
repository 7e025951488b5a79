//! Sixteen points below 80 hex at once, in one vector of bytes, and how far a text is plain.
#![tactic(auto)]

ghost use Rattle.std.specs.Prelude.{◌≡◌, ◌≢◌, ◌+◌, ◌≤◌, ◌++◌, length, take, drop, IsTrue, IfSome};
ghost use Rattle.std.specs.List.{AllByRecursion};
ghost use Rattle.ascii_lanes.specs.Plain.{ArePlain, low_first, high_first, last_of_four};

mod runs;

pub use runs::{ascii_run, plain_units};
use std::simd::prelude::*;

/// Sixteen points, one a byte.
#[derive(Clone, Copy)]
pub struct Lanes {
    pub points: u8x16,
}

/// The first 16 bytes, where each is below 80 hex.
#[inline(always)]
pub fn load_plain(bytes: &[u8]) -> Option<Lanes>
    requires { 16 ≤ length bytes.now }
    ensures { IfSome result (λ l. ArePlain l.points × (take 16 bytes.now ≡ l.points)) }
{
    let points = u8x16::from_slice(bytes);
    if is_plain(points) {
        Some(Lanes { points })
    } else {
        None
    }
}

/// Sixteen points below 80 hex, where the first 32 bytes are these as pairs of bytes, low ones first.
#[inline(always)]
pub fn load_low_first(bytes: &[u8]) -> Option<Lanes>
    requires { 32 ≤ length bytes.now }
    ensures { IfSome result (λ l. ArePlain l.points × (take 32 bytes.now ≡ low_first l.points)) }
{
    let pairs = u8x32::from_slice(bytes);
    let points = pairs.shuffle(
        pairs,
        [0, 2, 4, 6, 8, 10, 12, 14, 16, 18, 20, 22, 24, 26, 28, 30],
    );
    if is_plain(points) && are_same(pairs, low_first(points)) {
        Some(Lanes { points })
    } else {
        None
    }
}

/// Sixteen points below 80 hex, where the first 32 bytes are these as pairs of bytes, high ones first.
#[inline(always)]
pub fn load_high_first(bytes: &[u8]) -> Option<Lanes>
    requires { 32 ≤ length bytes.now }
    ensures { IfSome result (λ l. ArePlain l.points × (take 32 bytes.now ≡ high_first l.points)) }
{
    let pairs = u8x32::from_slice(bytes);
    let points = pairs.shuffle(
        pairs,
        [1, 3, 5, 7, 9, 11, 13, 15, 17, 19, 21, 23, 25, 27, 29, 31],
    );
    if is_plain(points) && are_same(pairs, high_first(points)) {
        Some(Lanes { points })
    } else {
        None
    }
}

/// Sixteen points below 80 hex, where the first 64 bytes are these as numbers of four bytes, highest
/// bytes first.
#[inline(always)]
pub fn load_last_of_four(bytes: &[u8]) -> Option<Lanes>
    requires { 64 ≤ length bytes.now }
    ensures { IfSome result (λ l. ArePlain l.points × (take 64 bytes.now ≡ last_of_four l.points)) }
{
    let fours = u8x64::from_slice(bytes);
    let points = fours.shuffle(
        fours,
        [3, 7, 11, 15, 19, 23, 27, 31, 35, 39, 43, 47, 51, 55, 59, 63],
    );
    if is_plain(points) && are_same_fours(fours, last_of_four(points)) {
        Some(Lanes { points })
    } else {
        None
    }
}

/// Whether no point is this one.
#[inline(always)]
pub fn lacks(points: u8x16, byte: u8) -> bool
    ensures { IsTrue result → AllByRecursion (λ p. p ≢ byte) points }
{
    points.simd_eq(u8x16::splat(byte)).to_bitmask() == 0
}

/// Whether each of 16 bytes is below 80 hex.
#[inline(always)]
fn is_plain(lanes: u8x16) -> bool
    ensures { IsTrue result → ArePlain lanes }
{
    lanes.simd_ge(u8x16::splat(128)).to_bitmask() == 0
}

/// Whether two vectors are the same.
#[inline(always)]
fn are_same(a: u8x32, b: u8x32) -> bool
    ensures { IsTrue result → a ≡ b }
{
    a.simd_ne(b).to_bitmask() == 0
}

/// Whether two vectors of 64 bytes are the same.
#[inline(always)]
fn are_same_fours(a: u8x64, b: u8x64) -> bool
    ensures { IsTrue result → a ≡ b }
{
    a.simd_ne(b).to_bitmask() == 0
}

/// A 0 after each byte.
#[inline(always)]
fn low_first(points: u8x16) -> u8x32
    ensures value { result ≡ low_first points }
    ensures long { length result ≡ 32 }
{
    points.shuffle(
        u8x16::splat(0),
        [
            0, 16, 1, 17, 2, 18, 3, 19, 4, 20, 5, 21, 6, 22, 7, 23, 8, 24, 9, 25, 10, 26, 11, 27,
            12, 28, 13, 29, 14, 30, 15, 31,
        ],
    )
}

/// A 0 before each byte.
#[inline(always)]
fn high_first(points: u8x16) -> u8x32
    ensures value { result ≡ high_first points }
    ensures long { length result ≡ 32 }
{
    points.shuffle(
        u8x16::splat(0),
        [
            16, 0, 17, 1, 18, 2, 19, 3, 20, 4, 21, 5, 22, 6, 23, 7, 24, 8, 25, 9, 26, 10, 27, 11,
            28, 12, 29, 13, 30, 14, 31, 15,
        ],
    )
}

/// Three 0 before each byte.
#[inline(always)]
fn last_of_four(points: u8x16) -> u8x64
    ensures value { result ≡ last_of_four points }
    ensures long { length result ≡ 64 }
{
    points.shuffle(
        u8x16::splat(0),
        [
            16, 16, 16, 0, 16, 16, 16, 1, 16, 16, 16, 2, 16, 16, 16, 3, 16, 16, 16, 4, 16, 16, 16,
            5, 16, 16, 16, 6, 16, 16, 16, 7, 16, 16, 16, 8, 16, 16, 16, 9, 16, 16, 16, 10, 16, 16,
            16, 11, 16, 16, 16, 12, 16, 16, 16, 13, 16, 16, 16, 14, 16, 16, 16, 15,
        ],
    )
}

#[inline(always)]
#[tactic(auto, using(std::proofs::lemmas::Simd::put_chunk_whole))]
fn store(points: u8x16, part: &mut [u8])
    requires part { length part.old ≡ 16 }
    requires points { length points ≡ 16 }
    ensures { part.new ≡ points }
{
    points.copy_to_slice(part);
}

#[inline(always)]
#[tactic(auto, using(std::proofs::lemmas::Simd::put_chunk_whole))]
fn store_wide(pairs: u8x32, part: &mut [u8])
    requires part { length part.old ≡ 32 }
    requires pairs { length pairs ≡ 32 }
    ensures { part.new ≡ pairs }
{
    pairs.copy_to_slice(part);
}

#[inline(always)]
#[tactic(auto, using(std::proofs::lemmas::Simd::put_chunk_whole))]
fn store_fours(fours: u8x64, part: &mut [u8])
    requires part { length part.old ≡ 64 }
    requires fours { length fours ≡ 64 }
    ensures { part.new ≡ fours }
{
    fours.copy_to_slice(part);
}

/// Writes 16 points behind the first `at` bytes, a byte each.
#[inline(always)]
#[tactic(auto, using(std::proofs::lemmas::Slice::overwrites))]
pub fn put_plain(lanes: Lanes, output: &mut [u8], at: usize)
    requires { at + 16 ≤ length output.old }
    ensures front { take (at + 16) output.new ≡ take at output.old ++ lanes.points }
    ensures rest { drop (at + 16) output.new ≡ drop (at + 16) output.old }
{
    store(lanes.points, &mut output[at..at + 16]);
}

/// Writes 16 points behind the first `at` bytes, two bytes each, low ones first.
#[inline(always)]
#[tactic(auto, using(std::proofs::lemmas::Slice::overwrites))]
pub fn put_low_first(lanes: Lanes, output: &mut [u8], at: usize)
    requires { at + 32 ≤ length output.old }
    ensures front { take (at + 32) output.new ≡ take at output.old ++ low_first lanes.points }
    ensures rest { drop (at + 32) output.new ≡ drop (at + 32) output.old }
{
    store_wide(low_first(lanes.points), &mut output[at..at + 32]);
}

/// Writes 16 points behind the first `at` bytes, two bytes each, high ones first.
#[inline(always)]
#[tactic(auto, using(std::proofs::lemmas::Slice::overwrites))]
pub fn put_high_first(lanes: Lanes, output: &mut [u8], at: usize)
    requires { at + 32 ≤ length output.old }
    ensures front { take (at + 32) output.new ≡ take at output.old ++ high_first lanes.points }
    ensures rest { drop (at + 32) output.new ≡ drop (at + 32) output.old }
{
    store_wide(high_first(lanes.points), &mut output[at..at + 32]);
}

/// Writes 16 points behind the first `at` bytes, four bytes each, highest ones first.
#[inline(always)]
#[tactic(auto, using(std::proofs::lemmas::Slice::overwrites))]
pub fn put_last_of_four(lanes: Lanes, output: &mut [u8], at: usize)
    requires { at + 64 ≤ length output.old }
    ensures front { take (at + 64) output.new ≡ take at output.old ++ last_of_four lanes.points }
    ensures rest { drop (at + 64) output.new ≡ drop (at + 64) output.old }
{
    store_fours(last_of_four(lanes.points), &mut output[at..at + 64]);
}

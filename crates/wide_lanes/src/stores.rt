//! Eight or sixteen bytes read and written at a place.

ghost use Rattle.std.specs.Prelude.{◌≡◌, ◌+◌, ◌≤◌, ◌++◌, length, take, drop};

use std::simd::prelude::*;

#[inline(always)]
#[tactic(auto, using(std::proofs::lemmas::Simd::put_chunk_whole))]
fn store_eight(bytes: u8x8, part: &mut [u8])
    requires part { length part.old ≡ 8 }
    requires bytes { length bytes ≡ 8 }
    ensures { part.new ≡ bytes }
{
    bytes.copy_to_slice(part);
}

#[inline(always)]
#[tactic(auto, using(std::proofs::lemmas::Simd::put_chunk_whole))]
pub fn store_sixteen(bytes: u8x16, part: &mut [u8])
    requires part { length part.old ≡ 16 }
    requires bytes { length bytes ≡ 16 }
    ensures { part.new ≡ bytes }
{
    bytes.copy_to_slice(part);
}

/// Writes eight bytes behind the first `at` bytes of `output`.
#[inline(always)]
#[tactic(auto, using(std::proofs::lemmas::Slice::overwrites))]
pub fn put_eight(bytes: u8x8, output: &mut [u8], at: usize)
    requires bytes { length bytes ≡ 8 }
    requires room { at + 8 ≤ length output.old }
    ensures front { take (at + 8) output.new ≡ take at output.old ++ bytes }
    ensures rest { drop (at + 8) output.new ≡ drop (at + 8) output.old }
{
    store_eight(bytes, &mut output[at..at + 8]);
}

/// Writes sixteen bytes behind the first `at` bytes of `output`.
#[inline(always)]
#[tactic(auto, using(std::proofs::lemmas::Slice::overwrites))]
pub fn put_sixteen(bytes: u8x16, output: &mut [u8], at: usize)
    requires bytes { length bytes ≡ 16 }
    requires room { at + 16 ≤ length output.old }
    ensures front { take (at + 16) output.new ≡ take at output.old ++ bytes }
    ensures rest { drop (at + 16) output.new ≡ drop (at + 16) output.old }
{
    store_sixteen(bytes, &mut output[at..at + 16]);
}

/// Eight bytes at a place.
#[inline(always)]
pub fn eight_at(bytes: &[u8], place: usize) -> u8x8
    requires { place + 8 ≤ length bytes.now }
    ensures value { result ≡ take 8 (drop place bytes.now) }
    ensures long { length result ≡ 8 }
{
    u8x8::from_slice(&bytes[place..])
}

/// Sixteen bytes at a place.
#[inline(always)]
pub fn sixteen_at(bytes: &[u8], place: usize) -> u8x16
    requires { place + 16 ≤ length bytes.now }
    ensures value { result ≡ take 16 (drop place bytes.now) }
    ensures long { length result ≡ 16 }
{
    u8x16::from_slice(&bytes[place..])
}

//! Eight points written in UTF-8: four bytes are stored for each, one behind what counts of the other, and
//! what stood behind the last is put back.

ghost use Rattle.std.specs.Prelude.{◌≡◌, ◌+◌, ◌*◌, ◌≤◌, ◌++◌, length, take, drop};
ghost use Rattle.std.specs.List.{flat_map};
ghost use Rattle.step_unicode.specs.Utf8.{utf8};
ghost use Rattle.wide_lanes.specs.Wide.{AreWide};

use crate::short::{are_short, put_short};
use crate::units::Wide;
use crate::words::{counts, slots};
use std::simd::prelude::*;

#[inline(always)]
#[tactic(auto, using(std::proofs::lemmas::Simd::put_chunk_whole))]
fn store(bytes: u8x4, part: &mut [u8])
    requires part { length part.old ≡ 4 }
    requires bytes { length bytes ≡ 4 }
    ensures { part.new ≡ bytes }
{
    bytes.copy_to_slice(part);
}

/// Writes the four bytes at a place of `bytes` behind the first `at` bytes of `output`.
#[inline(always)]
#[tactic(auto, using(std::proofs::lemmas::Slice::overwrites))]
fn put_four(bytes: &[u8], from: usize, output: &mut [u8], at: usize)
    requires from { from + 4 ≤ length bytes.now }
    requires room { at + 4 ≤ length output.old }
    ensures front { take (at + 4) output.new ≡ take at output.old ++ take 4 (drop from bytes.now) }
    ensures rest { drop (at + 4) output.new ≡ drop (at + 4) output.old }
{
    store(u8x4::from_slice(&bytes[from..]), &mut output[at..at + 4]);
}

/// How many bytes eight points have.
#[inline(always)]
fn total(wide: Wide) -> usize
    requires { AreWide wide.points }
    ensures value { result ≡ length (flat_map utf8 wide.points) }
    ensures few { result ≤ 24 }
{
    let sizes = counts(wide.points).to_array();
    let mut made = 0;
    let mut i = 0;
    while i < 8 {
        made += sizes[i] as usize;
        i += 1;
    }
    made
}

/// Writes eight points behind the first `at` bytes, and up to three bytes more.
#[inline(always)]
fn put_slots(wide: Wide, output: &mut [u8], at: usize) -> usize
    requires points { AreWide wide.points }
    requires room { at + 28 ≤ length output.old }
    ensures value { result ≡ at + length (flat_map utf8 wide.points) }
    ensures front { take result output.new ≡ take at output.old ++ flat_map utf8 wide.points }
    ensures rest { drop (result + 3) output.new ≡ drop (result + 3) output.old }
{
    let sizes = counts(wide.points).to_array();
    let fours = slots(wide.points).to_array();
    let mut end = at;
    let mut i = 0;
    while i < 8 {
        put_four(&fours, 4 * i, output, end);
        end += sizes[i] as usize;
        i += 1;
    }
    end
}

/// Writes eight points behind the first `at` bytes, and says how many bytes they are.
#[inline(always)]
pub fn put_utf8(wide: Wide, output: &mut [u8], at: usize) -> usize
    requires points { AreWide wide.points }
    requires room { at + 28 ≤ length output.old }
    ensures within { at + result ≤ length output.new }
    ensures front { take (at + result) output.new ≡ take at output.old ++ flat_map utf8 wide.points }
    ensures rest { drop (at + result) output.new ≡ drop (at + result) output.old }
{
    if are_short(wide.points) {
        return put_short(wide.points, output, at);
    }
    let made = total(wide);
    let mut kept = [0; 4];
    put_four(output, at + made, &mut kept, 0);
    let end = put_slots(wide, output, at);
    put_four(&kept, 0, output, end);
    made
}

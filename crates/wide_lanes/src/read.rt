//! Eight points read from UTF-8. What is decoded is believed only where its own UTF-8 is what stands
//! there, byte by byte: so the decoding needs no proof.

ghost use Rattle.std.specs.Prelude.{◌≡◌, ◌+◌, ◌<◌, ◌≤◌, ◌++◌, length, take, drop, IsTrue, IfSome};
ghost use Rattle.std.specs.List.{AllByRecursion, flat_map};
ghost use Rattle.step_unicode.specs.Utf8.{utf8};
ghost use Rattle.wide_lanes.specs.Wide.{AreWide};
ghost use Rattle.wide_lanes.specs.Read.{shifted, Follow, Shows};

use crate::units::{Wide, are_wide};
use crate::words::{counts, keeps, slots};
use std::simd::prelude::*;

/// Eight points, and how many bytes of UTF-8 they are.
#[derive(Clone, Copy)]
pub struct Read {
    pub wide: Wide,
    pub used: usize,
}

/// A bit for each byte that isn't a later one of a unit.
#[inline(always)]
fn first_bytes(bytes: u8x32) -> u64 {
    !(bytes - u8x32::splat(0x80))
        .simd_lt(u8x32::splat(0x40))
        .to_bitmask()
}

/// The next place, which is taken out of the bits.
#[inline(always)]
fn next(bits: &mut u64) -> usize
    ensures { result ≤ 64 }
{
    let place = bits.trailing_zeros() as usize;
    *bits &= bits.wrapping_sub(1);
    place
}

/// Four bytes at a place.
#[inline(always)]
fn four_at(input: &[u8], place: usize) -> u8x4
    requires { place + 4 ≤ length input.now }
    ensures value { result ≡ take 4 (drop place input.now) }
    ensures long { length result ≡ 4 }
{
    u8x4::from_slice(&input[place..])
}

#[inline(always)]
fn join_fours(first: u8x4, second: u8x4) -> u8x8
    ensures value { result ≡ first ++ second }
    ensures long { length result ≡ 8 }
{
    first.shuffle(second, [0, 1, 2, 3, 4, 5, 6, 7])
}

#[inline(always)]
fn join_eights(first: u8x8, second: u8x8) -> u8x16
    ensures value { result ≡ first ++ second }
    ensures long { length result ≡ 16 }
{
    first.shuffle(
        second,
        [0, 1, 2, 3, 4, 5, 6, 7, 8, 9, 10, 11, 12, 13, 14, 15],
    )
}

#[inline(always)]
fn join_sixteens(first: u8x16, second: u8x16) -> u8x32
    ensures value { result ≡ first ++ second }
    ensures long { length result ≡ 32 }
{
    first.shuffle(
        second,
        [
            0, 1, 2, 3, 4, 5, 6, 7, 8, 9, 10, 11, 12, 13, 14, 15, 16, 17, 18, 19, 20, 21, 22, 23,
            24, 25, 26, 27, 28, 29, 30, 31,
        ],
    )
}

/// What four bytes at each lane would be, if they began with a unit of up to three bytes.
#[inline(always)]
fn decoded(fours: u8x32) -> u16x8 {
    let pairs = u16x16::from_le_bytes(fours);
    let front = pairs.shuffle(pairs, [0, 2, 4, 6, 8, 10, 12, 14]);
    let behind = pairs.shuffle(pairs, [1, 3, 5, 7, 9, 11, 13, 15]);
    let first = front & u16x8::splat(0xFF);
    let two = first * u16x8::splat(64) + second_of(front);
    let three = two * u16x8::splat(64) + (behind & u16x8::splat(0xFF));
    first.simd_lt(u16x8::splat(0x80)).select(
        first,
        first
            .simd_lt(u16x8::splat(0xE0))
            .select(two - u16x8::splat(0x3080), three - u16x8::splat(0x2080)),
    )
}

/// The second byte of two.
#[inline(always)]
fn second_of(pairs: u16x8) -> u16x8 {
    pairs / u16x8::splat(256)
}

/// Where each unit begins, of which the ends are known.
#[inline(always)]
fn starts_of(ends: u16x8) -> u16x8
    ensures value { result ≡ shifted 0 ends }
    ensures long { length result ≡ 8 }
{
    u16x8::splat(0).shuffle(ends, [0, 8, 9, 10, 11, 12, 13, 14])
}

/// Whether each unit ends as many bytes behind the one before it as its point has.
#[inline(always)]
fn follow(ends: u16x8, points: u16x8) -> bool
    requires ends { AllByRecursion (λ e. e ≤ 64) ends }
    requires points { AreWide points }
    ensures { IsTrue result → Follow 0 ends points }
{
    (ends - starts_of(ends))
        .simd_ne(counts(points))
        .to_bitmask()
        == 0
}

/// Whether each four bytes begin with the UTF-8 of their point.
#[inline(always)]
fn show(points: u16x8, fours: u8x32) -> bool
    requires { AreWide points }
    ensures { IsTrue result → Shows points fours }
{
    let made = slots(points);
    keeps(points)
        .simd_ge(u8x32::splat(128))
        .select(fours, made)
        .simd_ne(made)
        .to_bitmask()
        == 0
}

/// Eight points, where the input begins with their UTF-8.
#[inline(always)]
pub fn load_utf8(input: &[u8]) -> Option<Read>
    requires { 68 ≤ length input.now }
    ensures points { IfSome result (λ r. AreWide r.wide.points) }
    ensures some { IfSome result (λ r. 0 < r.used) }
    ensures within { IfSome result (λ r. r.used ≤ length input.now) }
    ensures value { IfSome result (λ r. take r.used input.now ≡ flat_map utf8 r.wide.points) }
{
    let mut bits = first_bytes(u8x32::from_slice(input));
    next(&mut bits);
    let a = next(&mut bits);
    let b = next(&mut bits);
    let c = next(&mut bits);
    let d = next(&mut bits);
    let e = next(&mut bits);
    let f = next(&mut bits);
    let g = next(&mut bits);
    let h = next(&mut bits);
    let low = join_eights(
        join_fours(four_at(input, 0), four_at(input, a)),
        join_fours(four_at(input, b), four_at(input, c)),
    );
    let high = join_eights(
        join_fours(four_at(input, d), four_at(input, e)),
        join_fours(four_at(input, f), four_at(input, g)),
    );
    let fours = join_sixteens(low, high);
    let points = decoded(fours);
    let ends = u16x8::from_array([
        a as u16, b as u16, c as u16, d as u16, e as u16, f as u16, g as u16, h as u16,
    ]);
    if !are_wide(points) || !follow(ends, points) || !show(points, fours) {
        return None;
    }
    Some(Read {
        wide: Wide { points },
        used: h,
    })
}

//! The UTF-8 of eight points below 10000 hex, lane by lane: four bytes for each, of which the first few
//! count.

ghost use Rattle.std.specs.Prelude.{◌≡◌, ℕ, length, map};
ghost use Rattle.std.specs.List.{flat_map};
ghost use Rattle.wide_lanes.specs.Wide.{low_first};
ghost use Rattle.wide_lanes.specs.Words.{by_size, last_byte, front_two, front_three, front_short, count_of, turns, slot, keep};

use std::simd::prelude::*;

/// The last byte of a unit of two or three.
#[inline(always)]
fn lasts(points: u16x8) -> u16x8
    ensures { result ≡ map last_byte points }
{
    points % u16x8::splat(64) + u16x8::splat(0x80)
}

/// The two bytes of a unit of two.
#[inline(always)]
fn twos(points: u16x8) -> u16x8
    ensures { result ≡ map front_two points }
{
    points / u16x8::splat(64) + u16x8::splat(0xC0) + lasts(points) * u16x8::splat(256)
}

/// The first two bytes of a unit of three.
#[inline(always)]
fn threes(points: u16x8) -> u16x8
    ensures { result ≡ map front_three points }
{
    points / u16x8::splat(4096)
        + u16x8::splat(0xE0)
        + lasts(points / u16x8::splat(64)) * u16x8::splat(256)
}

/// One of three vectors at each lane, by how many bytes its point has in UTF-8.
#[inline(always)]
fn choose(points: u16x8, one: u16x8, two: u16x8, three: u16x8) -> u16x8
    ensures { (f g h : ℕ → ℕ) → one ≡ map f points → two ≡ map g points → three ≡ map h points
        → result ≡ map (by_size f g h) points }
{
    points.simd_lt(u16x8::splat(0x80)).select(
        one,
        points.simd_lt(u16x8::splat(0x800)).select(two, three),
    )
}

/// How many bytes each point has in UTF-8.
#[inline(always)]
pub fn counts(points: u16x8) -> u16x8
    ensures value { result ≡ map count_of points }
    ensures long { length result ≡ 8 }
{
    choose(points, u16x8::splat(1), u16x8::splat(2), u16x8::splat(3))
}

/// The one or two bytes of each point, where it has so many.
#[inline(always)]
pub fn short_fronts(points: u16x8) -> u16x8
    ensures { result ≡ map front_short points }
{
    choose(points, points, twos(points), twos(points))
}

/// The numbers of two vectors in turns.
#[inline(always)]
fn in_turns(first: u16x8, second: u16x8) -> u16x16
    ensures { result ≡ turns first second }
{
    first.shuffle(
        second,
        [0, 8, 1, 9, 2, 10, 3, 11, 4, 12, 5, 13, 6, 14, 7, 15],
    )
}

/// Sixteen numbers as pairs of bytes, low ones first.
#[inline(always)]
pub fn bytes_of(numbers: u16x16) -> u8x32
    ensures value { result ≡ low_first numbers }
    ensures long { length result ≡ 32 }
{
    numbers.to_le_bytes()
}

/// Four bytes for each point, which begin with its UTF-8.
#[inline(always)]
pub fn slots(points: u16x8) -> u8x32
    ensures value { result ≡ flat_map slot points }
    ensures long { length result ≡ 32 }
{
    let fronts = choose(points, points, twos(points), threes(points));
    bytes_of(in_turns(fronts, lasts(points)))
}

/// FF hex for each byte of a slot that counts, and 0 for the others.
#[inline(always)]
pub fn keeps(points: u16x8) -> u8x32
    ensures value { result ≡ flat_map keep points }
    ensures long { length result ≡ 32 }
{
    let all = u16x8::splat(0xFFFF);
    let one = u16x8::splat(0xFF);
    let none = u16x8::splat(0);
    let fronts = choose(points, one, all, all);
    bytes_of(in_turns(fronts, choose(points, none, none, one)))
}

//! UTF-8 of up to three bytes a unit, sixteen bytes at once: at each byte is computed what a unit that ends
//! there gives, and the numbers are kept where one does.

ghost use Rattle.std.specs.Prelude.{◌≡◌, ◌+◌, ◌<◌, ◌≤◌, if◌then◌else◌, ℕ, Bool, List, ◌∷◌, length, take, map, IfSome};
ghost use Rattle.std.specs.Simd.Lanes.{mask_l};
ghost use Rattle.std.specs.List.{flat_map};
ghost use Rattle.step_unicode.specs.Utf8.{utf8};
ghost use Rattle.wide_lanes.specs.Wide.{AreWide};
ghost use Rattle.wide_lanes.specs.Ends.{Window, AreBytes, is_in, flag, goes_on, is_wrong, ends};
ghost use Rattle.wide_lanes.specs.Ends.{point_at, picked, whole_of};

use std::simd::prelude::*;

/// Sixteen numbers of 16 bits, of which those count whose bits are set, the first one's lowest.
#[derive(Clone, Copy)]
pub struct Ends {
    pub numbers: u16x16,
    pub mask: u64,
}

/// Points, and how many bytes of UTF-8 they are.
#[derive(Clone, Copy)]
pub struct ReadEnds {
    pub ends: Ends,
    pub used: usize,
}

/// The byte before each, and 0 before the first.
#[inline(always)]
fn before(bytes: u8x16) -> u8x16
    ensures value { result ≡ 0 ∷ take 15 bytes }
    ensures long { length result ≡ 16 }
{
    bytes.shuffle(
        u8x16::splat(0),
        [16, 0, 1, 2, 3, 4, 5, 6, 7, 8, 9, 10, 11, 12, 13, 14],
    )
}

/// FF hex for each of `count` bytes from `from` on, and 0 for the others.
#[inline(always)]
fn within(bytes: u8x16, from: u8, count: u8) -> u8x16
    requires { from + count ≤ 256 }
    ensures { result ≡ map (λ b. flag (is_in from count b)) bytes }
{
    (bytes - u8x16::splat(from))
        .simd_lt(u8x16::splat(count))
        .select(u8x16::splat(255), u8x16::splat(0))
}

/// A bit for each byte that isn't 0.
#[inline(always)]
fn set_bits(flags: u8x16) -> u64
    ensures { (ws : List Window) (t : Window → Bool) → flags ≡ map (λ w. flag (t w)) ws
        → result ≡ mask_l (map t ws) }
{
    flags.simd_ge(u8x16::splat(128)).to_bitmask()
}

/// Where a unit goes on.
#[inline(always)]
fn go_on(two: u8x16, one: u8x16) -> u8x16
    ensures { (ws : List Window) (here : List ℕ) → AreBytes ws two one here
        → result ≡ map (λ w. flag (goes_on w)) ws }
{
    within(one, 0xC2, 0x2E) | within(two, 0xE0, 0x10)
}

/// Where a byte can't stand.
#[inline(always)]
fn wrong(two: u8x16, one: u8x16, here: u8x16) -> u8x16
    ensures { (ws : List Window) → AreBytes ws two one here
        → result ≡ map (λ w. flag (is_wrong w)) ws }
{
    (within(here, 0x80, 0x40) ^ go_on(two, one))
        | (within(here, 0xC0, 2)
            | (within(here, 0xF0, 0x10)
                | ((within(one, 0xE0, 1) & within(here, 0, 0xA0))
                    | (within(one, 0xED, 1) & within(here, 0xA0, 0x60)))))
}

/// Where a unit ends.
#[inline(always)]
fn ended(two: u8x16, one: u8x16, here: u8x16) -> u8x16
    ensures { (ws : List Window) → AreBytes ws two one here → result ≡ map (λ w. flag (ends w)) ws }
{
    within(here, 0, 0x80) | (within(one, 0xC2, 0x1E) | within(two, 0xE0, 0x10))
}

/// Each byte as a number of 16 bits.
#[inline(always)]
fn numbers(bytes: u8x16) -> u16x16
    ensures { result ≡ bytes }
{
    bytes.cast::<u16>()
}

/// The values at bytes that are one of `count` from `from` on, and 0 at the others.
#[inline(always)]
fn values_at(bytes: u8x16, from: u8, count: u8, values: u8x16) -> u8x16
    requires { from + count ≤ 256 }
    ensures { (ws : List Window) (f g : Window → ℕ) → bytes ≡ map f ws → values ≡ map g ws
        → result ≡ map (λ w. if is_in from count (f w) then g w else 0) ws }
{
    (bytes - u8x16::splat(from))
        .simd_lt(u8x16::splat(count))
        .select(values, u8x16::splat(0))
}

/// What a unit that ends at each byte gives.
#[inline(always)]
fn points(two: u8x16, one: u8x16, here: u8x16) -> u16x16
    ensures { (ws : List Window) → AreBytes ws two one here → result ≡ map point_at ws }
{
    let low = here - values_at(here, 0x80, 0x40, u8x16::splat(0x80));
    let middle = values_at(here, 0x80, 0x40, one % u8x16::splat(64));
    let high = values_at(two, 0xE0, 0x10, two % u8x16::splat(16));
    numbers(low) + numbers(middle) * u16x16::splat(64) + numbers(high) * u16x16::splat(4096)
}

/// Points, where the first sixteen bytes are their UTF-8 and, behind it, what a unit begins with.
#[inline(always)]
pub fn load_ends(input: &[u8]) -> Option<ReadEnds>
    requires { 16 ≤ length input.now }
    ensures points { IfSome result (λ r. AreWide (picked r.ends.mask r.ends.numbers)) }
    ensures some { IfSome result (λ r. 0 < r.used) }
    ensures within { IfSome result (λ r. r.used ≤ length input.now) }
    ensures value { IfSome result (λ r.
        take r.used input.now ≡ flat_map utf8 (picked r.ends.mask r.ends.numbers)) }
{
    let here = u8x16::from_slice(input);
    let one = before(here);
    let two = before(one);
    if set_bits(wrong(two, one, here)) != 0 {
        return None;
    }
    Some(ReadEnds {
        ends: Ends {
            numbers: points(two, one, here),
            mask: set_bits(ended(two, one, here)),
        },
        used: whole(input[14], input[15]),
    })
}

/// How many of sixteen bytes are whole units, by the last two of them.
#[inline(always)]
fn whole(one: u8, here: u8) -> usize
    ensures { result ≡ whole_of one here }
{
    if 0xC2 <= here {
        15
    } else if 0xE0 <= one {
        14
    } else {
        16
    }
}

//! UCS-4: four bytes a point, the highest first.

ghost use Rattle.std.specs.Prelude.{◌≡◌, ◌<◌, ◌≤◌, ◌↔◌, length, IsTrue};
ghost use Rattle.step_unicode.specs.Points.{InRange};
ghost use Rattle.step_unicode.specs.declared.set.Uni.TheVariants.{Ucs4};
ghost use Rattle.step_unicode.specs.Sets.{IsUnit, IsSpellable, spelling};
ghost use Rattle.step_unicode.specs.Answers.{IsAnswer, IsWrote};

use crate::set::{State, Unit};
use crate::wrote::Wrote;

/// Whether the second and third bytes are those of a surrogate.
#[inline(always)]
fn is_surrogate(plane: u8, row: u8) -> bool
    ensures { IsTrue result ↔ ((plane ≡ 0) × InRange 0xD8 0xDF row) }
{
    plane == 0 && 0xD8 <= row && row <= 0xDF
}

/// Reads the unit at the front of `input`.
#[inline(always)]
pub fn read(state: State, input: &[u8]) -> Unit
    requires { 0 < length input.now }
    ensures { IsAnswer (IsUnit Ucs4) state input.now result }
{
    if input[0] != 0 {
        return Unit::Illegal;
    }
    if input.len() < 2 {
        return Unit::Incomplete;
    }
    let plane = input[1];
    if 0x10 < plane {
        return Unit::Illegal;
    }
    if input.len() < 3 {
        return Unit::Incomplete;
    }
    let row = input[2];
    if is_surrogate(plane, row) {
        return Unit::Illegal;
    }
    if input.len() < 4 {
        return Unit::Incomplete;
    }
    let cell = input[3];
    Unit::Got {
        point: Some(plane as u32 * 65536 + row as u32 * 256 + cell as u32),
        used: 4,
        state,
    }
}

/// Writes a point behind the first `at` bytes of `output`.
#[inline(always)]
#[tactic(auto, using(std::proofs::lemmas::Slice::overwrites))]
pub fn write(state: State, point: u32, output: &mut [u8], at: usize) -> Wrote
    requires { at ≤ length output.old }
    ensures { IsWrote (IsSpellable Ucs4) (spelling Ucs4) state point at output.old output.new result }
{
    if 0x10FFFF < point || (0xD800 <= point && point <= 0xDFFF) {
        return Wrote::Lacks;
    }
    if output.len() - at < 4 {
        return Wrote::Full;
    }
    output[at] = (point / 16777216) as u8;
    output[at + 1] = (point / 65536 % 256) as u8;
    output[at + 2] = (point / 256 % 256) as u8;
    output[at + 3] = (point % 256) as u8;
    Wrote::Bytes { count: 4, state }
}

//! ASCII: one byte below 80 hex.

ghost use Rattle.std.specs.Prelude.{◌≡◌, ◌<◌, ◌≤◌, length};
ghost use Rattle.step_unicode.specs.declared.set.Uni.TheVariants.{Ascii};
ghost use Rattle.step_unicode.specs.Sets.{IsUnit, IsSpellable, spelling};
ghost use Rattle.step_unicode.specs.Answers.{IsAnswer, IsWrote};

use crate::set::{State, Unit};
use crate::wrote::Wrote;

/// Reads the unit at the front of `input`.
#[inline(always)]
pub fn read(state: State, input: &[u8]) -> Unit
    requires { 0 < length input.now }
    ensures { IsAnswer (IsUnit Ascii) state input.now result }
{
    let byte = input[0];
    if byte < 0x80 {
        Unit::Got {
            point: Some(byte as u32),
            used: 1,
            state,
        }
    } else {
        Unit::Illegal
    }
}

/// Writes a point behind the first `at` bytes of `output`.
#[inline(always)]
#[tactic(auto, using(std::proofs::lemmas::Slice::overwrites))]
pub fn write(state: State, point: u32, output: &mut [u8], at: usize) -> Wrote
    requires { at ≤ length output.old }
    ensures { IsWrote (IsSpellable Ascii) (spelling Ascii) state point at output.old output.new result }
{
    if 0x7F < point {
        return Wrote::Lacks;
    }
    if output.len() - at < 1 {
        return Wrote::Full;
    }
    output[at] = point as u8;
    Wrote::Bytes { count: 1, state }
}

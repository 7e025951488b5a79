//! One unit or one point, in any of the sets.

ghost use Rattle.std.specs.Prelude.{◌≡◌, ◌<◌, ◌≤◌, ◌-◌, length, IfSome};
ghost use Rattle.step_unicode.specs.Sets.{IsStateOf, IsUnit, IsSpellable, spelling};
ghost use Rattle.step_unicode.specs.Answers.{IsAnswer, IsWrote, IsWritten};

use crate::set::{State, Uni, Unit};
use crate::small::Small;
use crate::wrote::Wrote;
use crate::{ascii, ucs4, utf8, utf16};

/// Reads the unit at the front of `input`.
pub fn read_unit(set: Uni, state: State, input: &[u8]) -> Unit
    requires state { IsStateOf set state }
    requires some { 0 < length input.now }
    ensures { IsAnswer (IsUnit set) state input.now result }
{
    match set {
        Uni::Ascii => ascii::read(state, input),
        Uni::Utf8 => utf8::read(state, input),
        Uni::Utf16 => utf16::read(state, input),
        Uni::Utf16Le => utf16::read_little(state, input),
        Uni::Utf16Be => utf16::read_big(state, input),
        Uni::Ucs4 => ucs4::read(state, input),
    }
}

/// Writes a point behind the first `at` bytes of `output`.
pub fn write_at(set: Uni, state: State, point: u32, output: &mut [u8], at: usize) -> Wrote
    requires state { IsStateOf set state }
    requires at { at ≤ length output.old }
    ensures { IsWrote (IsSpellable set) (spelling set) state point at output.old output.new result }
{
    match set {
        Uni::Ascii => ascii::write(state, point, output, at),
        Uni::Utf8 => utf8::write(state, point, output, at),
        Uni::Utf16 => utf16::write(state, point, output, at),
        Uni::Utf16Le => utf16::write_little(state, point, output, at),
        Uni::Utf16Be => utf16::write_big(state, point, output, at),
        Uni::Ucs4 => ucs4::write(state, point, output, at),
    }
}

/// The bytes of a point and the state after them; `None` exactly where the set can't spell it.
pub fn write_unit(set: Uni, state: State, point: u32) -> Option<(Small, State)>
    requires { IsStateOf set state }
    ensures { IsWritten (IsSpellable set) (spelling set) state point result }
{
    let mut bytes = [0; 8];
    match write_at(set, state, point, &mut bytes, 0) {
        Wrote::Bytes { count, state } => Some((Small::front(bytes, count), state)),
        Wrote::Full => unreachable!(),
        Wrote::Lacks => None,
    }
}

//! How far a text is plain in a set.

ghost use Rattle.std.specs.Prelude.{◌≡◌, take};
ghost use Rattle.step_unicode.specs.Sets.{IsStateOf, IsUnit};
ghost use Rattle.step_unicode.specs.Runs.{plain_run, IsPointRun};

use crate::set::{State, Uni};
use ascii_lanes::{ascii_run, plain_units};

/// How many bytes the units at the front of `input` have that can be told many at a time: bytes below
/// 80 hex in ASCII and UTF-8, and numbers that are no surrogates in UTF-16 where its order is known.
pub fn plain_run(set: Uni, state: State, input: &[u8]) -> usize
    requires { IsStateOf set state }
    ensures value { result ≡ plain_run set state input.now }
    ensures units { IsPointRun (IsUnit set) state (take result input.now) }
{
    match set {
        Uni::Ascii => ascii_run(input),
        Uni::Utf8 => ascii_run(input),
        Uni::Utf16 => match state {
            State::Little => plain_units(input, false),
            State::Big => plain_units(input, true),
            State::Plain | State::Roman | State::Kanji => 0,
        },
        Uni::Utf16Le => plain_units(input, false),
        Uni::Utf16Be => plain_units(input, true),
        Uni::Ucs4 => 0,
    }
}

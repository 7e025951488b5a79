//! UTF-16 (RFC 2781), in either order of bytes, with and without a mark.

ghost use Rattle.std.specs.Prelude.{◌≡◌, ◌+◌, ◌*◌, ◌<◌, ◌≤◌, ◌↔◌, length, IsTrue};
ghost use Rattle.step_unicode.specs.declared.set.Uni.TheVariants.{Utf16, Utf16Le, Utf16Be};
ghost use Rattle.step_unicode.specs.declared.set.State.TheVariants.{Plain};
ghost use Rattle.step_unicode.specs.Points.{InRange};
ghost use Rattle.step_unicode.specs.Sets.{IsStateOf, IsUnit, IsSpellable, spelling};
ghost use Rattle.step_unicode.specs.Answers.{IsAnswer, IsWrote};

use crate::set::{State, Unit};
use crate::wrote::Wrote;

/// The point of a pair of surrogates.
#[inline(always)]
fn paired(high: u32, low: u32) -> u32
    requires high { InRange 0xD800 0xDBFF high }
    requires low { InRange 0xDC00 0xDFFF low }
    ensures { result + 0xD800 * 1024 + 0xDC00 ≡ 0x10000 + high * 1024 + low }
{
    0x10000 + (high - 0xD800) * 1024 + (low - 0xDC00)
}

/// Whether a byte begins a low surrogate, high byte first.
#[inline(always)]
fn leads_low(byte: u8) -> bool
    ensures { IsTrue result ↔ InRange 0xDC 0xDF byte }
{
    0xDC <= byte && byte <= 0xDF
}

/// Whether two bytes are the given ones.
#[inline(always)]
fn are(first: u8, second: u8, a: u8, b: u8) -> bool
    ensures { IsTrue result ↔ ((first ≡ a) × (second ≡ b)) }
{
    first == a && second == b
}

/// Reads the unit at the front of `input`, low bytes first.
#[inline(always)]
pub fn read_little(state: State, input: &[u8]) -> Unit
    requires { 0 < length input.now }
    ensures { IsAnswer (IsUnit Utf16Le) state input.now result }
{
    if input.len() < 2 {
        return Unit::Incomplete;
    }
    let first = input[0] as u32 + 256 * input[1] as u32;
    if first < 0xD800 || 0xDFFF < first {
        return Unit::Got {
            point: Some(first),
            used: 2,
            state,
        };
    }
    if 0xDBFF < first {
        return Unit::Illegal;
    }
    if input.len() < 4 {
        return Unit::Incomplete;
    }
    let second = input[2] as u32 + 256 * input[3] as u32;
    if second < 0xDC00 || 0xDFFF < second {
        return Unit::Illegal;
    }
    Unit::Got {
        point: Some(paired(first, second)),
        used: 4,
        state,
    }
}

/// Reads the unit at the front of `input`, high bytes first.
#[inline(always)]
pub fn read_big(state: State, input: &[u8]) -> Unit
    requires { 0 < length input.now }
    ensures { IsAnswer (IsUnit Utf16Be) state input.now result }
{
    let lead = input[0];
    if leads_low(lead) {
        return Unit::Illegal;
    }
    if input.len() < 2 {
        return Unit::Incomplete;
    }
    let first = 256 * lead as u32 + input[1] as u32;
    if first < 0xD800 || 0xDFFF < first {
        return Unit::Got {
            point: Some(first),
            used: 2,
            state,
        };
    }
    if input.len() < 3 {
        return Unit::Incomplete;
    }
    let trail = input[2];
    if !leads_low(trail) {
        return Unit::Illegal;
    }
    if input.len() < 4 {
        return Unit::Incomplete;
    }
    let second = 256 * trail as u32 + input[3] as u32;
    Unit::Got {
        point: Some(paired(first, second)),
        used: 4,
        state,
    }
}

/// Reads the first unit of a text, which may be a mark.
fn read_first(input: &[u8]) -> Unit
    requires { 0 < length input.now }
    ensures { IsAnswer (IsUnit Utf16) Plain input.now result }
{
    if input.len() < 2 {
        return Unit::Incomplete;
    }
    if are(input[0], input[1], 0xFE, 0xFF) {
        return Unit::Got {
            point: None,
            used: 2,
            state: State::Big,
        };
    }
    if are(input[0], input[1], 0xFF, 0xFE) {
        return Unit::Got {
            point: None,
            used: 2,
            state: State::Little,
        };
    }
    read_little(State::Little, input)
}

/// Reads the unit at the front of `input`, in the order of the state; in `Plain` a mark counts.
#[inline(always)]
pub fn read(state: State, input: &[u8]) -> Unit
    requires state { IsStateOf Utf16 state }
    requires some { 0 < length input.now }
    ensures { IsAnswer (IsUnit Utf16) state input.now result }
{
    match state {
        State::Little => read_little(State::Little, input),
        State::Big => read_big(State::Big, input),
        State::Plain => read_first(input),
        _ => unreachable!(),
    }
}

/// Writes a point behind the first `at` bytes of `output`, low bytes first.
#[inline(always)]
#[tactic(auto, using(std::proofs::lemmas::Slice::overwrites))]
pub fn write_little(state: State, point: u32, output: &mut [u8], at: usize) -> Wrote
    requires { at ≤ length output.old }
    ensures { IsWrote (IsSpellable Utf16Le) (spelling Utf16Le) state point at output.old output.new result }
{
    if point < 0x10000 {
        if 0xD800 <= point && point <= 0xDFFF {
            return Wrote::Lacks;
        }
        if output.len() - at < 2 {
            return Wrote::Full;
        }
        output[at] = (point % 256) as u8;
        output[at + 1] = (point / 256) as u8;
        return Wrote::Bytes { count: 2, state };
    }
    if 0x10FFFF < point {
        return Wrote::Lacks;
    }
    if output.len() - at < 4 {
        return Wrote::Full;
    }
    let high = 0xD800 + (point - 0x10000) / 1024;
    let low = 0xDC00 + (point - 0x10000) % 1024;
    output[at] = (high % 256) as u8;
    output[at + 1] = (high / 256) as u8;
    output[at + 2] = (low % 256) as u8;
    output[at + 3] = (low / 256) as u8;
    Wrote::Bytes { count: 4, state }
}

/// Writes a point behind the first `at` bytes of `output`, high bytes first.
#[inline(always)]
#[tactic(auto, using(std::proofs::lemmas::Slice::overwrites))]
pub fn write_big(state: State, point: u32, output: &mut [u8], at: usize) -> Wrote
    requires { at ≤ length output.old }
    ensures { IsWrote (IsSpellable Utf16Be) (spelling Utf16Be) state point at output.old output.new result }
{
    if point < 0x10000 {
        if 0xD800 <= point && point <= 0xDFFF {
            return Wrote::Lacks;
        }
        if output.len() - at < 2 {
            return Wrote::Full;
        }
        output[at] = (point / 256) as u8;
        output[at + 1] = (point % 256) as u8;
        return Wrote::Bytes { count: 2, state };
    }
    if 0x10FFFF < point {
        return Wrote::Lacks;
    }
    if output.len() - at < 4 {
        return Wrote::Full;
    }
    let high = 0xD800 + (point - 0x10000) / 1024;
    let low = 0xDC00 + (point - 0x10000) % 1024;
    output[at] = (high / 256) as u8;
    output[at + 1] = (high % 256) as u8;
    output[at + 2] = (low / 256) as u8;
    output[at + 3] = (low % 256) as u8;
    Wrote::Bytes { count: 4, state }
}

/// Writes the first point of a text behind a mark of the little order.
#[tactic(auto, using(std::proofs::lemmas::Slice::overwrites))]
fn write_first(point: u32, output: &mut [u8], at: usize) -> Wrote
    requires { at ≤ length output.old }
    ensures { IsWrote (IsSpellable Utf16) (spelling Utf16) Plain point at output.old output.new result }
{
    if 0x10FFFF < point || (0xD800 <= point && point <= 0xDFFF) {
        return Wrote::Lacks;
    }
    if point < 0x10000 {
        if output.len() - at < 4 {
            return Wrote::Full;
        }
        output[at] = 0xFF;
        output[at + 1] = 0xFE;
        output[at + 2] = (point % 256) as u8;
        output[at + 3] = (point / 256) as u8;
        return Wrote::Bytes {
            count: 4,
            state: State::Little,
        };
    }
    if output.len() - at < 6 {
        return Wrote::Full;
    }
    let high = 0xD800 + (point - 0x10000) / 1024;
    let low = 0xDC00 + (point - 0x10000) % 1024;
    output[at] = 0xFF;
    output[at + 1] = 0xFE;
    output[at + 2] = (high % 256) as u8;
    output[at + 3] = (high / 256) as u8;
    output[at + 4] = (low % 256) as u8;
    output[at + 5] = (low / 256) as u8;
    Wrote::Bytes {
        count: 6,
        state: State::Little,
    }
}

/// Writes a point behind the first `at` bytes of `output`; in `Plain` a mark goes before it.
#[inline(always)]
pub fn write(state: State, point: u32, output: &mut [u8], at: usize) -> Wrote
    requires state { IsStateOf Utf16 state }
    requires at { at ≤ length output.old }
    ensures { IsWrote (IsSpellable Utf16) (spelling Utf16) state point at output.old output.new result }
{
    match state {
        State::Little => write_little(State::Little, point, output, at),
        State::Big => write_big(State::Big, point, output, at),
        State::Plain => write_first(point, output, at),
        _ => unreachable!(),
    }
}

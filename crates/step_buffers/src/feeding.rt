//! How a piece is taken in.

ghost use Rattle.std.specs.Prelude.{◌≡◌, ◌+◌, ◌≤◌, ◌++◌, [], length};
ghost use Rattle.std.specs.Prelude.{vec_len, vec_capacity};
ghost use Rattle.code_table.specs.HandsBack.{HandsBack};
ghost use Rattle.chain_steps.specs.Chains.{initial};
ghost use Rattle.chain_steps.specs.Sets.{return_of};
ghost use Rattle.step_buffers.specs.Limits.{most_each};
ghost use Rattle.step_buffers.specs.Stands.{stops};
ghost use Rattle.step_buffers.specs.Steps.{HasRoom, IsTaken};

use crate::limits::BRIDGE;
use crate::parts::{Parts, append_within, drop_front};
use crate::through::{Reached, convert_through};
use chain_steps::{Converter, Reset, Verdict, illegal_stays, runs_join, spellings_join};

/// Whether a stream can't go on.
pub fn is_stop(verdict: Verdict) -> bool
    ensures { result ≡ stops verdict }
{
    match verdict {
        Verdict::Illegal => true,
        Verdict::Done => false,
        Verdict::Full => false,
        Verdict::Incomplete => false,
    }
}

/// Takes in a piece where nothing waits: it is converted where it stands, and its rest is kept.
fn take_piece<C: Converter>(parts: &mut Parts, converter: &mut C, piece: &[u8]) -> Reached
    requires ready { C.ready converter.old }
    requires room { HasRoom parts.old (length piece.now) }
    requires empty { parts.old.tail.items ≡ [] }
    ensures taken { IsTaken (C.tables converter.old) (C.machine converter.old)
        (C.machine converter.new) parts.old parts.new piece.now result }
    ensures back { HandsBack C.tables C.ready C.kept converter.old converter.new }
{
    let scratch = parts.scratch.as_mut_slice();
    let reached = convert_through(converter, piece, scratch, &mut parts.output);
    if is_stop(reached.verdict) {
        return reached;
    }
    append_within(&mut parts.tail, &piece[reached.consumed..]);
    reached
}

/// Takes in a piece of a few bytes behind those that wait, and keeps the rest of both.
fn take_joined<C: Converter>(parts: &mut Parts, converter: &mut C, piece: &[u8]) -> Reached
    requires ready { C.ready converter.old }
    requires room { HasRoom parts.old (length piece.now) }
    requires piece { length piece.now ≤ BRIDGE }
    ensures taken { IsTaken (C.tables converter.old) (C.machine converter.old)
        (C.machine converter.new) parts.old parts.new piece.now result }
    ensures back { HandsBack C.tables C.ready C.kept converter.old converter.new }
{
    append_within(&mut parts.tail, piece);
    let scratch = parts.scratch.as_mut_slice();
    let reached = convert_through(converter, parts.tail.as_slice(), scratch, &mut parts.output);
    if is_stop(reached.verdict) {
        parts.tail.clear();
        return reached;
    }
    drop_front(&mut parts.tail, reached.consumed);
    reached
}

/// Takes in a piece of more bytes behind those that wait. Only its first bytes are joined to them:
/// a unit ends among these, and from there the piece is converted where it stands.
fn take_bridged<C: Converter>(parts: &mut Parts, converter: &mut C, piece: &[u8]) -> Reached
    requires ready { C.ready converter.old }
    requires room { HasRoom parts.old (length piece.now) }
    requires piece { BRIDGE ≤ length piece.now }
    ensures taken { IsTaken (C.tables converter.old) (C.machine converter.old)
        (C.machine converter.new) parts.old parts.new piece.now result }
    ensures back { HandsBack C.tables C.ready C.kept converter.old converter.new }
{
    runs_join();
    illegal_stays();
    let waited = parts.tail.len();
    append_within(&mut parts.tail, &piece[..BRIDGE]);
    let scratch = parts.scratch.as_mut_slice();
    let first = convert_through(converter, parts.tail.as_slice(), scratch, &mut parts.output);
    parts.tail.clear();
    if is_stop(first.verdict) {
        return first;
    }
    let rest = take_piece(parts, converter, &piece[first.consumed - waited..]);
    Reached {
        consumed: first.consumed + rest.consumed,
        verdict: rest.verdict,
    }
}

/// Takes in a piece: what waits and the piece are converted behind the output, and the rest of both
/// waits. The room of the output was taken before.
pub fn take_in<C: Converter>(parts: &mut Parts, converter: &mut C, piece: &[u8]) -> Reached
    requires ready { C.ready converter.old }
    requires room { HasRoom parts.old (length piece.now) }
    ensures taken { IsTaken (C.tables converter.old) (C.machine converter.old)
        (C.machine converter.new) parts.old parts.new piece.now result }
    ensures back { HandsBack C.tables C.ready C.kept converter.old converter.new }
{
    if parts.tail.is_empty() {
        return take_piece(parts, converter, piece);
    }
    if piece.len() <= BRIDGE {
        return take_joined(parts, converter, piece);
    }
    take_bridged(parts, converter, piece)
}

/// Writes the return sequence behind the output, and puts the converter to its initial states.
pub fn close<C: Converter>(converter: &mut C, scratch: &mut [u8], output: &mut Vec<u8>)
    requires ready { C.ready converter.old }
    requires scratch { most_each ≤ length scratch.old }
    requires room { vec_len output.old + most_each ≤ vec_capacity output.old }
    ensures items { let m = C.machine converter.old in
        output.new.items ≡ output.old.items ++ return_of m.recipe.writer m.states.writing }
    ensures little { vec_len output.new ≤ vec_len output.old + most_each }
    ensures machine { let m = C.machine converter.old in
        C.machine converter.new ≡ record { recipe = m.recipe; states = initial } }
    ensures back { HandsBack C.tables C.ready C.kept converter.old converter.new }
{
    spellings_join();
    match converter.reset(scratch) {
        Reset::Closed { produced } => append_within(output, &scratch[..produced]),
        Reset::Full => unreachable!(),
    }
}

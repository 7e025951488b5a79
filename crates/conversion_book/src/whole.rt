//! The conversion of a whole input.

ghost use Rattle.std.specs.Prelude.{◌≡◌, ◌+◌, ◌≤◌, ◌++◌, ℕ, List, [], length, map, IfOk, IsSome, IfSome};
ghost use Rattle.code_table.specs.HandsBack.{HandsBack};
ghost use Rattle.chain_steps.specs.Chains.{initial};
ghost use Rattle.step_buffers.specs.Limits.{longest_stream};
ghost use Rattle.step_buffers.specs.Stands.{StandsFor};
ghost use Rattle.conversion_book.specs.Calls.{Moves, ConvertsWhole};
ghost use Rattle.conversion_book.specs.Descriptors.{held_as, IsRunnable, AllRun};
ghost use Rattle.conversion_book.specs.Runtime.{held_at};

use crate::descriptor::{Descriptor, place_of};
use chain_steps::Converter;
use std::alloc::{AllocError, Global};
use step_buffers::{Buffers, Finish, LONGEST_PIECE, Session};

/// Feeds all of an input, in pieces.
fn feed_all<C: Converter>(
    session: &mut Session,
    converter: &mut C,
    input: &[u8],
) -> Result<(), AllocError>
    requires ready { C.ready converter.old }
    requires new { session.old.taken ≡ 0 }
    requires stands { StandsFor (C.tables converter.old) (C.machine converter.old) session.old [] }
    requires short { length input.now ≤ longest_stream }
    ensures stands { IfOk result (λ _.
        StandsFor (C.tables converter.new) (C.machine converter.new) session.new input.now) }
    ensures taken { session.new.taken ≤ length input.now }
    ensures recipe { (C.machine converter.new).recipe ≡ (C.machine converter.old).recipe }
    ensures back { HandsBack C.tables C.ready C.kept converter.old converter.new }
{
    let mut at = 0;
    while at < input.len() {
        let end = input.len().min(at + LONGEST_PIECE);
        session.feed(converter, &input[at..end])?;
        at = end;
    }
    Ok(())
}

/// Converts a whole input by a descriptor.
fn convert_by(
    alloc: Global,
    descriptor: &mut Descriptor,
    buffers: Buffers,
    input: &[u8],
) -> Result<(Buffers, Finish), AllocError>
    requires runs { IsRunnable (held_as descriptor.old) }
    requires fresh { descriptor.old.runner.states ≡ initial }
    requires short { length input.now ≤ longest_stream }
    ensures ok { IfOk result (λ r. ConvertsWhole input.now r.0.output.items r.1
        descriptor.old.tables descriptor.old.runner descriptor.new.runner) }
    ensures recipe { descriptor.new.runner.recipe ≡ descriptor.old.runner.recipe }
    ensures number { descriptor.new.number ≡ descriptor.old.number }
    ensures tables { descriptor.new.tables ≡ descriptor.old.tables }
{
    let mut session = Session::over(alloc, buffers, input.len() as u64)?;
    feed_all(&mut session, descriptor, input)?;
    Ok(session.end(descriptor))
}

/// Converts a whole input by the descriptor of a number.
pub fn convert_whole_held(
    alloc: Global,
    held: &mut [Descriptor],
    number: u64,
    buffers: Buffers,
    input: &[u8],
) -> Result<(Buffers, Finish), AllocError>
    requires there { IsSome (held_at number (map held_as held.old)) }
    requires runs { AllRun (map held_as held.old) }
    requires fresh { IfSome (held_at number (map held_as held.old)) (λ h. h.machine.states ≡ initial) }
    requires short { length input.now ≤ longest_stream }
    ensures ok { IfOk result (λ r. Moves (map held_as held.old) (map held_as held.new) number
        (ConvertsWhole input.now r.0.output.items r.1)) }
    ensures moves { Moves (map held_as held.old) (map held_as held.new) number
        (λ ts m n. n.recipe ≡ m.recipe) }
{
    match place_of(held, number) {
        Some(at) => convert_by(alloc, &mut held[at], buffers, input),
        None => unreachable!(),
    }
}

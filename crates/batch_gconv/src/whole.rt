//! The conversion of a whole input.

ghost use Rattle.std.specs.Prelude.{◌≡◌, ◌≤◌, ◌+◌, ◌*◌, ◌++◌, ℕ, List, [], length, IfOk};
ghost use Rattle.code_table.specs.HandsBack.{HandsBack};
ghost use Rattle.chain_steps.specs.Chains.{initial};
ghost use Rattle.step_buffers.specs.Limits.{longest_stream};
ghost use Rattle.step_buffers.specs.Stands.{StandsFor};
ghost use Rattle.conversion_book.specs.Calls.{ConvertsWhole};

use chain_steps::Converter;
use std::alloc::{AllocError, Global};
use step_buffers::{Buffers, Finish, LONGEST_PIECE, Session};

/// Feeds all of an input, in pieces.
fn feed_all<C: Converter>(
    session: &mut Session,
    converter: &mut C,
    input: &[u8],
) -> Result<(), AllocError>
    requires ready { C.ready converter.old }
    requires new { session.old.taken ≡ 0 }
    requires stands { StandsFor (C.tables converter.old) (C.machine converter.old) session.old [] }
    requires short { length input.now ≤ longest_stream }
    ensures stands { IfOk result (λ _.
        StandsFor (C.tables converter.new) (C.machine converter.new) session.new input.now) }
    ensures taken { session.new.taken ≤ length input.now }
    ensures recipe { (C.machine converter.new).recipe ≡ (C.machine converter.old).recipe }
    ensures back { HandsBack C.tables C.ready C.kept converter.old converter.new }
{
    let mut at = 0;
    while at < input.len() {
        let end = input.len().min(at + LONGEST_PIECE);
        session.feed(converter, &input[at..end])?;
        at = end;
    }
    Ok(())
}

/// Converts a whole input by a converter whose conversion hasn't begun.
pub fn convert_whole<C: Converter>(
    alloc: Global,
    converter: &mut C,
    buffers: Buffers,
    input: &[u8],
) -> Result<(Buffers, Finish), AllocError>
    requires ready { C.ready converter.old }
    requires fresh { (C.machine converter.old).states ≡ initial }
    requires short { length input.now ≤ longest_stream }
    ensures ok { IfOk result (λ r. ConvertsWhole input.now r.0.output.items r.1
        (C.tables converter.old) (C.machine converter.old) (C.machine converter.new)) }
    ensures back { HandsBack C.tables C.ready C.kept converter.old converter.new }
{
    let mut session = Session::over(alloc, buffers, input.len() as u64)?;
    feed_all(&mut session, converter, input)?;
    Ok(session.end(converter))
}

//! A work that feeds a stream in pieces to a session over the converter that it is lent.

ghost use Rattle.std.specs.Prelude.{◌≡◌, ◌≤◌, length};
ghost use Rattle.code_table.specs.HandsBack.{HandsBack};
ghost use Rattle.step_buffers.specs.Limits.{longest_stream};

use chain_steps::Converter;
use conversion_book::Work;
use std::alloc::{AllocError, Global};
use step_buffers::{LONGEST_PIECE, LONGEST_STREAM, Session, Whole};

/// A stream, and how long its pieces are.
#[derive(Clone, Copy)]
pub struct Pieces<'a> {
    pub alloc: Global,
    pub input: &'a [u8],
    pub size: usize,
}

/// Feeds a session.
fn feed_all<C: Converter>(
    session: &mut Session,
    converter: &mut C,
    input: &[u8],
    size: usize,
) -> Result<(), AllocError>
    requires ready { C.ready converter.old }
    requires new { session.old.taken ≡ 0 }
    requires short { length input.now ≤ longest_stream }
    ensures recipe { (C.machine converter.new).recipe ≡ (C.machine converter.old).recipe }
    ensures back { HandsBack C.tables C.ready C.kept converter.old converter.new }
{
    let most = size.clamp(1, LONGEST_PIECE);
    let mut at = 0;
    while at < input.len() {
        let end = input.len().min(at + most);
        session.feed(converter, &input[at..end])?;
        at = end;
    }
    Ok(())
}

impl<'a> Work for Pieces<'a> {
    type Answer = Result<Whole, AllocError>;

    ghost does = { λ _ _ _ _ _. Unit {0} };

    fn run<C: Converter>(self, converter: &mut C) -> Result<Whole, AllocError> {
        let most = self.input.len().min(LONGEST_STREAM as usize);
        let mut session = Session::new(self.alloc)?;
        feed_all(&mut session, converter, &self.input[..most], self.size)?;
        Ok(session.finish(converter))
    }
}

//! A descriptor's converter is lent to a work.
ghost use Rattle.std.specs.Prelude.{◌≡◌, List, map, IsSome};
ghost use Rattle.conversion_book.specs.Calls.{Moves};
ghost use Rattle.conversion_book.specs.Descriptors.{held_as, AllRun};
ghost use Rattle.conversion_book.specs.Runtime.{held_at};

use crate::descriptor::{Descriptor, place_of};
use chain_steps::Converter;

/// A work over a converter, which it takes on loan: any converter will do.
pub trait Work {
    ghost use Rattle.std.specs.Prelude.{◌≡◌};
    ghost use Rattle.code_pairs.specs.Tables.{Tables};
    ghost use Rattle.code_table.specs.HandsBack.{HandsBack};
    ghost use Rattle.chain_steps.specs.Machine.{Machine};

    /// What it answers.
    type Answer;

    /// What it does: the tables, the machine before and after, and the answer.
    ghost does: { Self → Tables → Machine → Machine → Self.Answer → Type 0 };

    /// Does the work. The converter comes back with its recipe and its tables.
    fn run<C: Converter>(self, converter: &mut C) -> Self::Answer
        requires ready { C.ready converter.old }
        ensures value { does self (C.tables converter.old) (C.machine converter.old)
            (C.machine converter.new) result }
        ensures recipe { (C.machine converter.new).recipe ≡ (C.machine converter.old).recipe }
        ensures back { HandsBack C.tables C.ready C.kept converter.old converter.new };
}

/// Lends the descriptor of a number to a work.
pub fn run_held<W: Work>(held: &mut [Descriptor], number: u64, work: W) -> W::Answer
    requires there { IsSome (held_at number (map held_as held.old)) }
    requires runs { AllRun (map held_as held.old) }
    ensures { Moves (map held_as held.old) (map held_as held.new) number
        (λ ts m n. (n.recipe ≡ m.recipe) × W.does work ts m n result) }
{
    match place_of(held, number) {
        Some(at) => work.run(&mut held[at]),
        None => unreachable!(),
    }
}

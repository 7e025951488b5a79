//! Live descriptors.
ghost use Rattle.std.specs.Prelude.{◌≡◌, ◌==◌, not, List, length, map, position, IsSome, vec_capacity};
ghost use Rattle.std.specs.List.{filter, AllByRecursion};
ghost use Rattle.chain_steps.specs.Chains.{CanRun};
ghost use Rattle.chain_steps.specs.Runs.{IsCall};
ghost use Rattle.chain_steps.specs.Resets.{IsReset};
ghost use Rattle.conversion_book.specs.Calls.{Moves};
ghost use Rattle.conversion_book.specs.Descriptors.{held_as, AllRun};
ghost use Rattle.conversion_book.specs.Runtime.{held_at, without};

use crate::shared::SharedTables;
use chain_steps::{Converter, Progress, Reset, Runner};

/// A live descriptor: the position of its opening, the tables of its chain, and where its conversion
/// stands.
#[derive(Drop)]
pub struct Descriptor {
    pub number: u64,
    pub tables: SharedTables,
    pub runner: Runner,
}

impl Converter for Descriptor {
    ghost use Rattle.std.specs.Prelude.{◌≡◌, refl};
    ghost use Rattle.std.proofs.Common.{◌∙◌};
    ghost use Rattle.code_table.specs.WellFormed.{well_formed_at};
    ghost use Rattle.conversion_book.specs.Descriptors.{held_as, IsRunnable};

    ghost tables = { λ d. d.tables };

    ghost machine = { λ d. d.runner };

    ghost ready = { λ d. IsRunnable (held_as d) };

    ghost kept = { λ d e. e.number ≡ d.number };

    fn convert(&mut self, input: &[u8], output: &mut [u8]) -> Progress {
        self.runner.convert(&mut self.tables, input, output)
    }

    fn reset(&mut self, output: &mut [u8]) -> Reset {
        self.runner.reset(&mut self.tables, output)
    }

    ghost well_formed = { λ d k ready. well_formed_at d.tables k ready.well_formed };

    ghost can_run = { λ _ ready. ready.can_run };

    ghost kept_none = { λ _. refl };

    ghost kept_twice = { λ _ _ _ first second. second ∙ first };
}

/// The place of the descriptor of a number.
pub fn place_of(held: &[Descriptor], number: u64) -> Option<usize>
    ensures { result ≡ position (λ d. d.number == number) held.now }
{
    held.iter().position(|d| d.number == number)
}

/// Leaves out the descriptor of a number.
pub fn drop_held(held: &mut Vec<Descriptor>, number: u64)
    ensures items { held.new.items ≡ filter (λ d. not (d.number == number)) held.old.items }
    ensures room { vec_capacity held.new ≡ vec_capacity held.old }
{
    held.retain(|d| d.number != number);
}

/// Converts by the descriptor of a number.
pub fn convert_held(
    held: &mut [Descriptor],
    number: u64,
    input: &[u8],
    output: &mut [u8],
) -> Progress
    requires there { IsSome (held_at number (map held_as held.old)) }
    requires runs { AllRun (map held_as held.old) }
    ensures { Moves (map held_as held.old) (map held_as held.new) number
        (λ ts m n. IsCall ts m n input.now output.old output.new result) }
{
    match place_of(held, number) {
        Some(at) => held[at].convert(input, output),
        None => unreachable!(),
    }
}

/// Writes the return sequence of the descriptor of a number.
pub fn reset_held(held: &mut [Descriptor], number: u64, output: &mut [u8]) -> Reset
    requires there { IsSome (held_at number (map held_as held.old)) }
    requires runs { AllRun (map held_as held.old) }
    ensures { Moves (map held_as held.old) (map held_as held.new) number
        (λ ts m n. IsReset m n output.old output.new result) }
{
    match place_of(held, number) {
        Some(at) => held[at].reset(output),
        None => unreachable!(),
    }
}

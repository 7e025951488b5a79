//! One conversion, piece by piece.

ghost use Rattle.std.specs.Prelude.{◌≡◌, ◌≤◌, length};
ghost use Rattle.chain_steps.specs.Chains.{CanRun};
ghost use Rattle.chain_steps.specs.Sets.{IsInRange};

use crate::direction::Direction;
use chain_steps::{Joints, Recipe, Reset, Runner, Set, Verdict};
use code_table::Lookup;
use std::alloc::Global;
use step_unicode::Uni;

/// As much of the input as is handed to one call.
const PIECE: usize = 65536;

/// How many bytes a conversion consumed and produced, and why it stopped.
#[derive(Clone, Copy)]
pub struct Counts {
    pub consumed: usize,
    pub produced: u64,
    pub verdict: Verdict,
}

/// The chain between UTF-8 and a set, in its initial states.
fn make_runner<T: Lookup>(alloc: Global, tables: &T, set: Set, direction: Direction) -> Runner
    requires { IsInRange (T.tables tables.now) set }
    ensures { CanRun (T.tables tables.now) result.recipe }
{
    let utf8 = Set::Unicode(Uni::Utf8);
    let (reader, writer) = match direction {
        Direction::To => (utf8, set),
        Direction::From => (set, utf8),
    };
    Runner::new(Recipe {
        reader,
        joints: Joints::none(alloc),
        writer,
    })
}

/// The front of some bytes, at most so many.
fn front(rest: &[u8], most: usize) -> &[u8]
    ensures { length result.now ≤ length rest.now }
{
    if most < rest.len() {
        &rest[..most]
    } else {
        rest
    }
}

/// Converts the input in pieces, each into the scratch. A unit that a piece cuts is read again at
/// the front of the next one.
fn convert_pieces<T: Lookup>(
    runner: &mut Runner,
    tables: &mut T,
    input: &[u8],
    scratch: &mut [u8],
) -> Counts
    requires ready { T.ready tables.old }
    requires range { CanRun (T.tables tables.old) runner.old.recipe }
    ensures within { result.consumed ≤ length input.now }
    ensures recipe { runner.new.recipe ≡ runner.old.recipe }
    ensures same { T.tables tables.new ≡ T.tables tables.old }
    ensures ready { T.ready tables.new }
{
    let mut consumed = 0;
    let mut produced: u64 = 0;
    while consumed < input.len() {
        let progress = runner.convert(tables, front(&input[consumed..], PIECE), scratch);
        produced = produced.wrapping_add(progress.produced as u64);
        if progress.consumed == 0 {
            return Counts {
                consumed,
                produced,
                verdict: progress.verdict,
            };
        }
        consumed += progress.consumed;
    }
    Counts {
        consumed,
        produced,
        verdict: Verdict::Done,
    }
}

/// Converts all of the input once, from the initial states, with the return sequence at its end.
pub fn convert_once<T: Lookup>(
    alloc: Global,
    tables: &mut T,
    set: Set,
    direction: Direction,
    input: &[u8],
    scratch: &mut [u8],
) -> Counts
    requires ready { T.ready tables.old }
    requires range { IsInRange (T.tables tables.old) set }
    ensures within { result.consumed ≤ length input.now }
    ensures same { T.tables tables.new ≡ T.tables tables.old }
    ensures ready { T.ready tables.new }
{
    let mut runner = make_runner(alloc, tables, set, direction);
    let mut counts = convert_pieces(&mut runner, tables, input, scratch);
    if let Reset::Closed { produced } = runner.reset(tables, scratch) {
        counts.produced = counts.produced.wrapping_add(produced as u64);
    }
    counts
}

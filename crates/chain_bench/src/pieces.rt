//! One conversion, piece by piece.

ghost use Rattle.std.specs.Prelude.{◌≡◌, ◌≤◌, length};
ghost use Rattle.chain_steps.specs.Chains.{CanRun};

use chain_steps::{Runner, Verdict};
use code_table::Lookup;

/// As much of the input as is handed to one call.
const PIECE: usize = 65536;

/// How many bytes a conversion consumed and produced, and why it stopped.
#[derive(Clone, Copy)]
pub struct Counts {
    pub consumed: usize,
    pub produced: u64,
    pub verdict: Verdict,
}

/// The front of some bytes, at most so many.
fn front(rest: &[u8], most: usize) -> &[u8]
    ensures { length result.now ≤ length rest.now }
{
    if most < rest.len() {
        &rest[..most]
    } else {
        rest
    }
}

/// Converts the input in pieces, each into the scratch. A unit that a piece cuts is read again at
/// the front of the next one.
pub fn convert_pieces<T: Lookup>(
    runner: &mut Runner,
    tables: &mut T,
    input: &[u8],
    scratch: &mut [u8],
) -> Counts
    requires ready { T.ready tables.old }
    requires range { CanRun (T.tables tables.old) runner.old.recipe }
    ensures within { result.consumed ≤ length input.now }
    ensures recipe { runner.new.recipe ≡ runner.old.recipe }
    ensures same { T.tables tables.new ≡ T.tables tables.old }
    ensures ready { T.ready tables.new }
{
    let mut consumed = 0;
    let mut produced: u64 = 0;
    while consumed < input.len() {
        let progress = runner.convert(tables, front(&input[consumed..], PIECE), scratch);
        produced = produced.wrapping_add(progress.produced as u64);
        if progress.consumed == 0 {
            return Counts {
                consumed,
                produced,
                verdict: progress.verdict,
            };
        }
        consumed += progress.consumed;
    }
    Counts {
        consumed,
        produced,
        verdict: Verdict::Done,
    }
}

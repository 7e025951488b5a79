//! A trie's pages from its leaves.

ghost use Rattle.std.specs.Prelude.{◌≡◌, ◌*◌, ◌++◌, length, IfOk, OnOk, IfErr};
ghost use Rattle.trie.specs.Faults.{IsFault};
ghost use Rattle.trie.specs.Fronts.{paths};
ghost use Rattle.trie.specs.Overlaps.{AreApart};
ghost use Rattle.trie.specs.Runs.{all_of};
ghost use Rattle.trie.specs.Trie.{trie, IsTrieAt};

use crate::entry::Leaves;
use crate::fill::fill;
use crate::lengths::lengths_of;
use crate::levels::push_levels;
use crate::overlap::overlap;
use crate::run::Run;
use std::alloc::{AllocError, Global};

/// Why leaves have no trie.
#[derive(Debug, Drop)]
pub enum Fault {
    /// A path goes on from another. `first` is the place of the least path that another one goes on
    /// from, `second` that of the least path that goes on from it.
    Overlap { first: usize, second: usize },
    /// There was no memory, or the pages have no numbers below 2^32.
    Memory,
}

impl From<AllocError> for Fault {
    ghost use Rattle.std.specs.Prelude.{◌≡◌};
    ghost use Rattle.trie.specs.declared.trie.Fault.TheVariants.{Memory};

    ghost from_gives = { λ _ fault. fault ≡ Memory };

    fn from(_error: AllocError) -> Fault {
        Fault::Memory
    }
}

/// Appends the pages of a trie to words, which are `first` pages. The leaves come as runs too: each run
/// costs one walk, and each leaf of it one word more. A leaf alone is a run.
pub fn with_trie<L: Leaves>(
    alloc: Global,
    mut words: Vec<u64>,
    first: u32,
    leaves: &L,
    runs: &[Run],
) -> Result<Vec<u64>, Fault>
    requires size { length words.items ≡ 256 * first }
    requires runs { all_of runs.now ≡ L.leaves leaves.now }
    ensures value { IfOk result (λ made. made.items ≡ words.items ++ trie (L.leaves leaves.now) first) }
    ensures stands { IfOk result (λ made. IsTrieAt (L.leaves leaves.now) first made.items) }
    ensures apart { OnOk result (AreApart (paths (L.leaves leaves.now))) }
    ensures refused { IfErr result (IsFault (L.leaves leaves.now)) }
{
    let lengths = lengths_of(runs);
    push_levels(alloc, &mut words, first, lengths.longest, runs)?;
    match overlap(words.as_slice(), first, lengths, leaves, runs) {
        Some((first, second)) => Err(Fault::Overlap { first, second }),
        None => {
            fill(&mut words, first, runs);
            Ok(words)
        }
    }
}

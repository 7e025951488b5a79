//! How long paths are.

ghost use Rattle.trie.specs.Fronts.{AreLong, AreShort};
ghost use Rattle.trie.specs.Runs.{heads};

use crate::run::Run;

/// The lengths of a shortest and of a longest path.
#[derive(Clone, Copy)]
pub struct Lengths {
    pub shortest: usize,
    pub longest: usize,
}

/// The lengths of the heads' paths, which are those of all paths.
pub fn lengths_of(runs: &[Run]) -> Lengths
    ensures few { AreShort 4 (heads runs.now) }
    ensures short { AreShort result.longest (heads runs.now) }
    ensures long { AreLong result.shortest (heads runs.now) }
{
    let mut shortest = 4;
    let mut longest = 0;
    for run in runs {
        let len = run.path().len();
        shortest = len.min(shortest);
        longest = len.max(longest);
    }
    Lengths { shortest, longest }
}

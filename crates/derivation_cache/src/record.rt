//! What was added, which contracts alone see.
ghost use Rattle.std.specs.Prelude.{◌≡◌};
ghost use Rattle.derivation_cache.specs.Known.{none_known, and_pair};
ghost use Rattle.derivation_cache.specs.Trees.{known_of};

use crate::pair::Pair;
use module_graph::Graph;
use std::snapshot::Snapshot;

/// A graph, and the pairs that were added in it, one after another. It has no pair at run time.
#[derive(Drop)]
pub enum Record {
    Empty(Snapshot<Graph>),
    Then(Snapshot<Record>, Snapshot<Pair>),
}

impl Record {
    /// Nothing was added yet.
    pub(crate) fn empty(graph: &Graph) -> Record
        ensures { known_of result ≡ none_known graph.now }
    {
        Record::Empty(Snapshot::of(graph))
    }

    /// The same, and one pair more.
    pub(crate) fn and(&self, pair: &Pair) -> Record
        ensures { known_of result ≡ and_pair (known_of self.now) pair.now }
    {
        Record::Then(Snapshot::of(self), Snapshot::of(pair))
    }
}

//! Chains that a search finds, a cache publishes and a view finds again.
ghost use Rattle.std.specs.Prelude.{◌≡◌, All, IfSome};
ghost use Rattle.derivation_cache.specs.Known.{IsLeastPair};

use chain_search::least;
use derivation_cache::{Cache, Pair, View};
use module_graph::Graph;
use names_alias::Name;
use std::alloc::{AllocError, Global};
use std::sync::Wait;
use std::sync::ledger::Ledger;
use work_steps::Steps;

/// A pair of names with its chain, where it has one.
pub fn searched<L: Ledger>(
    alloc: Global,
    graph: &Graph,
    from: &Name,
    to: &Name,
    steps: &mut Steps<L>,
) -> Option<Pair>
    ensures { IfSome result (IsLeastPair graph.now) }
{
    let source = graph.node_of(from)?;
    let target = graph.node_of(to)?;
    match least(alloc, graph, source, target, steps) {
        Ok(Some(chain)) => Some(Pair {
            from: from.copied(),
            to: to.copied(),
            chain,
        }),
        _ => None,
    }
}

/// Adds all pairs to a cache.
pub fn publish<R: Wait>(
    rt: &R,
    alloc: Global,
    cache: &mut Cache,
    pairs: &[Pair],
) -> Result<(), AllocError>
    requires { All (IsLeastPair cache.old.graph) pairs.now }
    ensures { cache.new.graph ≡ cache.old.graph }
{
    for pair in pairs {
        cache.add(rt, alloc, &pair.from, &pair.to, &pair.chain)?;
    }
    Ok(())
}

/// How many of some pairs a view finds, each with the cost of its chain.
pub fn find_all(view: &mut View, pairs: &[Pair]) -> u32 {
    let mut into = [0u32; 4];
    let mut found = 0u32;
    for pair in pairs {
        match view.chain(&pair.from, &pair.to, &mut into) {
            Some(one) if one.cost == pair.chain.cost => found = found.wrapping_add(1),
            _ => {}
        }
    }
    found
}

//! Chains that were found before: they are found again, and published.
ghost use Rattle.std.specs.Prelude.{◌≡◌, None, MatchOption, MatchResult};
ghost use Rattle.pair_openings.specs.Knowing.{IsLeastFor};
ghost use Rattle.runtime_room.specs.Published.{pair_asked, pair_for, with_pair};

use chain_search::Chain;
use derivation_cache::{Cache, View};
use runtime_histories::Asked;
use std::alloc::{AllocError, Global};
use std::sync::Wait;

/// The chain of a pair, where a view has learnt of it. It takes no memory.
pub fn known_chain<'a>(view: &'a View, from: &Asked, to: &Asked) -> Option<&'a Chain>
    ensures { MatchOption result (pair_asked view.now from.now to.now ≡ None)
        (λ chain. IsLeastFor view.now.graph from.now to.now chain.now) }
{
    match (from, to) {
        (Asked::Good(from), Asked::Good(to)) => match view.pair(from, to) {
            Some(pair) => Some(&pair.chain),
            None => None,
        },
        _ => None,
    }
}

/// Publishes the chain of a pair. A pair that is published keeps its chain.
pub fn publish<R: Wait>(
    rt: &R,
    alloc: Global,
    cache: &mut Cache,
    from: &Asked,
    to: &Asked,
    chain: &Chain,
) -> Result<(), AllocError>
    requires { IsLeastFor cache.old.graph from.now to.now chain.now }
    ensures { MatchResult result
        (λ _. cache.new ≡ with_pair cache.old (pair_for from.now to.now chain.now))
        (λ _. cache.new ≡ cache.old) }
{
    match (from, to) {
        (Asked::Good(from), Asked::Good(to)) => cache.add(rt, alloc, from, to, chain),
        _ => Ok(()),
    }
}

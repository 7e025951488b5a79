//! What holds of every least chain.
ghost use Rattle.chain_search.specs.Laws.{LeastChainsAreShort};

/// A least chain has no more edges than there are nodes: it comes to no node twice.
pub fn least_chains_are_short()
    ensures { LeastChainsAreShort }
{}

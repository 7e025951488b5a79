//! The search for the chain between two names.
ghost use Rattle.std.specs.Prelude.{◌≡◌, ◌+◌, ◌≤◌, length, IfOk, IfSome, MatchOption};
ghost use Rattle.runtime_histories.specs.Settings.{Leads, LeadsNowhere};
ghost use Rattle.pair_openings.specs.Knowing.{CountsSteps};

use chain_search::{Chain, Ordinals, least};
use module_graph::Graph;
use names_alias::Name;
use std::alloc::{AllocError, Global};
use std::sync::ledger::Ledger;
use work_steps::Steps;

/// The least chain that leads from the one name to the other, or none where none leads there.
pub fn find_chain<K: Ledger>(
    alloc: Global,
    graph: &Graph,
    from: &Name,
    to: &Name,
    steps: &mut Steps<K>,
) -> Result<Option<Chain>, AllocError>
    ensures ok { IfOk result (λ answer. MatchOption answer (LeadsNowhere graph.now from.now to.now)
        (Leads graph.now from.now to.now)) }
    ensures steps { steps.new ≤ steps.old + length graph.now.edges }
{
    let Some(source) = graph.node_of(from) else {
        return Ok(None);
    };
    let Some(target) = graph.node_of(to) else {
        return Ok(None);
    };
    least(alloc, graph, source, target, steps)
}

/// A chain with the same ordinals.
fn same_chain(alloc: Global, chain: &Chain) -> Result<Chain, AllocError>
    ensures { IfOk result (λ c. c ≡ chain.now) }
{
    let mut ordinals = Vec::new(alloc);
    ordinals.extend_from_slice(chain.ordinals.as_slice())?;
    Ok(Chain {
        ordinals: Ordinals::new(ordinals),
        cost: chain.cost,
    })
}

/// The least chain that leads from the one name to the other, which is searched only where it isn't
/// known.
pub(crate) fn chain_for<K: Ledger>(
    alloc: Global,
    graph: &Graph,
    from: &Name,
    to: &Name,
    known: Option<&Chain>,
    steps: &mut Steps<K>,
) -> Result<Option<Chain>, AllocError>
    requires known { IfSome known (λ chain. Leads graph.now from.now to.now chain.now) }
    ensures ok { IfOk result (λ answer. MatchOption answer (LeadsNowhere graph.now from.now to.now)
        (Leads graph.now from.now to.now)) }
    ensures steps { CountsSteps (length graph.now.edges) known.entry steps.old steps.new }
{
    match known {
        Some(chain) => Ok(Some(same_chain(alloc, chain)?)),
        None => find_chain(alloc, graph, from, to, steps),
    }
}

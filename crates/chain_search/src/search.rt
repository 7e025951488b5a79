//! The search for the least chain.
ghost use Rattle.std.specs.Prelude.{◌≡◌, ◌+◌, ◌<◌, ◌≤◌, length, IfOk, MatchOption};
ghost use Rattle.chain_search.specs.Chains.{NoChain};
ghost use Rattle.chain_search.specs.Answer.{TellsLeast};

use crate::chain::{Chain, Ordinals};
use crate::frontier::take_cheapest;
use crate::relax::relax;
use crate::table::Table;
use crate::trace::trace;
use module_graph::Graph;
use std::alloc::{AllocError, Global};
use std::collections::BTreeSet;
use std::sync::ledger::Ledger;
use work_steps::Steps;

/// The least chain from one node to another, or none where none leads there.
///
/// A chain has at least one edge, also where both nodes are one. The order is by cost, then by
/// length, then by the list of ordinals. A step is a look at an edge; no edge is looked at twice,
/// also where memory runs out.
pub fn least<L: Ledger>(
    alloc: Global,
    graph: &Graph,
    source: u32,
    target: u32,
    steps: &mut Steps<L>,
) -> Result<Option<Chain>, AllocError>
    requires source { source < length graph.now.nodes }
    requires target { target < length graph.now.nodes }
    ensures ok { IfOk result (λ answer. MatchOption answer
        (NoChain graph.now.edges source target)
        (TellsLeast graph.now.edges source target)) }
    ensures steps { steps.new ≤ steps.old + length graph.now.edges }
{
    let nodes = graph.nodes() as usize;
    let mut known = Table::empty(alloc, nodes)?;
    let mut opened = Table::empty(alloc, nodes)?;
    let mut queue = BTreeSet::new(alloc);
    relax(
        graph.edges_into(target),
        0,
        0,
        &mut opened,
        &mut queue,
        steps,
    )?;
    while let Some((node, step)) = take_cheapest(&mut queue, &known, &opened) {
        known.put(node, step);
        if node == source {
            let ordinals = trace(alloc, &known, source, step)?;
            return Ok(Some(Chain {
                ordinals: Ordinals::new(ordinals),
                cost: step.cost,
            }));
        }
        if node != target {
            relax(
                graph.edges_into(node),
                step.cost,
                step.length,
                &mut opened,
                &mut queue,
                steps,
            )?;
        }
    }
    Ok(None)
}

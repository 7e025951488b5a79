//! Offers of better steps.
ghost use Rattle.std.specs.Prelude.{◌≡◌, ◌+◌, ◌-◌, ◌^◌, ◌<◌, ◌≤◌, length, IsTrue, Some, false, OnOk};
ghost use Rattle.std.specs.List.{All};
ghost use Rattle.chain_search.specs.Steps.{NoGreater, HasAtMost, Relaxes};
ghost use Rattle.chain_search.specs.Frontier.{AreQueued};

use crate::frontier::Open;
use crate::step::Step;
use crate::table::Table;
use module_graph::Edge;
use std::alloc::AllocError;
use std::collections::BTreeSet;
use std::sync::ledger::Ledger;
use work_steps::Steps;

/// Whether a step is to replace what a node has.
fn improves(offer: Step, old: Option<Step>) -> bool
    ensures yes { IsTrue result → (s : Step) → old ≡ Some s → NoGreater offer s }
    ensures no { result ≡ false → HasAtMost old offer }
{
    match old {
        None => true,
        Some(step) => !step.is_no_greater(offer),
    }
}

/// Offers each edge of a row, before a rest of that cost and length, to the node where it starts.
pub fn relax<L: Ledger>(
    row: &[Edge],
    cost: u64,
    len: u32,
    opened: &mut Table,
    queue: &mut BTreeSet<Open>,
    steps: &mut Steps<L>,
) -> Result<(), AllocError>
    requires sources { All (λ e. e.source < length opened.old) row.now }
    requires cost { cost < 2 ^ 63 }
    requires len { len < 2 ^ 32 - 1 }
    ensures relaxed { OnOk result (Relaxes opened.old opened.new row.now cost len) }
    ensures queued { OnOk result
        (AreQueued opened.old opened.new queue.old.keys queue.new.keys) }
    ensures steps { steps.new ≤ steps.old + length row.now }
{
    for edge in row {
        steps.tick();
        let offer = Step {
            cost: u64::from(edge.cost) + cost,
            length: len + 1,
            ordinal: edge.ordinal,
            next: edge.target,
        };
        if improves(offer, opened.at(edge.source)) {
            queue.insert(Open {
                cost: offer.cost,
                node: edge.source,
            })?;
            opened.put(edge.source, offer);
        }
    }
    Ok(())
}

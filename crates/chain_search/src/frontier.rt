//! The open nodes, cheapest first.
ghost use Rattle.std.specs.Prelude.{◌≡◌, ◌<◌, length, IfSome, IfNone, MatchOption};
ghost use Rattle.chain_search.specs.Frontier.{IsOpenAt, Covers, CoversOthers, IsCheapest, NoneOpen};

use crate::step::Step;
use crate::table::Table;
use std::collections::BTreeSet;

/// A node with the cost of its open step.
#[derive(Clone, Copy, Debug, PartialEq, Eq, PartialOrd, Ord)]
pub struct Open {
    pub cost: u64,
    pub node: u32,
}

/// The open step that an entry of the queue stands for, unless the entry is out of date.
fn current(entry: Open, known: &Table, opened: &Table) -> Option<Step>
    ensures { MatchOption result ((s : Step) → IsOpenAt known.now opened.now entry s → ⊥)
        (IsOpenAt known.now opened.now entry) }
{
    if known.at(entry.node).is_some() {
        return None;
    }
    match opened.at(entry.node) {
        Some(step) if step.cost == entry.cost => Some(step),
        _ => None,
    }
}

/// Takes the cheapest open node out of the queue, with the entries out of date before it.
pub fn take_cheapest(
    queue: &mut BTreeSet<Open>,
    known: &Table,
    opened: &Table,
) -> Option<(u32, Step)>
    requires same { length known.now ≡ length opened.now }
    requires covers { Covers known.now opened.now queue.old.keys }
    ensures found { IfSome result (λ f. IsCheapest known.now opened.now f.0 f.1) }
    ensures rest { IfSome result (λ f. CoversOthers known.now opened.now queue.new.keys f.0) }
    ensures none { IfNone result (NoneOpen known.now opened.now) }
{
    while let Some(entry) = queue.pop_first() {
        if let Some(step) = current(entry, known, opened) {
            return Some((entry.node, step));
        }
    }
    None
}

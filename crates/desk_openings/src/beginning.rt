//! An opening is begun.
ghost use Rattle.std.specs.Prelude.{◌≡◌, ◌≤◌, ◌<◌, ◌+◌, ◌++◌, ◌∷◌, [], length, true, List};
ghost use Rattle.runtime_histories.specs.declared.entries.Entry as entry;
ghost use Rattle.runtime_histories.specs.Charmaps.{HasText};
ghost use Rattle.pair_openings.specs.Answers.{IsProper};
ghost use Rattle.pair_openings.specs.Knowing.{CountsSteps};
ghost use Rattle.runtime_room.specs.Published.{pair_asked};
ghost use Rattle.desk_openings.specs.Beginnings.{has_entry, KeepsDesk, HasCome, IsSorted};

use crate::publishing::known_chain;
use derivation_cache::View;
use outside::Library;
use pair_openings::{Begun, begin_asked};
use runtime_histories::{Asked, Refusal};
use runtime_room::{Desk, Noted};
use std::alloc::Global;
use std::snapshot::Snapshot;
use std::sync::ledger::Ledger;
use work_steps::Steps;

/// How an opening began: it can be made; it is lost without an entry; or it is refused, with its entry.
#[derive(Drop)]
pub enum Beginning {
    Begun(Begun),
    Lost(Refusal),
    Refused(Refusal, Noted),
}

/// Whether a refusal leaves an entry.
fn leaves_entry(why: &Refusal) -> bool
    ensures { result ≡ has_entry why.now }
{
    match why {
        Refusal::JournalFull { .. } => false,
        Refusal::Memory => false,
        _ => true,
    }
}

/// The last entry of the books.
fn last_entry<L>(desk: &Desk<L>) -> Noted
    requires { 0 < length desk.now.counts.journal }
    ensures { (es : List entry.Entry) (x : entry.Entry)
        → desk.now.counts.journal ≡ es ++ x ∷ [] → result.entry.value ≡ x }
{
    let at = desk.counts.journal().len() - 1;
    Noted {
        entry: Snapshot::of(&desk.counts.journal()[at]),
    }
}

/// A refusal, with the last entry where it left one.
fn sorted<L>(desk: &Desk<L>, why: Refusal) -> Beginning
    requires { has_entry why ≡ true → 0 < length desk.now.counts.journal }
    ensures { IsSorted desk.now.counts.journal why result }
{
    if leaves_entry(&why) {
        Beginning::Refused(why, last_entry(desk))
    } else {
        Beginning::Lost(why)
    }
}

/// Begins the opening of a pair over a desk. The chain is searched only where the view doesn't know it.
pub fn begin_on<L: Library, K: Ledger>(
    alloc: Global,
    desk: &mut Desk<L>,
    view: &View,
    caller: u32,
    from: Asked,
    to: Asked,
    steps: &mut Steps<K>,
) -> Beginning
    requires graph { desk.old.counts.graph ≡ desk.old.graph }
    requires text { HasText desk.old.graph }
    requires view { view.now.graph ≡ desk.old.graph }
    requires from { IsProper from }
    requires to { IsProper to }
    ensures come { HasCome L.holdings desk.old desk.new caller from to result }
    ensures desk { KeepsDesk L.holdings desk.old desk.new }
    ensures steps { CountsSteps (length desk.old.graph.edges) (pair_asked view.now from to)
        steps.old steps.new }
{
    let known = known_chain(view, &from, &to);
    match begin_asked(
        alloc,
        &mut desk.counts,
        &desk.graph,
        &mut desk.library,
        desk.directory.as_str(),
        caller,
        from,
        to,
        known,
        steps,
    ) {
        Ok(begun) => Beginning::Begun(begun),
        Err(why) => sorted(desk, why),
    }
}

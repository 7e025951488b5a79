//! What an opening by two names as asked is answered.
ghost use Rattle.std.specs.Prelude.{◌≡◌, length, IfOk, IfErr};
ghost use Rattle.runtime_histories.specs.Charmaps.{HasText};
ghost use Rattle.runtime_histories.specs.Entries.{deeds};
ghost use Rattle.pair_openings.specs.Answers.{IsProper, Answers, Refuses};
ghost use Rattle.pair_openings.specs.Knowing.{IsKnown, CountsSteps};

use crate::planning::{Opening, plan};
use chain_search::Chain;
use module_counts::Counts;
use module_graph::Graph;
use outside::Library;
use runtime_histories::{Asked, End, Refusal};
use std::alloc::Global;
use std::sync::ledger::Ledger;
use work_steps::Steps;

/// Decides an opening by two names as asked. A bad name is told, that of the source before the other.
pub fn decide<L: Library, K: Ledger>(
    alloc: Global,
    counts: &Counts,
    graph: &Graph,
    library: &mut L,
    dir: &str,
    from: &Asked,
    to: &Asked,
    known: Option<&Chain>,
    steps: &mut Steps<K>,
) -> Result<Opening, Refusal>
    requires graph { graph.now ≡ counts.now.graph }
    requires text { HasText graph.now }
    requires from { IsProper from.now }
    requires to { IsProper to.now }
    requires known { IsKnown graph.now from.now to.now known }
    ensures ok { IfOk result (Answers (record { directory = dir.now; graph = graph.now; pages = counts.now.pages; log = deeds counts.now.journal })
        (L.holdings library.old) (L.holdings library.new) from.now to.now) }
    ensures err { IfErr result (Refuses (record { directory = dir.now; graph = graph.now; pages = counts.now.pages; log = deeds counts.now.journal })
        (L.holdings library.old) (L.holdings library.new) from.now to.now) }
    ensures steps { CountsSteps (length graph.now.edges) known.entry steps.old steps.new }
{
    match (from, to) {
        (Asked::Good(from), Asked::Good(to)) => {
            plan(alloc, counts, graph, library, dir, from, to, known, steps)
        }
        (Asked::Bad(fault), _) => Err(Refusal::BadName {
            which: End::From,
            fault: *fault,
        }),
        (Asked::Good(_), Asked::Bad(fault)) => Err(Refusal::BadName {
            which: End::To,
            fault: *fault,
        }),
    }
}

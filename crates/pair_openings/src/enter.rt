//! Openings are entered into the books.
ghost use Rattle.std.specs.Prelude.{◌≡◌, ◌+◌, ◌≤◌, length, map};
ghost use Rattle.runtime_histories.specs.Deeds.{live};
ghost use Rattle.runtime_histories.specs.Entries.{deeds, loaded_of};
ghost use Rattle.runtime_histories.specs.Places.{places};
ghost use Rattle.module_counts.specs.Stocks.{lists, places_for};
ghost use Rattle.pair_openings.specs.Answers.{reply_of};
ghost use Rattle.pair_openings.specs.Entered.{Enters, IsNextIn, entry_of};

use crate::planning::Opening;
use module_counts::Counts;
use module_graph::Graph;
use runtime_histories::{Asked, Entry, Event, Loads, ModuleTables, Refusal, Reply};
use std::alloc::Global;
use std::snapshot::Snapshot;

/// Enters an opening that is refused.
pub fn enter_refusal(
    alloc: Global,
    counts: &mut Counts,
    graph: &Graph,
    caller: u32,
    from: Asked,
    to: Asked,
    why: Refusal,
)
    requires graph { graph.now ≡ counts.old.graph }
    requires room { length (live (deeds counts.old.journal)) + 2 ≤ counts.old.spare }
    requires legal { IsNextIn counts.old from to (Reply.Refused why) }
    ensures { Enters counts.old counts.new (entry_of caller from to (Reply.Refused why)) }
{
    let entry = Entry {
        caller,
        event: Event::Opening {
            from,
            to,
            reply: Reply::Refused(why),
        },
    };
    counts.admit(graph, entry, Vec::new(alloc));
}

/// Enters an opening that can be made, and answers its number and the tables that it loaded.
pub fn enter_opening(
    counts: &mut Counts,
    graph: &Graph,
    caller: u32,
    from: Asked,
    to: Asked,
    opening: Opening,
) -> (u64, Vec<ModuleTables>)
    requires graph { graph.now ≡ counts.old.graph }
    requires room { length (live (deeds counts.old.journal)) + 2 ≤ counts.old.spare }
    requires legal { IsNextIn counts.old from to (reply_of opening) }
    requires placed { lists opening.places.items ≡ places_for counts.old.pages (map loaded_of opening.loads.items)
        (places counts.old.pages (deeds counts.old.journal)) }
    ensures enters { Enters counts.old counts.new (entry_of caller from to (reply_of opening)) }
    ensures number { result.0 ≡ length counts.old.journal }
    ensures tables { result.1 ≡ opening.tables }
{
    let Opening {
        chain,
        modules,
        loads,
        tables,
        places,
    } = opening;
    let entry = Entry {
        caller,
        event: Event::Opening {
            from,
            to,
            reply: Reply::Opened {
                chain: chain.ordinals,
                cost: chain.cost,
                loaded: Loads::new(loads),
                modules: Snapshot::of(&modules),
            },
        },
    };
    let number = counts.admit(graph, entry, places);
    (number, tables)
}

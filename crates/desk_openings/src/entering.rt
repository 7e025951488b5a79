//! An opening is entered.
ghost use Rattle.std.specs.Prelude.{◌≡◌, ◌≤◌, ◌+◌, length};
ghost use Rattle.runtime_histories.specs.Deeds.{live};
ghost use Rattle.runtime_histories.specs.Entries.{deeds};
ghost use Rattle.module_counts.specs.Stocks.{lists, places_for};
ghost use Rattle.pair_openings.specs.Answers.{reply_of};
ghost use Rattle.pair_openings.specs.Entered.{IsNextIn, entry_of};
ghost use Rattle.desk_openings.specs.Entering.{EntersOn};
ghost use Rattle.runtime_histories.specs.Places.{places};
ghost use Rattle.desk_openings.specs.Preparing.{loads_of};

use pair_openings::{Opening, enter_opening};
use runtime_histories::Asked;
use runtime_room::{Desk, Noted};
use std::snapshot::Snapshot;

/// Enters an opening that can be made, and answers its position and its entry. It takes no memory.
pub fn enter<L>(
    desk: &mut Desk<L>,
    caller: u32,
    from: Asked,
    to: Asked,
    opening: Opening,
) -> (u64, Noted)
    requires graph { desk.old.counts.graph ≡ desk.old.graph }
    requires room { length (live (deeds desk.old.counts.journal)) + 2 ≤ desk.old.counts.spare }
    requires legal { IsNextIn desk.old.counts from to (reply_of opening) }
    requires placed { lists opening.places.items
        ≡ places_for desk.old.counts.pages (loads_of opening)
        (places desk.old.counts.pages (deeds desk.old.counts.journal)) }
    ensures number { result.0 ≡ length desk.old.counts.journal }
    ensures entry { result.1.entry.value ≡ entry_of caller from to (reply_of opening) }
    ensures desk { EntersOn desk.old desk.new result.1 }
{
    let (number, _) = enter_opening(&mut desk.counts, &desk.graph, caller, from, to, opening);
    let at = desk.counts.journal().len() - 1;
    let entry = Noted {
        entry: Snapshot::of(&desk.counts.journal()[at]),
    };
    (number, entry)
}

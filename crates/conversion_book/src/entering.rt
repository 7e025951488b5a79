//! Openings are entered, with what their descriptors need.
ghost use Rattle.std.specs.Prelude.{◌≡◌, ◌+◌, ◌≤◌, ◌++◌, ◌∷◌, [], List, length, map, IfOk, OnErr, OnOk, vec_len, vec_capacity};
ghost use Rattle.runtime_histories.specs.Deeds.{live};
ghost use Rattle.runtime_histories.specs.Entries.{deeds, loaded_of};
ghost use Rattle.runtime_histories.specs.Places.{places};
ghost use Rattle.module_counts.specs.Stocks.{lists, places_for};
ghost use Rattle.pair_openings.specs.Answers.{reply_of};
ghost use Rattle.pair_openings.specs.Entered.{IsNextIn};
ghost use Rattle.conversion_book.specs.Descriptors.{held_as, kept_as};
ghost use Rattle.conversion_book.specs.Preparing.{IsLed, IsEntered};

use crate::descriptor::Descriptor;
use crate::kept::{Kept, keep_on};
use crate::preparing::{Prepared, prepare};
use chain_steps::Runner;
use module_counts::Counts;
use module_graph::Graph;
use pair_openings::{Begun, enter_opening};
use std::alloc::{AllocError, Global};

/// Makes room for modules and for one descriptor.
fn make_room(
    kept: &mut Vec<Kept>,
    held: &mut Vec<Descriptor>,
    loads: usize,
) -> Result<(), AllocError>
    ensures kept { kept.new.items ≡ kept.old.items }
    ensures held { held.new.items ≡ held.old.items }
    ensures room { OnOk result ((vec_len kept.new + loads ≤ vec_capacity kept.new)
        × (vec_len held.new + 1 ≤ vec_capacity held.new)) }
{
    kept.reserve(loads)?;
    held.reserve(1)?;
    Ok(())
}

/// Appends a descriptor, for which there is room.
fn push_within(held: &mut Vec<Descriptor>, descriptor: Descriptor)
    requires { vec_len held.old + 1 ≤ vec_capacity held.old }
    ensures { held.new.items ≡ held.old.items ++ descriptor ∷ [] }
{
    match held.push(descriptor) {
        Ok(()) => {}
        Err(_) => unreachable!(),
    }
}

/// Enters an opening that was begun, and makes its descriptor. All memory is taken before.
pub fn enter(
    alloc: Global,
    counts: &mut Counts,
    graph: &Graph,
    kept: &mut Vec<Kept>,
    held: &mut Vec<Descriptor>,
    caller: u32,
    begun: Begun,
) -> Result<u64, AllocError>
    requires graph { graph.now ≡ counts.old.graph }
    requires room { length (live (deeds counts.old.journal)) + 2 ≤ counts.old.spare }
    requires legal { IsNextIn counts.old begun.from begun.to (reply_of begun.opening) }
    requires placed { lists begun.opening.places.items ≡ places_for counts.old.pages
        (map loaded_of begun.opening.loads.items) (places counts.old.pages (deeds counts.old.journal)) }
    requires led { IsLed graph.now begun.opening.chain }
    requires tables { map (λ l. l.tables) (map loaded_of begun.opening.loads.items) ≡ begun.opening.tables.items }
    ensures ok { IfOk result (IsEntered counts.old counts.new (map kept_as kept.old.items) (map kept_as kept.new.items)
        (map held_as held.old.items) (map held_as held.new.items) caller begun) }
    ensures err { OnErr result ((counts.new ≡ counts.old) × (kept.new.items ≡ kept.old.items)
        × (held.new.items ≡ held.old.items)) }
{
    let Begun { from, to, opening } = begun;
    let Prepared {
        opening,
        loaded,
        tables,
        recipe,
    } = prepare(alloc, graph, kept.as_slice(), opening)?;
    make_room(kept, held, loaded.len())?;
    let (number, _) = enter_opening(counts, graph, caller, from, to, opening);
    keep_on(kept, loaded, graph, counts);
    push_within(
        held,
        Descriptor {
            number,
            tables,
            runner: Runner::new(recipe),
        },
    );
    Ok(number)
}

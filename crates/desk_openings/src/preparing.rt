//! What an opening needs besides its entry.
ghost use Rattle.std.specs.Prelude.{◌≡◌, Some, map, IfOk, OnErr};
ghost use Rattle.chain_recipes.specs.Recipes.{recipe_for};
ghost use Rattle.conversion_book.specs.Preparing.{IsLed};
ghost use Rattle.pair_openings.specs.Knowing.{IsLeastFor};
ghost use Rattle.runtime_histories.specs.Legal.{loaded_modules};
ghost use Rattle.desk_openings.specs.Preparing.{CanPrepare, LaysOut, IsReady, loads_of};

use crate::layouts::keep_layouts;
use crate::pins::chain_pins;
use crate::points::see_points;
use crate::publishing::publish;
use chain_recipes::recipe_of;
use chain_search::{Chain, least_chains_are_short};
use chain_steps::Recipe;
use module_graph::{Graph, edges_are_found};
use page_store::Pin;
use pair_openings::{Begun, Opening};
use runtime_histories::Asked;
use runtime_room::Desk;
use std::alloc::{AllocError, Global};
use std::sync::Wait;

/// An opening that can be entered, with the pins of its chain's tables and its recipe.
#[derive(Drop)]
pub struct Ready {
    pub from: Asked,
    pub to: Asked,
    pub opening: Opening,
    pub pins: Vec<Pin>,
    pub recipe: Recipe,
}

/// The recipe of a least chain.
fn recipe_along(alloc: Global, graph: &Graph, chain: &Chain) -> Result<Recipe, AllocError>
    requires { IsLed graph.now chain.now }
    ensures { IfOk result (λ r. recipe_for graph.now chain.now.ordinals ≡ Some r) }
{
    least_chains_are_short();
    edges_are_found();
    let _nodes = graph.nodes();
    recipe_of(alloc, graph, chain)
}

/// Takes all memory that an opening needs: for the parts of its images, its pins, its recipe and its
/// pair, which it publishes last.
pub fn prepare<R: Wait, L>(
    rt: &R,
    alloc: Global,
    desk: &mut Desk<L>,
    begun: Begun,
) -> Result<Ready, AllocError>
    requires can { CanPrepare desk.old.graph desk.old.counts.pages desk.old.counts.journal
        desk.old.layouts.items begun.opening }
    requires least { IsLeastFor desk.old.cache.graph begun.from begun.to begun.opening.chain }
    ensures desk { LaysOut desk.old desk.new (loaded_modules (loads_of begun.opening)) }
    ensures ok { IfOk result (IsReady desk.old desk.new begun) }
    ensures err { OnErr result (desk.new.cache ≡ desk.old.cache) }
{
    let Begun { from, to, opening } = begun;
    let recipe = recipe_along(alloc, &desk.graph, &opening.chain)?;
    see_points(opening.tables.as_slice());
    let loads = opening.loads.as_slice();
    keep_layouts(alloc, &mut desk.layouts, loads, opening.tables.as_slice())?;
    let pins = chain_pins(
        alloc,
        &desk.counts,
        desk.layouts.as_slice(),
        opening.loads.as_slice(),
        opening.places.as_slice(),
        opening.modules.as_slice(),
    )?;
    publish(rt, alloc, &mut desk.cache, &from, &to, &opening.chain)?;
    Ok(Ready {
        from,
        to,
        opening,
        pins,
        recipe,
    })
}

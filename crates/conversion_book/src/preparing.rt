//! What an opening needs besides its entry.
ghost use Rattle.std.specs.Prelude.{◌≡◌, ◌++◌, List, length, map, Some, IfOk};
ghost use Rattle.module_graph.specs.Graph.{IsGraph};
ghost use Rattle.chain_recipes.specs.Recipes.{recipe_for};
ghost use Rattle.runtime_histories.specs.Deeds.{Loaded};
ghost use Rattle.runtime_histories.specs.Entries.{loaded_of};
ghost use Rattle.runtime_histories.specs.Settings.{Leads};
ghost use Rattle.pair_openings.specs.Answers.{reply_of};
ghost use Rattle.conversion_book.specs.ChainTables as tables;
ghost use Rattle.conversion_book.specs.Descriptors.{kept_as};
ghost use Rattle.conversion_book.specs.Preparing.{IsLed, IsPrepared};

use crate::kept::{Kept, chain_tables, keep_loads};
use crate::shared::SharedTables;
use chain_recipes::recipe_of;
use chain_search::{Chain, least_chains_are_short};
use chain_steps::Recipe;
use module_graph::{Graph, edges_are_found};
use pair_openings::Opening;
use std::alloc::{AllocError, Global};

/// An opening that can be entered: what it loads, the tables of its chain, and its recipe.
#[derive(Drop)]
pub struct Prepared {
    pub opening: Opening,
    pub loaded: Vec<Kept>,
    pub tables: SharedTables,
    pub recipe: Recipe,
}

/// The recipe of a least chain.
fn recipe_along(alloc: Global, graph: &Graph, chain: &Chain) -> Result<Recipe, AllocError>
    requires { IsLed graph.now chain.now }
    ensures { IfOk result (λ r. recipe_for graph.now chain.now.ordinals ≡ Some r) }
{
    least_chains_are_short();
    edges_are_found();
    let _nodes = graph.nodes();
    recipe_of(alloc, graph, chain)
}

/// Takes all memory that an opening needs. Its tables are shared from here on.
pub fn prepare(
    alloc: Global,
    graph: &Graph,
    kept: &[Kept],
    opening: Opening,
) -> Result<Prepared, AllocError>
    requires led { IsLed graph.now opening.chain }
    requires tables { map (λ l. l.tables) (map loaded_of opening.loads.items) ≡ opening.tables.items }
    ensures { IfOk result (IsPrepared graph.now (map kept_as kept.now) opening) }
{
    let Opening {
        chain,
        modules,
        loads,
        tables,
        places,
    } = opening;
    let recipe = recipe_along(alloc, graph, &chain)?;
    let loaded = keep_loads(alloc, loads.as_slice(), tables)?;
    let tables = chain_tables(alloc, kept, loaded.as_slice(), modules.as_slice())?;
    Ok(Prepared {
        opening: Opening {
            chain,
            modules,
            loads,
            tables: Vec::new(alloc),
            places,
        },
        loaded,
        tables,
        recipe,
    })
}

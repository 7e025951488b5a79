//! Modules that are kept, with their tables.
ghost use Rattle.std.specs.Prelude.{◌≡◌, ◌++◌, ◌∷◌, [], List, length, map, IfOk, OnOk, MatchOption, vec_len, vec_capacity, ◌+◌, ◌≤◌, ◌<◌, nat_lt, ◌&&◌};
ghost use Rattle.runtime_histories.specs.Deeds.{Loaded, marks};
ghost use Rattle.runtime_histories.specs.Entries.{deeds, loaded_of};
ghost use Rattle.runtime_histories.specs.Residence.{resident};
ghost use Rattle.conversion_book.specs.ChainTables.{tables_of, chain_tables};
ghost use Rattle.conversion_book.specs.Preparing.{still_kept};
ghost use Rattle.conversion_book.specs.Descriptors.{kept_as};

use crate::shared::SharedTables;
use module_counts::Counts;
use module_graph::Graph;
use runtime_histories::{Load, ModuleTables};
use std::alloc::{AllocError, Global};

/// A module that is kept, with its tables.
#[derive(Drop)]
pub struct Kept {
    pub module: u32,
    pub tables: SharedTables,
}

/// Appends a loaded module, if there are tables for it.
fn push_kept(
    alloc: Global,
    kept: &mut Vec<Kept>,
    module: u32,
    tables: Option<ModuleTables>,
) -> Result<(), AllocError>
    ensures { OnOk result (MatchOption tables (map kept_as kept.new.items ≡ map kept_as kept.old.items)
        (λ t. map kept_as kept.new.items ≡ map kept_as kept.old.items ++ record { «module» = «module»; tables = t } ∷ [])) }
{
    match tables {
        Some(tables) => {
            let tables = SharedTables::of(alloc, tables)?;
            kept.push(Kept { module, tables })?;
            Ok(())
        }
        None => Ok(()),
    }
}

/// The modules that were loaded, with their tables.
pub fn keep_loads(
    alloc: Global,
    loads: &[Load],
    tables: Vec<ModuleTables>,
) -> Result<Vec<Kept>, AllocError>
    requires { map (λ l. l.tables) (map loaded_of loads.now) ≡ tables.items }
    ensures { IfOk result (λ v. map kept_as v.items ≡ map loaded_of loads.now) }
{
    let mut kept = Vec::new(alloc);
    let mut rest = tables.into_iter();
    for load in loads {
        push_kept(alloc, &mut kept, load.module, rest.next())?;
    }
    Ok(kept)
}

/// The tables of a module.
fn find_tables(kept: &[Kept], module: u32) -> Option<&SharedTables>
    ensures { (more : List Loaded) → MatchOption result
        (tables_of «module» (map kept_as kept.now ++ more) ≡ tables_of «module» more)
        (λ t. tables_of «module» (map kept_as kept.now ++ more) ≡ t.now) }
{
    for item in kept {
        if item.module == module {
            return Some(&item.tables);
        }
    }
    None
}

/// Tables, and behind them those of a module among kept ones, else among loaded ones.
fn with_module(
    all: SharedTables,
    kept: &[Kept],
    loaded: &[Kept],
    module: u32,
) -> Result<SharedTables, AllocError>
    ensures { IfOk result (λ t. t ≡ all ++ tables_of «module» (map kept_as kept.now ++ map kept_as loaded.now)) }
{
    match find_tables(kept, module) {
        Some(tables) => all.with(tables),
        None => match find_tables(loaded, module) {
            Some(tables) => all.with(tables),
            None => Ok(all),
        },
    }
}

/// The tables of a chain's modules, in the order of its steps.
pub fn chain_tables(
    alloc: Global,
    kept: &[Kept],
    loaded: &[Kept],
    modules: &[u32],
) -> Result<SharedTables, AllocError>
    ensures { IfOk result (λ t. t ≡ chain_tables (map kept_as kept.now ++ map kept_as loaded.now) modules.now) }
{
    let mut all = SharedTables::new(alloc);
    for module in modules {
        all = with_module(all, kept, loaded, *module)?;
    }
    Ok(all)
}

/// Whether a module is resident; one that isn't known isn't.
fn is_resident(graph: &Graph, counts: &Counts, module: u32) -> bool
    requires { graph.now ≡ counts.now.graph }
    ensures { result ≡ (nat_lt «module» (length counts.now.graph.kinds)
        && resident (marks (deeds counts.now.journal)) «module») }
{
    module < graph.modules() && counts.resident(module)
}

/// Leaves out the modules that aren't resident.
pub fn keep_resident(kept: &mut Vec<Kept>, graph: &Graph, counts: &Counts)
    requires graph { graph.now ≡ counts.now.graph }
    ensures items { map kept_as kept.new.items
        ≡ still_kept (length counts.now.graph.kinds) (deeds counts.now.journal) (map kept_as kept.old.items) }
    ensures room { vec_capacity kept.new ≡ vec_capacity kept.old }
{
    kept.retain(
        |item|
            requires { graph.now ≡ counts.now.graph }
            ensures value { result ≡ (nat_lt item.now.«module» (length counts.entry.now.graph.kinds)
                && resident (marks (deeds counts.entry.now.journal)) item.now.«module») }
            ensures same { (graph.exit ≡ graph.entry) × (counts.exit ≡ counts.entry) }
        { is_resident(graph, counts, item.module) },
    );
}

/// Takes in the modules that were loaded, for which there is room, and leaves out those that aren't
/// resident.
pub fn keep_on(kept: &mut Vec<Kept>, loaded: Vec<Kept>, graph: &Graph, counts: &Counts)
    requires graph { graph.now ≡ counts.now.graph }
    requires room { vec_len kept.old + vec_len loaded ≤ vec_capacity kept.old }
    ensures { map kept_as kept.new.items ≡ still_kept (length counts.now.graph.kinds)
        (deeds counts.now.journal) (map kept_as kept.old.items ++ map kept_as loaded.items) }
{
    let mut loaded = loaded;
    match kept.append(&mut loaded) {
        Ok(()) => {}
        Err(_) => unreachable!(),
    }
    keep_resident(kept, graph, counts);
}

//! What an opening by two good names is answered.
ghost use Rattle.std.specs.Prelude.{◌≡◌, ◌<◌, ◌≤◌, ◌^◌, ◌++◌, length, All, IfOk, IfErr, IfSome, OnOk};
ghost use Rattle.runtime_histories.specs.Charmaps.{HasText};
ghost use Rattle.runtime_histories.specs.Entries.{deeds};
ghost use Rattle.runtime_histories.specs.Settings.{Leads, module_at, modules_of};
ghost use Rattle.module_counts.specs.Tracking.{listed};
ghost use Rattle.pair_openings.specs.Cuts.{needs, total};
ghost use Rattle.pair_openings.specs.Knowing.{CountsSteps};
ghost use Rattle.pair_openings.specs.Loading.{IsLoaded, RefusesLoads};
ghost use Rattle.pair_openings.specs.Plans.{IsArranged, IsPlanned, Denies};

use crate::loads::loads_of;
use crate::parts::{cut, pages_needed};
use crate::search::chain_for;
use chain_search::{Chain, Ordinals};
use charmap_library::fetch_missing;
use module_counts::Counts;
use module_graph::Graph;
use names_alias::Name;
use outside::Library;
use runtime_histories::{Load, ModuleTables, Refusal};
use std::alloc::{AllocError, Global};
use std::sync::ledger::Ledger;
use work_steps::Steps;

/// An opening that can be made: its chain, the modules of the chain's steps, the modules that it
/// loads with their tables, and the pages of each of these.
#[derive(Drop)]
pub struct Opening {
    pub chain: Chain,
    pub modules: Ordinals,
    pub loads: Vec<Load>,
    pub tables: Vec<ModuleTables>,
    pub places: Vec<Vec<u32>>,
}

/// Tables of modules, and pages for all of them.
#[derive(Drop)]
struct Loading {
    pub tables: Vec<ModuleTables>,
    pub pages: Vec<u32>,
}

/// Fetches the tables of modules, and chooses pages for them.
fn load<L: Library>(
    alloc: Global,
    counts: &Counts,
    graph: &Graph,
    library: &mut L,
    dir: &str,
    missing: &[u32],
) -> Result<Loading, Refusal>
    requires known { All (λ m. m < length graph.now.kinds) missing.now }
    requires text { HasText graph.now }
    ensures ok { IfOk result (λ r. IsLoaded (record { directory = dir.now; graph = graph.now; pages = counts.now.pages; log = deeds counts.now.journal })
        (L.holdings library.old) (L.holdings library.new) missing.now r.tables.items r.pages.items) }
    ensures err { IfErr result (RefusesLoads (record { directory = dir.now; graph = graph.now; pages = counts.now.pages; log = deeds counts.now.journal })
        (L.holdings library.old) (L.holdings library.new) missing.now) }
{
    let tables = match fetch_missing(alloc, graph, library, dir, missing) {
        Ok(tables) => tables,
        Err(why) => return Err(why),
    };
    let Some(need) = pages_needed(tables.as_slice()) else {
        return Err(Refusal::Memory);
    };
    match counts.choose(alloc, need) {
        Ok(pages) => Ok(Loading { tables, pages }),
        Err(why) => Err(why),
    }
}

/// The module of the edge of an ordinal, if it has one.
fn module_of(graph: &Graph, ordinal: u32) -> Option<u32>
    ensures { result ≡ module_at graph.now.edges ordinal }
{
    match graph.edge(ordinal) {
        Some(edge) => edge.module,
        None => None,
    }
}

/// Appends a module, if there is one.
fn push_module(modules: &mut Vec<u32>, module: Option<u32>) -> Result<(), AllocError>
    ensures { OnOk result (modules.new.items ≡ modules.old.items ++ listed «module») }
{
    if let Some(number) = module {
        modules.push(number)?;
    }
    Ok(())
}

/// The modules of the steps of a chain.
fn modules_along(alloc: Global, graph: &Graph, ordinals: &[u32]) -> Result<Ordinals, AllocError>
    ensures { IfOk result (λ v. v ≡ modules_of graph.now.edges ordinals.now) }
{
    let mut modules = Vec::new(alloc);
    for ordinal in ordinals {
        push_module(&mut modules, module_of(graph, *ordinal))?;
    }
    Ok(Ordinals::new(modules))
}

/// What is said of an opening whose modules were loaded.
fn arrange(
    alloc: Global,
    graph: &Graph,
    chain: Chain,
    missing: &[u32],
    loading: Loading,
) -> Result<Opening, AllocError>
    requires same { length missing.now ≡ length loading.tables.items }
    requires few { total (needs loading.tables.items) < 2 ^ 32 }
    requires enough { total (needs loading.tables.items) ≤ length loading.pages.items }
    ensures { IfOk result (IsArranged graph.now chain missing.now loading.tables.items loading.pages.items) }
{
    let modules = modules_along(alloc, graph, chain.ordinals.as_slice())?;
    let loads = loads_of(alloc, missing, loading.tables.as_slice())?;
    let places = cut(alloc, loading.pages.as_slice(), loading.tables.as_slice())?;
    Ok(Opening {
        chain,
        modules,
        loads,
        tables: loading.tables,
        places,
    })
}

/// Decides an opening by two good names: the least chain between them, which is searched only where
/// it isn't known, the tables of its absent modules, and their pages.
pub fn plan<L: Library, K: Ledger>(
    alloc: Global,
    counts: &Counts,
    graph: &Graph,
    library: &mut L,
    dir: &str,
    from: &Name,
    to: &Name,
    known: Option<&Chain>,
    steps: &mut Steps<K>,
) -> Result<Opening, Refusal>
    requires graph { graph.now ≡ counts.now.graph }
    requires text { HasText graph.now }
    requires known { IfSome known (λ chain. Leads graph.now from.now to.now chain.now) }
    ensures ok { IfOk result (IsPlanned (record { directory = dir.now; graph = graph.now; pages = counts.now.pages; log = deeds counts.now.journal })
        (L.holdings library.old) (L.holdings library.new) from.now to.now) }
    ensures err { IfErr result (Denies (record { directory = dir.now; graph = graph.now; pages = counts.now.pages; log = deeds counts.now.journal })
        (L.holdings library.old) (L.holdings library.new) from.now to.now) }
    ensures steps { CountsSteps (length graph.now.edges) known.entry steps.old steps.new }
{
    let chain = match chain_for(alloc, graph, from, to, known, steps) {
        Ok(Some(chain)) => chain,
        Ok(None) => return Err(Refusal::NoConversion),
        Err(_) => return Err(Refusal::Memory),
    };
    let Ok(missing) = counts.missing(alloc, graph, &chain) else {
        return Err(Refusal::Memory);
    };
    let _edges = graph.edges();
    let loading = match load(alloc, counts, graph, library, dir, missing.as_slice()) {
        Ok(loading) => loading,
        Err(why) => return Err(why),
    };
    match arrange(alloc, graph, chain, missing.as_slice(), loading) {
        Ok(opening) => Ok(opening),
        Err(_) => Err(Refusal::Memory),
    }
}

//! A runtime is made.
ghost use Rattle.std.specs.Prelude.{◌≡◌, ◌≤◌, ◌<◌, ◌*◌, ◌^◌, [], length, string_bytes, All, IfOk, IfErr};
ghost use Rattle.derivation_cache.specs.Known.{Known};
ghost use Rattle.module_counts.specs.Counting.{IsKnown};
ghost use Rattle.runtime_histories.specs.Charmaps.{HasText};
ghost use Rattle.gconv_runtime.specs.Tokens.{Leads, lead_front, next_number, away_of, ended_of};
ghost use Rattle.gconv_runtime.specs.Tokens.{lead_ground};

use crate::tokens::{Gconv, Lead, NoMemory};
use derivation_cache::{Cache, Told, View};
use history_core::Hall;
use module_counts::Counts;
use module_graph::Graph;
use names_alias::Aliases;
use outside::Library;
use runtime_room::{Desk, Room};
use std::alloc::{AllocError, Global};
use std::snapshot::Snapshot;
use std::sync::Wait;

/// What callers and the lead know at first.
#[derive(Drop)]
struct Heard {
    views: Vec<View>,
    told: Told,
}

/// So many views.
fn views_of(alloc: Global, cache: &mut Cache, count: u32) -> Result<Vec<View>, AllocError>
    ensures same { cache.new ≡ cache.old }
    ensures views { IfOk result (λ v. All (λ (k : Known). k ≡ cache.old) v.items) }
{
    let mut views = Vec::new(alloc);
    for _ in 0..count {
        views.push(cache.view()?)?;
    }
    Ok(views)
}

/// So many views, and what the lead is told.
fn heard_of(alloc: Global, cache: &mut Cache, count: u32) -> Result<Heard, AllocError>
    ensures same { cache.new ≡ cache.old }
    ensures views { IfOk result (λ h. All (λ (k : Known). k ≡ cache.old) h.views.items) }
    ensures told { IfOk result (λ h. h.told ≡ cache.old) }
{
    let views = views_of(alloc, cache, count)?;
    let told = cache.tell().ok_or(AllocError)?;
    Ok(Heard { views, told })
}

/// Ends what a runtime would have, and gives back its library.
fn refused<R: Wait, L>(rt: &R, desk: Desk<L>) -> NoMemory<L>
    ensures { result.library ≡ desk.library }
{
    let Desk {
        counts: _,
        graph: _,
        aliases: _,
        library,
        directory: _,
        layouts: _,
        cache,
        first: _,
    } = desk;
    cache.end(rt);
    NoMemory { library }
}

impl<L: Library> Gconv<L> {
    /// A runtime with the empty history, over a graph with its aliases, a library and the directory
    /// of its charmaps, a store of so many pages, for so many callers, and with a journal of at most
    /// so many entries.
    pub fn new<R: Wait>(
        rt: &R,
        alloc: Global,
        graph: Graph,
        aliases: Aliases,
        library: L,
        directory: String,
        pages: u32,
        callers: u32,
        journal_limit: u32,
    ) -> Result<(Gconv<L>, Lead<L>), NoMemory<L>>
        requires known { IsKnown graph (length graph.kinds) }
        requires text { HasText graph }
        requires pages { pages ≤ 2 ^ 16 }
        requires callers { (0 < callers) × (callers ≤ 64) }
        requires limit { journal_limit ≤ 2 ^ 24 }
        ensures lead { IfOk result (λ made. Leads made.0 made.1 × (next_number made.1 ≡ 1)) }
        ensures empty { IfOk result (λ made.
            (lead_front made.1 ≡ []) × (away_of made.1 ≡ []) × (ended_of made.1 ≡ [])) }
        ensures ground { IfOk result (λ made. lead_ground made.0 made.1 ≡ record {
          setting = record {
            first = record { graph = graph; aliases = aliases };
            source = record {
              directory = string_bytes directory;
              texts = (L.holdings library).told;
            };
            pages = pages;
          };
          limit = journal_limit;
          handed = L.holdings library;
        }) }
        ensures err { IfErr result (λ e. e.library ≡ library) }
    {
        let Ok(counts) = Counts::new(alloc, &graph, pages, journal_limit) else {
            return Err(NoMemory { library });
        };
        let Ok(cache) = Cache::new(rt, alloc, &graph, callers) else {
            return Err(NoMemory { library });
        };
        let first = Snapshot::of(&library);
        let known = Snapshot::of(&aliases);
        let mut desk = Desk {
            counts,
            graph,
            aliases: known,
            library,
            directory,
            layouts: Vec::new(alloc),
            cache,
            first,
        };
        let Ok(heard) = heard_of(alloc, &mut desk.cache, callers) else {
            return Err(refused(rt, desk));
        };
        match Hall::<Room<L>>::new(alloc, desk, 256 * pages) {
            Ok((hall, lead)) => {
                let Heard { views, told } = heard;
                Ok((Gconv { hall, aliases }, Lead { lead, views, told }))
            }
            Err(history_core::NoHall { value }) => Err(refused(rt, value)),
        }
    }
}

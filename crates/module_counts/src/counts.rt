//! The bookkeeping of one thread.
ghost use Rattle.std.specs.Prelude.{◌≡◌, ℕ, ◌+◌, ◌<◌, ◌^◌, ◌==◌, ◌&&◌, not, [], length, IfOk, OnOk};
ghost use Rattle.std.specs.List.{list_any, filter};
ghost use Rattle.module_graph.specs.Numbers.{with_new};
ghost use Rattle.runtime_histories.specs.Settings.{modules_of};
ghost use Rattle.module_counts.specs.Tracking.{is_kept, listed};

use crate::ages::{Ages, module_of};
use crate::homes::Homes;
use crate::lives::Lives;
use crate::stock::Stock;
use crate::store::{lowest_free, push_within, taken_pages};
use chain_search::Chain;
use module_graph::Graph;
use runtime_histories::{Entry, Event, Refusal};
use std::alloc::{AllocError, Global};
use std::marker::Model;
use std::snapshot::Snapshot;

/// A journal, and what it stands for: which descriptors are live, which modules are resident, and in
/// which pages their tables are. It has no tables.
#[derive(Drop)]
pub struct Counts {
    graph: Snapshot<Graph>,
    journal: Vec<Entry>,
    stock: Stock,
    limit: u32,
}

impl Model for Counts {
    ghost use Rattle.std.specs.Prelude.{length, min, vec_capacity, ◌-◌, ◌+◌};
    ghost use Rattle.module_counts.specs.Counting.{Booked};

    ghost Value = { Booked };

    ghost use Rattle.module_counts.specs.Inside.{spare_of, IsCounted};

    ghost view = { λ c. record {
      graph = c.graph.value;
      pages = c.stock.pages;
      limit = c.limit;
      journal = c.journal.items;
      spare = spare_of c;
    } };

    ghost invariant = { IsCounted };
}

impl Counts {
    ghost use Rattle.std.specs.Prelude.{◌≡◌, ℕ, ◌+◌, ◌-◌, ◌<◌, ◌≤◌, ◌↔◌, List, [], ◌∷◌, ◌++◌, length, map, min, true, IsTrue, IfOk, IfErr, OnOk, OnErr, MatchResult};
    ghost use Rattle.runtime_histories.specs.Deeds.{IsLive, live, marks};
    ghost use Rattle.runtime_histories.specs.Entries.{deeds};
    ghost use Rattle.runtime_histories.specs.Residence.{resident};
    ghost use Rattle.runtime_histories.specs.Places.{free, places, pages_of, lowest, all_pages};
    ghost use Rattle.runtime_histories.specs.Settings.{Setting, modules_of};
    ghost use Rattle.runtime_histories.specs.Legal.{Legal, Next, absent_among};
    ghost use Rattle.module_counts.specs.Stocks.{lists};
    ghost use Rattle.module_counts.specs.Counting.{IsKnown, IsSettingOf, Follows, Booked, HasRoom, RefusesRoom, RefusesPages};

    /// No entry. Each later call that takes a graph takes this one.
    pub fn new(
        alloc: Global,
        graph: &Graph,
        pages: u32,
        journal_limit: u32,
    ) -> Result<Counts, AllocError>
        requires known { IsKnown graph.now (length graph.now.kinds) }
        ensures graph { IfOk result (λ c. c.graph ≡ graph.now) }
        ensures pages { IfOk result (λ c. c.pages ≡ pages) }
        ensures limit { IfOk result (λ c. c.limit ≡ journal_limit) }
        ensures empty { IfOk result (λ c. c.journal ≡ []) }
    {
        let modules = graph.modules();
        let ages = Ages::new(alloc, modules)?;
        let homes = Homes::new(alloc, modules)?;
        Ok(Counts {
            graph: Snapshot::of(graph),
            journal: Vec::new(alloc),
            stock: Stock {
                live: Lives::new(alloc),
                ages,
                homes,
                pages,
            },
            limit: journal_limit,
        })
    }

    /// The whole history.
    pub fn journal(&self) -> &[Entry]
        ensures { result.now ≡ self.now.journal }
    {
        self.journal.as_slice()
    }

    /// For how many further entries there is room.
    pub fn spare(&self) -> u64
        ensures value { result ≡ self.now.spare }
        ensures closable { length (live (deeds self.now.journal)) ≤ result }
        ensures few { length self.now.journal + result ≤ self.now.limit }
    {
        let left = self.limit as usize - self.journal.len();
        let room = self.journal.capacity() - self.journal.len();
        let more = self.stock.live.spare();
        (left.min(room) as u64).min(more)
    }

    /// Appends an opening's entry and its uses, with the places of what it loads, one list of pages a
    /// module, and answers the entry's position.
    pub fn admit(&mut self, graph: &Graph, entry: Entry, places: Vec<Vec<u32>>) -> u64
        requires graph { graph.now ≡ self.old.graph }
        requires next { Follows self.old entry (lists places.items) }
        requires room { length (live (deeds self.old.journal)) + 2 ≤ self.old.spare }
        ensures value { result ≡ length self.old.journal }
        ensures journal { self.new.journal ≡ self.old.journal ++ entry ∷ [] }
        ensures same { (self.new.graph ≡ self.old.graph) × (self.new.pages ≡ self.old.pages)
            × (self.new.limit ≡ self.old.limit) }
        ensures room { self.old.spare ≤ self.new.spare + 1 }
    {
        let number = self.journal.len() as u64;
        self.stock
            .take_in(graph, self.journal.as_slice(), &entry, places);
        push_within(&mut self.journal, entry);
        number
    }

    /// Appends a closing. It takes no memory, and there is always room for it.
    pub fn dismiss(&mut self, graph: &Graph, caller: u32, number: u64)
        requires graph { graph.now ≡ self.old.graph }
        requires live { IsLive (deeds self.old.journal) caller number }
        ensures journal { self.new.journal
            ≡ self.old.journal ++ record { caller = caller; event = Event.Closing number } ∷ [] }
        ensures same { (self.new.graph ≡ self.old.graph) × (self.new.pages ≡ self.old.pages)
            × (self.new.limit ≡ self.old.limit) }
        ensures room { self.old.spare ≤ self.new.spare + 1 }
    {
        self.stock
            .let_go(graph, self.journal.as_slice(), caller, number);
        push_within(
            &mut self.journal,
            Entry {
                caller,
                event: Event::Closing { number },
            },
        );
    }

    /// Makes room for one entry and one later closing.
    pub fn reserve(&mut self) -> Result<(), Refusal>
        ensures ok { OnOk result (length (live (deeds self.old.journal)) + 2 ≤ self.new.spare) }
        ensures within { OnOk result (HasRoom self.old) }
        ensures err { IfErr result (RefusesRoom self.old) }
        ensures journal { self.new.journal ≡ self.old.journal }
        ensures same { (self.new.graph ≡ self.old.graph) × (self.new.pages ≡ self.old.pages)
            × (self.new.limit ≡ self.old.limit) }
        ensures room { self.old.spare ≤ self.new.spare }
    {
        let length = self.journal.len();
        let live = self.stock.live.len() as usize;
        if length + live + 2 > self.limit as usize {
            return Err(Refusal::JournalFull {
                length: length as u64,
            });
        }
        if self.stock.live.reserve().is_err() {
            return Err(Refusal::Memory);
        }
        if self.journal.reserve(live + 2).is_err() {
            return Err(Refusal::Memory);
        }
        Ok(())
    }

    /// Whether a module is resident.
    pub fn resident(&self, module: u32) -> bool
        requires { «module» < length self.now.graph.kinds }
        ensures { result ≡ resident (marks (deeds self.now.journal)) «module» }
    {
        self.stock.ages.keeps(module)
    }

    /// How many pages are free: those of the store less those of resident modules.
    pub fn free_pages(&self) -> u32
        ensures { result ≡ free self.now.pages (deeds self.now.journal) }
    {
        let taken = taken_pages(&self.stock.homes, &self.stock.ages);
        (self.stock.pages as u64 - taken) as u32
    }

    /// The lowest free pages.
    pub fn choose(&self, alloc: Global, need: u64) -> Result<Vec<u32>, Refusal>
        ensures { MatchResult result
            (λ v. (v.items ≡ lowest self.now.pages (all_pages (places self.now.pages (deeds self.now.journal))) need)
            × (need ≤ free self.now.pages (deeds self.now.journal)) × (length v.items ≡ need) × (need < 2 ^ 32))
            (RefusesPages self.now need) }
    {
        if need == 0 {
            return Ok(Vec::new(alloc));
        }
        let free = self.free_pages();
        if need > free as u64 {
            return Err(Refusal::StoreFull { need, free });
        }
        let stock = &self.stock;
        match lowest_free(alloc, &stock.homes, &stock.ages, stock.pages, need) {
            Ok(pages) => Ok(pages),
            Err(_) => Err(Refusal::Memory),
        }
    }

    /// The pages of a resident module.
    pub fn pages_of(&self, module: u32) -> &[u32]
        requires { resident (marks (deeds self.now.journal)) «module» ≡ true }
        ensures { result.now ≡ pages_of «module» (places self.now.pages (deeds self.now.journal)) }
    {
        self.stock.homes.row(module)
    }

    /// Whether the number is that of a live descriptor of the caller.
    pub fn is_live(&self, caller: u32, number: u64) -> bool
        ensures { IsTrue result ↔ IsLive (deeds self.now.journal) caller number }
    {
        self.stock.live.has(caller, number)
    }

    /// The distinct modules of a chain that aren't resident, in the order of the chain.
    pub fn missing(
        &self,
        alloc: Global,
        graph: &Graph,
        chain: &Chain,
    ) -> Result<Vec<u32>, AllocError>
        requires graph { graph.now ≡ self.now.graph }
        ensures { IfOk result (λ v. v.items ≡ absent_among (deeds self.now.journal)
            (modules_of graph.now.edges chain.now.ordinals)) }
    {
        missing_of(alloc, &self.stock.ages, graph, chain.ordinals.as_slice())
    }

    /// The whole journal.
    pub fn done(self) -> Vec<Entry>
        ensures { result.items ≡ self.journal }
    {
        let Counts {
            graph: _,
            journal,
            stock: _,
            limit: _,
        } = self;
        journal
    }
}

/// Appends a module that isn't kept, unless it stands in the list.
fn add_missing(found: &mut Vec<u32>, ages: &Ages, module: Option<u32>) -> Result<(), AllocError>
    requires same { length ages.now.stamps.items ≡ length ages.now.held.items }
    requires early { ages.now.clock + 2 < 2 ^ 128 }
    ensures { OnOk result (found.new.items ≡ with_new (λ m k. m == k) found.old.items
        (filter (λ m. not (is_kept ages.now m)) (listed «module»))) }
{
    match module {
        Some(which) => {
            if !ages.keeps(which) && !found.contains(&which) {
                found.push(which)?;
            }
            Ok(())
        }
        None => Ok(()),
    }
}

/// The distinct modules of a chain that aren't kept, in its order.
fn missing_of(
    alloc: Global,
    ages: &Ages,
    graph: &Graph,
    ordinals: &[u32],
) -> Result<Vec<u32>, AllocError>
    requires same { length ages.now.stamps.items ≡ length ages.now.held.items }
    requires early { ages.now.clock + 2 < 2 ^ 128 }
    ensures { IfOk result (λ v. v.items ≡ with_new (λ m k. m == k) []
        (filter (λ m. not (is_kept ages.now m)) (modules_of graph.now.edges ordinals.now))) }
{
    let mut found = Vec::new(alloc);
    for ordinal in ordinals {
        add_missing(&mut found, ages, module_of(graph, *ordinal))?;
    }
    Ok(found)
}

//! Live descriptors, counters and places, which stand for a journal.
ghost use Rattle.std.specs.Prelude.{◌≡◌, ℕ, ◌+◌, ◌-◌, ◌*◌, ◌<◌, ◌≤◌, ◌^◌, ◌==◌, List, [], ◌∷◌, ◌++◌, length, map, not, if◌then◌else◌, vec_len, vec_capacity, MatchOption, None, Some, IsSomeAnd, Bool, false};
ghost use Rattle.std.specs.List.{list_any, filter};
ghost use Rattle.std.proofs.Common.{get_or};
ghost use Rattle.runtime_histories.specs.Deeds.{Deeds, Pair, same_pair, Mark, uses, releases, act, closes, IsLive};
ghost use Rattle.runtime_histories.specs.Fair.{times};
ghost use Rattle.runtime_histories.specs.Settings.{module_at, modules_of};
ghost use Rattle.module_counts.specs.Tracking.{IsTracking};
ghost use Rattle.runtime_histories.specs.Entries.{deeds, deed_of};
ghost use Rattle.module_counts.specs.Stocks.{lists};
ghost use Rattle.module_counts.specs.Admitting.{success_of, CanOpen, CanTake, deed_by, IsOpening, AreStepped};
ghost use Rattle.module_counts.specs.Admitting as values;
ghost use Rattle.module_counts.specs.Counting.{IsStock, IsKnown};
ghost use Rattle.module_counts.specs.Lives.{pair_shown};
ghost use Rattle.module_counts.specs.Successes.{IsSuccess};

use crate::ages::Ages;
use crate::homes::Homes;
use crate::lives::Lives;
use module_graph::Graph;
use names_alias::Name;
use runtime_histories::{Asked, Entry, Event, Load, Reply};

/// An opening that was answered by a chain.
#[derive(Clone, Copy)]
pub struct Success<'a> {
    pub from: &'a Name,
    pub to: &'a Name,
    pub chain: &'a [u32],
    pub loads: &'a [Load],
}

/// What an event says, if it is an opening that was answered by a chain.
pub fn success_in(event: &Event) -> Option<Success<'_>>
    ensures { MatchOption result (success_of event.now ≡ None)
        (λ s. IsSomeAnd (success_of event.now) (λ v. IsSuccess v s)) }
{
    match event {
        Event::Opening {
            from: Asked::Good(from),
            to: Asked::Good(to),
            reply: Reply::Opened { chain, loaded, .. },
        } => Some(Success {
            from,
            to,
            chain: chain.as_slice(),
            loads: loaded.as_slice(),
        }),
        _ => None,
    }
}

/// Live descriptors, counters and places. `pages` is the number of pages of the store.
#[derive(Drop)]
pub struct Stock {
    pub live: Lives,
    pub ages: Ages,
    pub homes: Homes,
    pub pages: u32,
}

/// The uses of an opening, which finds its pair live or not.
fn start_pair(ages: &mut Ages, graph: &Graph, is_live: bool, chain: &[u32])
    requires known { IsKnown graph.now (length ages.old.held.items) }
    requires same { length ages.old.stamps.items ≡ length ages.old.held.items }
    requires few { (m : ℕ) → get_or ages.old.held.items m 0 + 2 ^ 64 < 2 ^ 128 }
    requires early { ages.old.clock + 2 < 2 ^ 128 }
    ensures tracks { (ms : List Mark) → IsTracking ages.old ms → IsTracking ages.new
        (ms ++ (if is_live then [] else map uses (modules_of graph.now.edges chain.now))) }
    ensures same { length ages.new.stamps.items ≡ length ages.new.held.items }
    ensures stays { length ages.new.held.items ≡ length ages.old.held.items }
    ensures more { (m : ℕ) → get_or ages.new.held.items m 0 ≤ get_or ages.old.held.items m 0 + 2 ^ 64 }
    ensures clock { ages.new.clock ≡ ages.old.clock }
{
    if is_live {
        return;
    }
    let _count = chain.len();
    ages.start_all(graph, chain);
}

/// The releases of a closing, which leaves its pair live or not.
fn stop_pair(ages: &mut Ages, graph: &Graph, is_live: bool, chain: &[u32])
    requires known { IsKnown graph.now (length ages.old.held.items) }
    requires same { length ages.old.stamps.items ≡ length ages.old.held.items }
    requires enough { is_live ≡ false → (m : ℕ)
        → times m (modules_of graph.now.edges chain.now) ≤ get_or ages.old.held.items m 0 }
    requires early { ages.old.clock + 2 ^ 64 + 2 < 2 ^ 128 }
    ensures tracks { (ms : List Mark) → IsTracking ages.old ms → IsTracking ages.new
        (ms ++ (if is_live then [] else map releases (modules_of graph.now.edges chain.now))) }
    ensures same { length ages.new.stamps.items ≡ length ages.new.held.items }
    ensures stays { length ages.new.held.items ≡ length ages.old.held.items }
    ensures less { (m : ℕ) → get_or ages.new.held.items m 0 ≤ get_or ages.old.held.items m 0 }
    ensures clock { ages.new.clock ≤ ages.old.clock + 2 ^ 64 }
{
    if is_live {
        return;
    }
    let _count = chain.len();
    ages.stop_all(graph, chain);
}

impl Stock {
    /// An opening that was answered by a chain.
    fn open(
        &mut self,
        graph: &Graph,
        journal: &[Entry],
        caller: u32,
        found: Success<'_>,
        places: Vec<Vec<u32>>,
    )
        requires stock { IsStock graph.now self.old (deeds journal.now) }
        requires can { (v : values.Success) × IsSuccess v found
            × CanOpen graph.now self.old.pages (deeds journal.now) v (lists places.items) }
        requires few { length journal.now < 2 ^ 32 }
        requires room { (0 < self.old.live.left) × (0 < self.old.live.fresh) }
        ensures stock { (v : values.Success) → IsSuccess v found.entry
            → CanOpen graph.now self.old.pages (deeds journal.now) v (lists places.items)
            → IsStock graph.now self.new (deeds journal.now ++ act caller (deed_by (Some v)) ∷ []) }
        ensures pages { self.new.pages ≡ self.old.pages }
        ensures room { (self.old.live.left ≤ self.new.live.left + 1) × (self.old.live.fresh ≤ self.new.live.fresh + 1) }
        ensures len { length self.new.live.items ≡ length self.old.live.items + 1 }
        ensures modules { length self.new.ages.held.items ≡ length self.old.ages.held.items }
    {
        let is_live = self.live.has_pair(found.from, found.to);
        self.homes.settle(&self.ages, found.loads, places);
        start_pair(&mut self.ages, graph, is_live, found.chain);
        self.live.open(caller, found.from, found.to);
    }
}

impl Stock {
    /// The releases of the closing of an opening, if it leaves its pair none.
    fn stop(&mut self, graph: &Graph, event: &Event)
        requires known { IsKnown graph.now (length self.old.ages.held.items) }
        requires same { length self.old.ages.stamps.items ≡ length self.old.ages.held.items }
        requires enough { (v : values.Success) → success_of event.now ≡ Some v
            → list_any (λ x. same_pair (pair_shown x) v.pair) self.old.live.items ≡ false
            → (m : ℕ) → times m (modules_of graph.now.edges v.ordinals) ≤ get_or self.old.ages.held.items m 0 }
        requires early { self.old.ages.clock + 2 ^ 64 + 2 < 2 ^ 128 }
        ensures tracks { (v : values.Success) → success_of event.now ≡ Some v → (ms : List Mark)
            → IsTracking self.old.ages ms → IsTracking self.new.ages (ms
            ++ (if list_any (λ x. same_pair (pair_shown x) v.pair) self.old.live.items
            then [] else map releases (modules_of graph.now.edges v.ordinals))) }
        ensures same { length self.new.ages.stamps.items ≡ length self.new.ages.held.items }
        ensures stays { length self.new.ages.held.items ≡ length self.old.ages.held.items }
        ensures less { (m : ℕ) → get_or self.new.ages.held.items m 0 ≤ get_or self.old.ages.held.items m 0 }
        ensures clock { self.new.ages.clock ≤ self.old.ages.clock + 2 ^ 64 }
        ensures rest { (self.new.live ≡ self.old.live) × (self.new.homes ≡ self.old.homes)
            × (self.new.pages ≡ self.old.pages) }
    {
        match success_in(event) {
            Some(found) => {
                let is_live = self.live.has_pair(found.from, found.to);
                stop_pair(&mut self.ages, graph, is_live, found.chain);
            }
            None => {}
        }
    }

    /// An opening.
    pub fn take_in(
        &mut self,
        graph: &Graph,
        journal: &[Entry],
        entry: &Entry,
        places: Vec<Vec<u32>>,
    )
        requires opening { IsOpening entry.now.event }
        requires stock { IsStock graph.now self.old (deeds journal.now) }
        requires can { CanTake graph.now self.old.pages (deeds journal.now)
            (success_of entry.now.event) (lists places.items) }
        requires few { length journal.now < 2 ^ 32 }
        requires room { (0 < self.old.live.left) × (0 < self.old.live.fresh) }
        ensures stock { IsStock graph.now self.new
            (deeds journal.now ++ act entry.now.caller (deed_of entry.now.event) ∷ []) }
        ensures pages { self.new.pages ≡ self.old.pages }
        ensures room { (self.old.live.left ≤ self.new.live.left + 1)
            × (length self.old.live.items + self.old.live.fresh ≤ length self.new.live.items + self.new.live.fresh) }
        ensures len { length self.new.live.items ≤ length self.old.live.items + 1 }
        ensures modules { length self.new.ages.held.items ≡ length self.old.ages.held.items }
    {
        match success_in(&entry.event) {
            Some(found) => self.open(graph, journal, entry.caller, found, places),
            None => self.live.skip(),
        }
    }

    /// A closing.
    pub fn let_go(&mut self, graph: &Graph, journal: &[Entry], caller: u32, number: u64)
        requires stock { IsStock graph.now self.old (deeds journal.now) }
        requires live { IsLive (deeds journal.now) caller number }
        requires steps { AreStepped graph.now journal.now }
        requires few { length journal.now < 2 ^ 32 }
        requires room { 0 < self.old.live.left }
        ensures stock { IsStock graph.now self.new
            (deeds journal.now ++ act caller (closes number) ∷ []) }
        ensures pages { self.new.pages ≡ self.old.pages }
        ensures room { (self.old.live.left ≤ self.new.live.left + 1)
            × (length self.old.live.items + self.old.live.fresh ≤ length self.new.live.items + 1 + self.new.live.fresh) }
        ensures len { length self.new.live.items + 1 ≤ length self.old.live.items }
        ensures modules { length self.new.ages.held.items ≡ length self.old.ages.held.items }
    {
        self.live.close(number);
        self.stop(graph, &journal[number as usize].event);
        self.live.skip();
    }
}

//! Counters of uses and releases, and when each module was used or released last.
ghost use Rattle.std.specs.Prelude.{◌≡◌, ℕ, ◌+◌, ◌-◌, ◌<◌, ◌≤◌, ◌^◌, List, [], ◌∷◌, ◌++◌, length, map, replicate, slice_set, Some, IfOk, false};
ghost use Rattle.std.proofs.Common.{get_or};
ghost use Rattle.runtime_histories.specs.Deeds.{Mark, uses, releases};
ghost use Rattle.runtime_histories.specs.Residence.{resident};
ghost use Rattle.runtime_histories.specs.Settings.{module_at, modules_of};
ghost use Rattle.runtime_histories.specs.Fair.{times};
ghost use Rattle.module_counts.specs.Tracking.{IsTracking, is_kept, listed};

use module_graph::Graph;
use std::alloc::{AllocError, Global};

/// How much more often each module was used than released, when it was used or released last, and how
/// many releases there were. A stamp is one more than the clock was then; 0 is none.
#[derive(Drop)]
pub struct Ages {
    pub held: Vec<u128>,
    pub stamps: Vec<u128>,
    pub clock: u128,
}

/// So many counters at 0.
fn zeros(alloc: Global, count: usize) -> Result<Vec<u128>, AllocError>
    ensures { IfOk result (λ v. v.items ≡ replicate count 0) }
{
    let mut list = Vec::with_capacity(alloc, count)?;
    for _ in 0..count {
        list.push(0)?;
    }
    Ok(list)
}

/// The module of the edge of an ordinal, if it has one.
pub fn module_of(graph: &Graph, ordinal: u32) -> Option<u32>
    ensures { result ≡ module_at graph.now.edges ordinal }
{
    match graph.edge(ordinal) {
        Some(edge) => edge.module,
        None => None,
    }
}

impl Ages {
    /// Nothing was used.
    pub fn new(alloc: Global, modules: u32) -> Result<Ages, AllocError>
        ensures tracks { IfOk result (λ a. IsTracking a []) }
        ensures count { IfOk result (λ a. length a.held.items ≡ modules) }
        ensures clock { IfOk result (λ a. a.clock ≡ 0) }
        ensures held { IfOk result (λ a. (m : ℕ) → get_or a.held.items m 0 ≡ 0) }
    {
        let held = zeros(alloc, modules as usize)?;
        let stamps = zeros(alloc, modules as usize)?;
        Ok(Ages {
            held,
            stamps,
            clock: 0,
        })
    }

    /// A use of a module.
    fn start(&mut self, which: u32)
        requires known { which < length self.old.held.items }
        requires same { length self.old.stamps.items ≡ length self.old.held.items }
        requires few { get_or self.old.held.items which 0 + 1 < 2 ^ 128 }
        requires early { self.old.clock + 2 < 2 ^ 128 }
        ensures tracks { (ms : List Mark) → IsTracking self.old ms → IsTracking self.new (ms ++ uses which ∷ []) }
        ensures same { length self.new.stamps.items ≡ length self.new.held.items }
        ensures stays { length self.new.held.items ≡ length self.old.held.items }
        ensures more { (m : ℕ) → get_or self.new.held.items m 0 ≤ get_or self.old.held.items m 0 + 1 }
        ensures clock { self.new.clock ≡ self.old.clock }
    {
        let place = which as usize;
        self.held[place] += 1;
        self.stamps[place] = self.clock + 1;
    }

    /// A release of a module.
    fn stop(&mut self, which: u32)
        requires known { which < length self.old.held.items }
        requires same { length self.old.stamps.items ≡ length self.old.held.items }
        requires held { 0 < get_or self.old.held.items which 0 }
        requires early { self.old.clock + 3 < 2 ^ 128 }
        ensures tracks { (ms : List Mark) → IsTracking self.old ms → IsTracking self.new (ms ++ releases which ∷ []) }
        ensures same { length self.new.stamps.items ≡ length self.new.held.items }
        ensures stays { length self.new.held.items ≡ length self.old.held.items }
        ensures clock { self.new.clock ≡ self.old.clock + 1 }
        ensures held { self.new.held.items
            ≡ slice_set self.old.held.items which (get_or self.old.held.items which 0 - 1) }
    {
        let place = which as usize;
        self.held[place] -= 1;
        self.stamps[place] = self.clock + 2;
        self.clock += 1;
    }

    /// Whether a module is resident, by the counters.
    pub fn keeps(&self, which: u32) -> bool
        requires same { length self.now.stamps.items ≡ length self.now.held.items }
        requires early { self.now.clock + 2 < 2 ^ 128 }
        ensures { result ≡ is_kept self.now which }
    {
        let place = which as usize;
        if place >= self.held.len() {
            return false;
        }
        let stamp = self.stamps[place];
        self.held[place] > 0
            || (stamp > 0 && (stamp > self.clock + 1 || self.clock + 1 - stamp < 3))
    }

    /// A use by the edge of an ordinal, if that has a module.
    fn start_one(&mut self, graph: &Graph, ordinal: u32)
        requires known { (m : ℕ) → module_at graph.now.edges ordinal ≡ Some m → m < length self.old.held.items }
        requires same { length self.old.stamps.items ≡ length self.old.held.items }
        requires few { (m : ℕ) → get_or self.old.held.items m 0 + 1 < 2 ^ 128 }
        requires early { self.old.clock + 2 < 2 ^ 128 }
        ensures tracks { (ms : List Mark) → IsTracking self.old ms
            → IsTracking self.new (ms ++ map uses (listed (module_at graph.now.edges ordinal))) }
        ensures same { length self.new.stamps.items ≡ length self.new.held.items }
        ensures stays { length self.new.held.items ≡ length self.old.held.items }
        ensures more { (m : ℕ) → get_or self.new.held.items m 0 ≤ get_or self.old.held.items m 0 + 1 }
        ensures clock { self.new.clock ≡ self.old.clock }
    {
        match module_of(graph, ordinal) {
            Some(module) => self.start(module),
            None => {}
        }
    }

    /// A release by the edge of an ordinal, if that has a module.
    fn stop_one(&mut self, graph: &Graph, ordinal: u32)
        requires known { (m : ℕ) → module_at graph.now.edges ordinal ≡ Some m → m < length self.old.held.items }
        requires same { length self.old.stamps.items ≡ length self.old.held.items }
        requires held { (m : ℕ) → module_at graph.now.edges ordinal ≡ Some m → 0 < get_or self.old.held.items m 0 }
        requires early { self.old.clock + 3 < 2 ^ 128 }
        ensures tracks { (ms : List Mark) → IsTracking self.old ms
            → IsTracking self.new (ms ++ map releases (listed (module_at graph.now.edges ordinal))) }
        ensures same { length self.new.stamps.items ≡ length self.new.held.items }
        ensures stays { length self.new.held.items ≡ length self.old.held.items }
        ensures clock { self.new.clock ≤ self.old.clock + 1 }
        ensures less { (m : ℕ) → get_or self.old.held.items m 0
            ≡ get_or self.new.held.items m 0 + times m (listed (module_at graph.now.edges ordinal)) }
    {
        match module_of(graph, ordinal) {
            Some(module) => self.stop(module),
            None => {}
        }
    }

    /// A use by each edge of a chain.
    pub fn start_all(&mut self, graph: &Graph, ordinals: &[u32])
        requires known { (o m : ℕ) → module_at graph.now.edges o ≡ Some m → m < length self.old.held.items }
        requires same { length self.old.stamps.items ≡ length self.old.held.items }
        requires few { (m : ℕ) → get_or self.old.held.items m 0 + length ordinals.now < 2 ^ 128 }
        requires early { self.old.clock + 2 < 2 ^ 128 }
        ensures tracks { (ms : List Mark) → IsTracking self.old ms
            → IsTracking self.new (ms ++ map uses (modules_of graph.now.edges ordinals.now)) }
        ensures same { length self.new.stamps.items ≡ length self.new.held.items }
        ensures stays { length self.new.held.items ≡ length self.old.held.items }
        ensures more { (m : ℕ) → get_or self.new.held.items m 0 ≤ get_or self.old.held.items m 0 + length ordinals.now }
        ensures clock { self.new.clock ≡ self.old.clock }
    {
        for ordinal in ordinals {
            self.start_one(graph, *ordinal);
        }
    }

    /// A release by each edge of a chain.
    pub fn stop_all(&mut self, graph: &Graph, ordinals: &[u32])
        requires known { (o m : ℕ) → module_at graph.now.edges o ≡ Some m → m < length self.old.held.items }
        requires same { length self.old.stamps.items ≡ length self.old.held.items }
        requires enough { (m : ℕ) → times m (modules_of graph.now.edges ordinals.now) ≤ get_or self.old.held.items m 0 }
        requires early { self.old.clock + length ordinals.now + 2 < 2 ^ 128 }
        ensures tracks { (ms : List Mark) → IsTracking self.old ms
            → IsTracking self.new (ms ++ map releases (modules_of graph.now.edges ordinals.now)) }
        ensures same { length self.new.stamps.items ≡ length self.new.held.items }
        ensures stays { length self.new.held.items ≡ length self.old.held.items }
        ensures less { (m : ℕ) → get_or self.new.held.items m 0 ≤ get_or self.old.held.items m 0 }
        ensures clock { self.new.clock ≤ self.old.clock + length ordinals.now }
    {
        for ordinal in ordinals {
            self.stop_one(graph, *ordinal);
        }
    }
}

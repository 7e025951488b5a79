//! The pages of placed modules' tables.
ghost use Rattle.std.specs.Prelude.{◌≡◌, ℕ, ◌+◌, ◌<◌, ◌≤◌, ◌^◌, [], ◌∷◌, ◌++◌, length, map, slice_set, vec_len, vec_capacity, MatchOption, IfOk};
ghost use Rattle.std.specs.List.{AllByRecursion, filter};
ghost use Rattle.std.proofs.Common.{get_or};
ghost use Rattle.module_counts.specs.Tracking.{is_kept};
ghost use Rattle.module_counts.specs.Stocks.{lists, laid, cleared, Settles};

use crate::ages::Ages;
use crate::store::push_within;
use runtime_histories::Load;
use std::alloc::{AllocError, Global};

/// A row of pages for each module, and the modules that were placed, in the order in which they were.
/// One that isn't kept any longer stands there until the next opening that loads.
#[derive(Drop)]
pub struct Homes {
    pub rows: Vec<Vec<u32>>,
    pub order: Vec<u32>,
}

/// Empties the row of a module.
fn clear_row(rows: &mut [Vec<u32>], module: u32)
    ensures rows { lists rows.new ≡ slice_set (lists rows.old) «module» [] }
{
    if (module as usize) < rows.len() {
        rows[module as usize].clear();
    }
}

/// Empties the row of a module that isn't kept.
fn clear_unless(rows: &mut [Vec<u32>], ages: &Ages, module: u32)
    requires same { length ages.now.stamps.items ≡ length ages.now.held.items }
    requires early { ages.now.clock + 2 < 2 ^ 128 }
    ensures rows { lists rows.new ≡ cleared (is_kept ages.now) (lists rows.old) («module» ∷ []) }
{
    if !ages.keeps(module) {
        clear_row(rows, module);
    }
}

/// Empties the rows of modules that aren't kept.
fn clear_all(rows: &mut [Vec<u32>], ages: &Ages, order: &[u32])
    requires same { length ages.now.stamps.items ≡ length ages.now.held.items }
    requires early { ages.now.clock + 2 < 2 ^ 128 }
    ensures rows { lists rows.new ≡ cleared (is_kept ages.now) (lists rows.old) order.now }
{
    for module in order {
        clear_unless(rows, ages, *module);
    }
}

/// So many empty rows.
fn no_rows(alloc: Global, count: usize) -> Result<Vec<Vec<u32>>, AllocError>
    ensures count { IfOk result (λ v. length v.items ≡ count) }
    ensures empty { IfOk result (λ v. (m : ℕ) → get_or (lists v.items) m [] ≡ []) }
{
    let mut rows = Vec::with_capacity(alloc, count)?;
    for _ in 0..count {
        rows.push(Vec::new(alloc))?;
    }
    Ok(rows)
}

impl Homes {
    /// No module is placed.
    pub fn new(alloc: Global, modules: u32) -> Result<Homes, AllocError>
        ensures count { IfOk result (λ h. length h.rows.items ≡ modules) }
        ensures empty { IfOk result (λ h. (m : ℕ) → get_or (lists h.rows.items) m [] ≡ []) }
        ensures none { IfOk result (λ h. h.order.items ≡ []) }
        ensures room { IfOk result (λ h. modules ≤ vec_capacity h.order) }
    {
        let rows = no_rows(alloc, modules as usize)?;
        let order = Vec::with_capacity(alloc, modules as usize)?;
        Ok(Homes { rows, order })
    }

    /// The row of a module.
    pub fn row(&self, module: u32) -> &[u32]
        ensures { result.now ≡ get_or (lists self.now.rows.items) «module» [] }
    {
        match self.rows.get(module as usize) {
            Some(row) => row.as_slice(),
            None => &[],
        }
    }

    /// Leaves out the modules that aren't kept.
    fn sweep(&mut self, ages: &Ages)
        requires same { length ages.now.stamps.items ≡ length ages.now.held.items }
        requires early { ages.now.clock + 2 < 2 ^ 128 }
        ensures rows { lists self.new.rows.items
            ≡ cleared (is_kept ages.now) (lists self.old.rows.items) self.old.order.items }
        ensures order { self.new.order.items ≡ filter (is_kept ages.now) self.old.order.items }
        ensures room { vec_capacity self.new.order ≡ vec_capacity self.old.order }
    {
        clear_all(self.rows.as_mut_slice(), ages, self.order.as_slice());
        self.order.retain(|module| ages.keeps(*module));
    }

    /// Gives a module its pages, if there are any for it.
    fn place_one(&mut self, module: u32, pages: Option<Vec<u32>>)
        requires known { «module» < length self.old.rows.items }
        requires room { vec_len self.old.order < vec_capacity self.old.order }
        ensures rows { MatchOption pages (lists self.new.rows.items ≡ lists self.old.rows.items)
            (λ v. lists self.new.rows.items ≡ slice_set (lists self.old.rows.items) «module» v.items) }
        ensures order { MatchOption pages (self.new.order.items ≡ self.old.order.items)
            (λ _. self.new.order.items ≡ self.old.order.items ++ «module» ∷ []) }
        ensures count { length self.new.rows.items ≡ length self.old.rows.items }
        ensures room { vec_capacity self.old.order ≤ vec_capacity self.new.order }
    {
        match pages {
            Some(pages) => {
                self.rows[module as usize] = pages;
                push_within(&mut self.order, module);
            }
            None => {}
        }
    }

    /// Gives each loaded module its pages.
    fn place_all(&mut self, loads: &[Load], places: Vec<Vec<u32>>)
        requires each { vec_len places ≡ length loads.now }
        requires known { AllByRecursion (λ l. l.«module» < length self.old.rows.items) loads.now }
        requires room { vec_len self.old.order + length loads.now ≤ vec_capacity self.old.order }
        ensures rows { lists self.new.rows.items
            ≡ laid (lists self.old.rows.items) (map (λ l. l.«module») loads.now) (lists places.items) }
        ensures order { self.new.order.items ≡ self.old.order.items ++ map (λ l. l.«module») loads.now }
        ensures room { vec_capacity self.old.order ≤ vec_capacity self.new.order }
    {
        let mut rest = places.into_iter();
        for load in loads {
            self.place_one(load.module, rest.next());
        }
    }

    /// Leaves out the modules that aren't kept and gives each loaded module its pages, if any is loaded.
    pub fn settle(&mut self, ages: &Ages, loads: &[Load], places: Vec<Vec<u32>>)
        requires same { length ages.now.stamps.items ≡ length ages.now.held.items }
        requires early { ages.now.clock + 2 < 2 ^ 128 }
        requires each { vec_len places ≡ length loads.now }
        requires known { AllByRecursion (λ l. l.«module» < length self.old.rows.items) loads.now }
        requires room { length (filter (is_kept ages.now) self.old.order.items) + length loads.now
            ≤ vec_capacity self.old.order }
        ensures settles { Settles ages.now self.old self.new (map (λ l. l.«module») loads.now) (lists places.items) }
    {
        if loads.is_empty() {
            return;
        }
        self.sweep(ages);
        self.place_all(loads, places);
    }
}

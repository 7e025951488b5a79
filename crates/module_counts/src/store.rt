//! The pages of a store that resident modules have, and those that are free.
ghost use Rattle.std.specs.Prelude.{◌≡◌, ℕ, ◌+◌, ◌-◌, ◌<◌, ◌≤◌, ◌^◌, List, [], ◌∷◌, ◌++◌, length, min, take, replicate, vec_len, vec_capacity, IfOk, OnOk, false};
ghost use Rattle.runtime_histories.specs.Places.{lowest};
ghost use Rattle.module_counts.specs.Stocks.{seat_pages, kept_among, kept_seats, lists, IsMap, unset};

use crate::ages::Ages;
use crate::homes::Homes;
use std::alloc::{AllocError, Global};

/// Appends an item, for which there is room.
pub fn push_within<T: Drop>(items: &mut Vec<T>, item: T)
    requires { vec_len items.old < vec_capacity items.old }
    ensures items { items.new.items ≡ items.old.items ++ item ∷ [] }
    ensures room { vec_capacity items.old ≤ vec_capacity items.new }
{
    match items.push(item) {
        Ok(()) => {}
        Err(_) => {}
    }
}

/// So many bits that aren't set.
fn no_bits(alloc: Global, count: u32) -> Result<Vec<bool>, AllocError>
    ensures { IfOk result (λ v. v.items ≡ replicate count false) }
{
    let mut bits = Vec::new(alloc);
    bits.resize(count as usize, false)?;
    Ok(bits)
}

/// Sets the bit of a page.
fn set_bit(bits: &mut [bool], page: u32)
    ensures map { (all : List ℕ) → IsMap bits.old all → IsMap bits.new (all ++ page ∷ []) }
{
    if (page as usize) < bits.len() {
        bits[page as usize] = true;
    }
}

/// Sets the bits of pages.
fn set_bits(bits: &mut [bool], pages: &[u32])
    ensures map { (all : List ℕ) → IsMap bits.old all → IsMap bits.new (all ++ pages.now) }
{
    for page in pages {
        set_bit(bits, *page);
    }
}

/// Sets the bits of the pages of a module, if it is kept.
fn set_one(bits: &mut [bool], homes: &Homes, ages: &Ages, module: u32)
    requires same { length ages.now.stamps.items ≡ length ages.now.held.items }
    requires early { ages.now.clock + 2 < 2 ^ 128 }
    ensures map { (all : List ℕ) → IsMap bits.old all
        → IsMap bits.new (all ++ seat_pages (kept_among ages.now (lists homes.now.rows.items) («module» ∷ []))) }
{
    if ages.keeps(module) {
        set_bits(bits, homes.row(module));
    }
}

/// Sets the bits of the pages of all modules that are kept.
fn set_all(bits: &mut [bool], homes: &Homes, ages: &Ages)
    requires same { length ages.now.stamps.items ≡ length ages.now.held.items }
    requires early { ages.now.clock + 2 < 2 ^ 128 }
    ensures map { (all : List ℕ) → IsMap bits.old all
        → IsMap bits.new (all ++ seat_pages (kept_seats ages.now homes.now)) }
{
    for module in homes.order.as_slice() {
        set_one(bits, homes, ages, *module);
    }
}

/// Appends a page, unless there are as many as are needed.
fn offer(chosen: &mut Vec<u32>, page: u32, need: u64) -> Result<(), AllocError>
    ensures { OnOk result ((all : List ℕ) → chosen.old.items ≡ take need all
        → chosen.new.items ≡ take need (all ++ page ∷ [])) }
{
    if (chosen.len() as u64) < need {
        chosen.push(page)?;
    }
    Ok(())
}

/// The lowest pages whose bits aren't set. No page is looked at behind the last of them.
fn lowest_unset(alloc: Global, bits: &[bool], pages: u32, need: u64) -> Result<Vec<u32>, AllocError>
    requires { length bits.now ≡ pages }
    ensures { IfOk result (λ v. v.items ≡ take need (unset bits.now pages)) }
{
    let mut chosen = Vec::new(alloc);
    for page in 0..pages {
        if chosen.len() as u64 >= need {
            return Ok(chosen);
        }
        if !bits[page as usize] {
            offer(&mut chosen, page, need)?;
        }
    }
    Ok(chosen)
}

/// The lowest pages of a store that no module has which is kept.
pub fn lowest_free(
    alloc: Global,
    homes: &Homes,
    ages: &Ages,
    pages: u32,
    need: u64,
) -> Result<Vec<u32>, AllocError>
    requires same { length ages.now.stamps.items ≡ length ages.now.held.items }
    requires early { ages.now.clock + 2 < 2 ^ 128 }
    ensures { IfOk result (λ v. v.items ≡ lowest pages (seat_pages (kept_seats ages.now homes.now)) need) }
{
    if need == 0 {
        return Ok(Vec::new(alloc));
    }
    let mut bits = no_bits(alloc, pages)?;
    set_all(bits.as_mut_slice(), homes, ages);
    lowest_unset(alloc, bits.as_slice(), pages, need)
}

/// How many pages a module has, if it is kept.
fn taken_by(homes: &Homes, ages: &Ages, module: u32) -> u64
    requires same { length ages.now.stamps.items ≡ length ages.now.held.items }
    requires early { ages.now.clock + 2 < 2 ^ 128 }
    ensures { result ≡ length (seat_pages (kept_among ages.now (lists homes.now.rows.items) («module» ∷ []))) }
{
    if ages.keeps(module) {
        return homes.row(module).len() as u64;
    }
    0
}

/// How many pages all modules that are kept have; at the limit of a number where there are more.
pub fn taken_pages(homes: &Homes, ages: &Ages) -> u64
    requires same { length ages.now.stamps.items ≡ length ages.now.held.items }
    requires early { ages.now.clock + 2 < 2 ^ 128 }
    ensures { result ≡ min (length (seat_pages (kept_seats ages.now homes.now))) (2 ^ 64 - 1) }
{
    let mut count: u64 = 0;
    for module in homes.order.as_slice() {
        count = count.saturating_add(taken_by(homes, ages, *module));
    }
    count
}

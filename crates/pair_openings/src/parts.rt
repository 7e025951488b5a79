//! Pages for several modules.
ghost use Rattle.std.specs.Prelude.{◌≡◌, ◌+◌, ◌≤◌, ℕ, List, [], ◌∷◌, ◌++◌, length, take, drop, IfOk, IfSome, OnOk};
ghost use Rattle.module_counts.specs.Stocks.{lists};
ghost use Rattle.runtime_histories.specs.Places.{pages_for};
ghost use Rattle.pair_openings.specs.Cuts.{cut_by, needs, total};

use code_table::CodeTable;
use runtime_histories::ModuleTables;
use std::alloc::{AllocError, Global};

/// How many pages some tables need, unless that is past a counter.
pub fn pages_of(tables: &[CodeTable]) -> Option<u64>
    ensures { IfSome result (λ n. n ≡ pages_for tables.now) }
{
    let mut count: u64 = 0;
    for table in tables {
        count = count.checked_add(table.pages() as u64)?;
    }
    Some(count)
}

/// How many pages the tables of all modules need, unless that is past a counter.
pub fn pages_needed(all: &[ModuleTables]) -> Option<u64>
    ensures { IfSome result (λ n. n ≡ total (needs all.now)) }
{
    let mut count: u64 = 0;
    for tables in all {
        count = count.checked_add(pages_of(tables.as_slice())?)?;
    }
    Some(count)
}

/// The same pages in a list of their own.
fn copied(alloc: Global, pages: &[u32]) -> Result<Vec<u32>, AllocError>
    ensures { IfOk result (λ v. v.items ≡ pages.now) }
{
    let mut list = Vec::new(alloc);
    for page in pages {
        list.push(*page)?;
    }
    Ok(list)
}

/// Appends the first pages, as many as some tables need, and answers the others.
fn push_part<'a>(
    alloc: Global,
    parts: &mut Vec<Vec<u32>>,
    pages: &'a [u32],
    tables: &ModuleTables,
) -> Result<&'a [u32], AllocError>
    requires { pages_for tables.now ≤ length pages.now }
    ensures part { IfOk result (λ _. lists parts.new.items
        ≡ lists parts.old.items ++ take (pages_for tables.now) pages.now ∷ []) }
    ensures rest { IfOk result (λ r. r.now ≡ drop (pages_for tables.now) pages.now) }
{
    let Some(count) = pages_of(tables.as_slice()) else {
        return Err(AllocError);
    };
    let (part, rest) = pages.split_at(count as usize);
    parts.push(copied(alloc, part)?)?;
    Ok(rest)
}

/// Cuts pages into one list for each module, each as long as the module's tables need.
pub fn cut(alloc: Global, pages: &[u32], all: &[ModuleTables]) -> Result<Vec<Vec<u32>>, AllocError>
    requires { total (needs all.now) ≤ length pages.now }
    ensures { IfOk result (λ v. lists v.items ≡ cut_by pages.now (needs all.now)) }
{
    let mut parts = Vec::new(alloc);
    let mut rest = pages;
    for tables in all {
        rest = push_part(alloc, &mut parts, rest, tables)?;
    }
    Ok(parts)
}

//! What is said of modules that were loaded.
ghost use Rattle.std.specs.Prelude.{◌≡◌, ◌<◌, ◌^◌, ℕ, List, length, map, take, IfOk};
ghost use Rattle.runtime_histories.specs.Places.{pages_for};
ghost use Rattle.runtime_histories.specs.Entries.{loaded_of};
ghost use Rattle.runtime_histories.specs.Legal.{AreCounted};
ghost use Rattle.pair_openings.specs.Cuts.{needs, total};
ghost use Rattle.pair_openings.specs.Loading.{loaded_all};

use crate::parts::pages_of;
use runtime_histories::{Load, ModuleTables};
use std::alloc::{AllocError, Global};
use std::snapshot::Snapshot;

/// What is said of a module that was loaded.
fn load_of(module: u32, tables: &ModuleTables) -> Result<Load, AllocError>
    requires { pages_for tables.now < 2 ^ 32 }
    ensures load { IfOk result (λ l. loaded_of l ≡ record { «module» = «module»; tables = tables.now }) }
    ensures pages { IfOk result (λ l. l.pages ≡ pages_for tables.now) }
{
    match pages_of(tables.as_slice()) {
        Some(count) => Ok(Load {
            module,
            pages: count as u32,
            tables: Snapshot::of(tables),
        }),
        None => Err(AllocError),
    }
}

/// What is said of modules that were loaded, each with its tables.
pub fn loads_of(
    alloc: Global,
    modules: &[u32],
    all: &[ModuleTables],
) -> Result<Vec<Load>, AllocError>
    requires same { length modules.now ≡ length all.now }
    requires few { total (needs all.now) < 2 ^ 32 }
    ensures loads { IfOk result (λ v. map loaded_of v.items ≡ loaded_all modules.now all.now) }
    ensures counted { IfOk result (λ v. AreCounted v.items) }
{
    let mut loads = Vec::new(alloc);
    for place in 0..modules.len() {
        loads.push(load_of(modules[place], &all[place])?)?;
    }
    Ok(loads)
}

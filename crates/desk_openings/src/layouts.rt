//! The parts of the page images of tables that are loaded.
ghost use Rattle.std.specs.Prelude.{◌≡◌, ◌≢◌, ◌≤◌, ◌<◌, ℕ, length, map, OnOk, IfOk};
ghost use Rattle.runtime_histories.specs.Entries.{loaded_of};
ghost use Rattle.runtime_histories.specs.Legal.{loaded_modules};
ghost use Rattle.module_counts.specs.Stocks.{Once};
ghost use Rattle.code_table.specs.Layouts.{layout_of};
ghost use Rattle.runtime_room.specs.Desks.{layouts_at};
ghost use Rattle.desk_openings.specs.Layouts.{KeepsLayouts, AreKept};

use code_table::{CodeTable, Layout};
use runtime_histories::{Load, ModuleTables};
use std::alloc::{AllocError, Global};

/// The parts of the page images of tables.
fn all_parts(alloc: Global, tables: &[CodeTable]) -> Result<Vec<Layout>, AllocError>
    ensures { IfOk result (λ v. v.items ≡ map layout_of tables.now) }
{
    let mut list = Vec::new(alloc);
    for table in tables {
        list.push(table.layout())?;
    }
    Ok(list)
}

/// Makes the list so long, by modules of which nothing is kept.
fn lengthen(alloc: Global, layouts: &mut Vec<Vec<Layout>>, count: usize) -> Result<(), AllocError>
    ensures same { (m : ℕ) → layouts_at layouts.new.items m ≡ layouts_at layouts.old.items m }
    ensures long { OnOk result (count ≤ length layouts.new.items) }
{
    while layouts.len() < count {
        layouts.push(Vec::new(alloc))?;
    }
    Ok(())
}

/// Puts the parts of a module's images into its place.
fn place_parts(layouts: &mut [Vec<Layout>], module: u32, parts: Vec<Layout>)
    requires { «module» < length layouts.old }
    ensures own { layouts_at layouts.new «module» ≡ parts.items }
    ensures others { (m : ℕ) → «module» ≢ m → layouts_at layouts.new m ≡ layouts_at layouts.old m }
{
    layouts[module as usize] = parts;
}

/// Keeps the parts of the images of a module's tables.
fn keep_parts(
    alloc: Global,
    layouts: &mut Vec<Vec<Layout>>,
    module: u32,
    tables: &ModuleTables,
) -> Result<(), AllocError>
    ensures own { OnOk result (layouts_at layouts.new.items «module» ≡ map layout_of tables.now) }
    ensures others { (m : ℕ) → «module» ≢ m
        → layouts_at layouts.new.items m ≡ layouts_at layouts.old.items m }
{
    let parts = all_parts(alloc, tables.as_slice())?;
    lengthen(alloc, layouts, module as usize + 1)?;
    place_parts(layouts.as_mut_slice(), module, parts);
    Ok(())
}

/// Keeps the parts of the images of all tables that are loaded.
pub fn keep_layouts(
    alloc: Global,
    layouts: &mut Vec<Vec<Layout>>,
    loads: &[Load],
    all: &[ModuleTables],
) -> Result<(), AllocError>
    requires tables { map (λ l. l.tables) (map loaded_of loads.now) ≡ all.now }
    requires once { Once (loaded_modules (map loaded_of loads.now)) }
    ensures kept { OnOk result (AreKept layouts.new.items (map loaded_of loads.now)) }
    ensures others { KeepsLayouts layouts.old.items layouts.new.items (loaded_modules (map loaded_of loads.now)) }
{
    for place in 0..loads.len() {
        keep_parts(alloc, layouts, loads[place].module, &all[place])?;
    }
    Ok(())
}

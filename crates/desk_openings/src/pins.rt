//! The pins of the tables of a chain.
ghost use Rattle.std.specs.Prelude.{◌≡◌, ◌≤◌, ◌++◌, ◌∷◌, [], true, length, map, take, drop, IfOk, OnOk, MatchOption, None, Some};
ghost use Rattle.std.specs.List.{AllByRecursion};
ghost use Rattle.module_counts.specs.Stocks.{lists};
ghost use Rattle.runtime_histories.specs.Deeds.{marks};
ghost use Rattle.runtime_histories.specs.Entries.{deeds};
ghost use Rattle.runtime_histories.specs.Residence.{resident};
ghost use Rattle.runtime_room.specs.Desks.{layouts_at};
ghost use Rattle.desk_openings.specs.Pinning.{shown, layout_pages, cut_pins, given_to, chosen_pages, pins_for, CanPin};

use code_table::Layout;
use module_counts::Counts;
use page_store::Pin;
use runtime_histories::Load;
use std::alloc::{AllocError, Global};

/// The same pages in a list of their own.
fn copied(alloc: Global, pages: &[u32]) -> Result<Vec<u32>, AllocError>
    ensures { IfOk result (λ v. v.items ≡ pages.now) }
{
    let mut list = Vec::new(alloc);
    for page in pages {
        list.push(*page)?;
    }
    Ok(list)
}

/// Appends the pin of an image, which has the first pages, and answers the others.
fn push_pin<'a>(
    alloc: Global,
    pins: &mut Vec<Pin>,
    layout: Layout,
    pages: &'a [u32],
) -> Result<&'a [u32], AllocError>
    requires { layout.pages ≤ length pages.now }
    ensures pin { IfOk result (λ _. map shown pins.new.items
        ≡ map shown pins.old.items ++ record { pages = take layout.pages pages.now; layout = layout } ∷ []) }
    ensures rest { IfOk result (λ r. r.now ≡ drop layout.pages pages.now) }
{
    let (part, rest) = pages.split_at(layout.pages as usize);
    pins.push(Pin {
        pages: copied(alloc, part)?,
        layout,
    })?;
    Ok(rest)
}

/// Appends the pins of a module's images, which have its pages one after another.
fn push_pins(
    alloc: Global,
    pins: &mut Vec<Pin>,
    layouts: &[Layout],
    pages: &[u32],
) -> Result<(), AllocError>
    requires { layout_pages layouts.now ≤ length pages.now }
    ensures { OnOk result (map shown pins.new.items ≡ map shown pins.old.items ++ cut_pins layouts.now pages.now) }
{
    let mut rest = pages;
    for layout in layouts {
        rest = push_pin(alloc, pins, *layout, rest)?;
    }
    Ok(())
}

/// The parts of the images of a module.
fn layouts_of(layouts: &[Vec<Layout>], module: u32) -> &[Layout]
    ensures { result.now ≡ layouts_at layouts.now «module» }
{
    let place = module as usize;
    if place < layouts.len() {
        layouts[place].as_slice()
    } else {
        &[]
    }
}

/// The pages that a module is given, if it is loaded.
fn given_pages<'a>(loads: &[Load], places: &'a [Vec<u32>], module: u32) -> Option<&'a [u32]>
    requires { length places.now ≡ length loads.now }
    ensures { MatchOption result (given_to «module» loads.now (lists places.now) ≡ None)
        (λ r. given_to «module» loads.now (lists places.now) ≡ Some r.now) }
{
    for place in 0..loads.len() {
        if loads[place].module == module {
            return Some(places[place].as_slice());
        }
    }
    None
}

/// The pages of a module of a chain: those that it is given, else those that it has.
fn module_pages<'a>(
    counts: &'a Counts,
    loads: &[Load],
    places: &'a [Vec<u32>],
    module: u32,
) -> &'a [u32]
    requires same { length places.now ≡ length loads.now }
    requires there { given_to «module» loads.now (lists places.now) ≡ None
        → resident (marks (deeds counts.now.journal)) «module» ≡ true }
    ensures { result.now ≡ chosen_pages counts.now loads.now (lists places.now) «module» }
{
    match given_pages(loads, places, module) {
        Some(pages) => pages,
        None => counts.pages_of(module),
    }
}

/// The pins of the modules of a chain.
pub fn chain_pins(
    alloc: Global,
    counts: &Counts,
    layouts: &[Vec<Layout>],
    loads: &[Load],
    places: &[Vec<u32>],
    modules: &[u32],
) -> Result<Vec<Pin>, AllocError>
    requires same { length places.now ≡ length loads.now }
    requires can { AllByRecursion (CanPin layouts.now counts.now loads.now (lists places.now)) modules.now }
    ensures { IfOk result (λ v. map shown v.items
        ≡ pins_for (layouts_at layouts.now) (chosen_pages counts.now loads.now (lists places.now)) modules.now) }
{
    let mut pins = Vec::new(alloc);
    for module in modules {
        let pages = module_pages(counts, loads, places, *module);
        push_pins(alloc, &mut pins, layouts_of(layouts, *module), pages)?;
    }
    Ok(pins)
}

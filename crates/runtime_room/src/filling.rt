//! The tables of modules are put into their pages.
ghost use Rattle.std.specs.Prelude.{◌≡◌, ◌≤◌, length, take, drop};
ghost use Rattle.std.specs.List.{AllByRecursion};
ghost use Rattle.code_table.specs.Images.{page_count};
ghost use Rattle.history_core.specs.Tokens.{number, front, filled, IsTurnOf};
ghost use Rattle.module_counts.specs.Stocks.{lists};
ghost use Rattle.runtime_histories.specs.Places.{pages_for};
ghost use Rattle.runtime_room.specs.Puts.{IsPut, all_parts, Fit, joined, KeepsElse, CanPut};
ghost use Rattle.runtime_room.specs.Rooms.{parts};

use code_table::CodeTable;
use history_core::Turn;
use page_store::{PagedStory, put_table};
use runtime_histories::ModuleTables;

/// Puts a table into the first pages, as many as it needs, and answers the others.
fn put_next<'a, S: PagedStory>(
    turn: &mut Turn<'_, S>,
    table: &CodeTable,
    pages: &'a [u32],
) -> &'a [u32]
    requires turn { IsTurnOf turn.old.hall.now turn.old }
    requires enough { page_count table.now ≤ length pages.now }
    requires free { CanPut turn.old.hall.now turn.old.pass.now pages.now }
    ensures turn { IsTurnOf turn.old.hall.now turn.new }
    ensures same { (turn.new.pass.ghost_name ≡ turn.old.pass.ghost_name)
        × (turn.new.hall ≡ turn.old.hall) × (turn.new.value ≡ turn.old.value) }
    ensures pass { (number turn.new.pass.now ≡ number turn.old.pass.now)
        × (front turn.new.pass.now ≡ front turn.old.pass.now) }
    ensures put { IsPut (filled turn.new.pass.now)
        (record { table = table.now; pages = take (page_count table.now) pages.now }) }
    ensures others { KeepsElse (take (page_count table.now) pages.now)
        (filled turn.old.pass.now) (filled turn.new.pass.now) }
    ensures rest { result.now ≡ drop (page_count table.now) pages.now }
{
    let (part, rest) = pages.split_at(table.pages() as usize);
    put_table(turn, table, part);
    rest
}

/// Puts tables into pages, one after another.
fn put_tables<S: PagedStory>(turn: &mut Turn<'_, S>, tables: &[CodeTable], pages: &[u32])
    requires turn { IsTurnOf turn.old.hall.now turn.old }
    requires fits { length pages.now ≡ pages_for tables.now }
    requires free { CanPut turn.old.hall.now turn.old.pass.now pages.now }
    ensures turn { IsTurnOf turn.old.hall.now turn.new }
    ensures same { (turn.new.pass.ghost_name ≡ turn.old.pass.ghost_name)
        × (turn.new.hall ≡ turn.old.hall) × (turn.new.value ≡ turn.old.value) }
    ensures pass { (number turn.new.pass.now ≡ number turn.old.pass.now)
        × (front turn.new.pass.now ≡ front turn.old.pass.now) }
    ensures put { AllByRecursion (IsPut (filled turn.new.pass.now)) (parts tables.now pages.now) }
    ensures others { KeepsElse pages.now (filled turn.old.pass.now) (filled turn.new.pass.now) }
{
    let mut rest = pages;
    let mut k: usize = 0;
    while k < tables.len() {
        rest = put_next(turn, &tables[k], rest);
        k += 1;
    }
}

/// Puts the tables of modules into pages, each module into its own.
pub fn put_modules<S: PagedStory>(
    turn: &mut Turn<'_, S>,
    modules: &[ModuleTables],
    places: &[Vec<u32>],
)
    requires turn { IsTurnOf turn.old.hall.now turn.old }
    requires fits { Fit modules.now (lists places.now) }
    requires free { CanPut turn.old.hall.now turn.old.pass.now (joined (lists places.now)) }
    ensures turn { IsTurnOf turn.old.hall.now turn.new }
    ensures same { (turn.new.pass.ghost_name ≡ turn.old.pass.ghost_name)
        × (turn.new.hall ≡ turn.old.hall) × (turn.new.value ≡ turn.old.value) }
    ensures pass { (number turn.new.pass.now ≡ number turn.old.pass.now)
        × (front turn.new.pass.now ≡ front turn.old.pass.now) }
    ensures put { AllByRecursion (IsPut (filled turn.new.pass.now))
        (all_parts modules.now (lists places.now)) }
{
    let mut k: usize = 0;
    while k < modules.len() {
        put_tables(turn, modules[k].as_slice(), places[k].as_slice());
        k += 1;
    }
}

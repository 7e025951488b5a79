//! Two threads take one table, of whom the first fills it into its pages, and look bytes up.
ghost use Rattle.std.specs.Prelude.{◌≡◌, ◌<◌, true, length, IfOk};
ghost use Rattle.code_pairs.specs.Tables.{table_at};
ghost use Rattle.code_table.specs.Looks.{look_of};
ghost use Rattle.page_store.specs.Holdings.{holdings_of};
ghost use Rattle.page_store.specs.Pins.{tables_of, CanLook};
ghost use Rattle.history_core.specs.Tokens.{number, front, filled};
ghost use Rattle.history_core.specs.Tokens.{IsPassOf, IsTurnOf, IsSame};
ghost use Rattle.two_threads.specs.Shelves.{pages_of, table_of, has_taken, IsShelfOf, IsThere};
ghost use Rattle.two_threads.specs.Shelves.{IsHallOf, IsPinOf, IsOnePin};

use crate::shelf::{OneTable, Shelf, Taken};
use code_table::{CodeTable, Look, Lookup};
use history_core::{Hall, Pass, Turn};
use page_store::{PagedStory, Pin, Pinned, put_table};
use std::alloc::{AllocError, Global};
use std::sync::Wait;

/// The numbers of as many first pages as a table has.
pub fn first_pages(alloc: Global, table: &CodeTable) -> Result<Vec<u32>, AllocError>
    ensures { IfOk result (λ pages. pages.items ≡ pages_of table.now) }
{
    let count = table.pages();
    let mut pages = Vec::new(alloc);
    let mut page = 0;
    while page < count {
        pages.push(page)?;
        page += 1;
    }
    Ok(pages)
}

/// The pin of a table in the first pages.
pub fn pin_of(alloc: Global, table: &CodeTable) -> Result<Pin, AllocError>
    ensures { IfOk result (IsPinOf table.now) }
{
    Ok(Pin {
        pages: first_pages(alloc, table)?,
        layout: table.layout(),
    })
}

/// Fills the table in, if it never was.
fn fill_once(turn: &mut Turn<'_, OneTable>, table: &CodeTable, pages: &[u32])
    requires turn { IsTurnOf turn.old.hall.now turn.old }
    requires hall { IsHallOf turn.old.hall.now table.now }
    requires shelf { IsShelfOf turn.old.value (front turn.old.pass.now) }
    requires pages { pages.now ≡ pages_of table.now }
    ensures turn { IsTurnOf turn.old.hall.now turn.new }
    ensures same { (turn.new.pass.ghost_name ≡ turn.old.pass.ghost_name)
        × (turn.new.hall ≡ turn.old.hall) × (turn.new.value ≡ turn.old.value) }
    ensures pass { (number turn.new.pass.now ≡ number turn.old.pass.now)
        × (front turn.new.pass.now ≡ front turn.old.pass.now) }
    ensures there { IsThere table.now (front turn.old.pass.now) (filled turn.new.pass.now) }
{
    let was = turn.value().filled;
    if !was {
        put_table(turn, table, pages);
    }
}

/// Takes the table; false where the history is too long for an entry.
pub fn take<R: Wait>(
    rt: &R,
    hall: &Hall<OneTable>,
    pass: &mut Pass<OneTable>,
    table: &CodeTable,
    pages: &[u32],
) -> bool
    requires own { IsPassOf hall.now pass.old }
    requires hall { IsHallOf hall.now table.now }
    requires pages { pages.now ≡ pages_of table.now }
    ensures own { IsPassOf hall.now pass.new }
    ensures number { number pass.new ≡ number pass.old }
    ensures taken { result ≡ true → has_taken (number pass.new) (front pass.new) ≡ true }
{
    let mut turn = hall.turn(rt, pass);
    if turn.seen() == u64::MAX {
        turn.leave();
        return false;
    }
    fill_once(&mut turn, table, pages);
    turn.value().filled = true;
    turn.commit(Taken);
    true
}

/// What bytes stand for in the first table that a pass holds.
fn look_first<S: PagedStory>(hall: &Hall<S>, pass: &mut Pass<S>, pins: &[Pin], bytes: &[u8]) -> Look
    requires ready { CanLook S.holds hall.now pass.old pins.now }
    requires some { 0 < length pins.now }
    ensures value { result
        ≡ look_of (table_at (tables_of (holdings_of S.holds hall.now pass.old) pins.now) 0)
        bytes.now }
    ensures same { IsSame pass.old pass.new }
{
    let mut tables = Pinned { hall, pass, pins };
    tables.code(0, bytes)
}

/// What bytes stand for in the table of the hall, read from its pages.
pub fn look(hall: &Hall<OneTable>, pass: &mut Pass<OneTable>, pins: &[Pin], bytes: &[u8]) -> Look
    requires own { IsPassOf hall.now pass.old }
    requires taken { has_taken (number pass.old) (front pass.old) ≡ true }
    requires pins { IsOnePin (table_of hall.now) pins.now }
    requires hall { IsHallOf hall.now (table_of hall.now) }
    ensures value { result ≡ look_of (table_of hall.now) bytes.now }
    ensures same { IsSame pass.old pass.new }
{
    look_first(hall, pass, pins, bytes)
}

//! Two threads take one table, of whom the first fills it into its pages, and look bytes up there.
ghost use Rattle.std.specs.Prelude.{◌≡◌, IfSome};
ghost use Rattle.code_pairs.specs.Tables.{HasPoints, IsWellFormed};
ghost use Rattle.code_table.specs.Looks.{look_of};
ghost use Rattle.history_core.specs.Tokens.{IsPassOf, IsLeadOf, next_number};
ghost use Rattle.two_threads.specs.Shelved.{CanTakePart, IsShelved};
ghost use Rattle.two_threads.specs.Shelves.{IsHallOf};

use crate::paging::{first_pages, look, pin_of, take};
use crate::shelf::{OneTable, Shelf};
use crate::shelved::Shelved;
use code_table::{CodeTable, Look, pages_are_counted};
use history_core::{Hall, Lead, Pass};
use page_store::Pin;
use std::alloc::Global;
use std::snapshot::Snapshot;
use std::sync::Wait;
use std::thread::{Threads, join};

/// A hall for a table, where there is room.
fn hall_of(alloc: Global, table: &CodeTable) -> Option<(Hall<OneTable>, Lead<OneTable>)>
    requires well_formed { IsWellFormed table.now }
    requires numbers { HasPoints table.now }
    ensures hall { IfSome result (λ made. IsHallOf made.0 table.now) }
    ensures lead { IfSome result (λ made. IsLeadOf made.0 made.1 × (next_number made.1 ≡ 1)) }
{
    pages_are_counted(table);
    let words = table.pages().checked_mul(256)?;
    let shelf = Shelf {
        table: Snapshot::of(table),
        filled: false,
    };
    match Hall::<OneTable>::new(alloc, shelf, words) {
        Ok(made) => Some(made),
        Err(_) => None,
    }
}

/// Makes a hall for a table, where there is room.
pub fn shelve(alloc: Global, table: &CodeTable) -> Option<Shelved>
    requires well_formed { IsWellFormed table.now }
    requires numbers { HasPoints table.now }
    ensures { IfSome result (IsShelved table.now) }
{
    let pages = first_pages(alloc, table).ok()?;
    let pin = pin_of(alloc, table).ok()?;
    let pins = vec![in alloc; pin].ok()?;
    let (hall, lead) = hall_of(alloc, table)?;
    Some(Shelved {
        hall,
        lead,
        pages,
        pins,
    })
}

/// Takes the table and looks bytes up in its pages.
fn take_and_look<R: Wait>(
    rt: &R,
    hall: &Hall<OneTable>,
    mut pass: Pass<OneTable>,
    table: &CodeTable,
    pages: &[u32],
    pins: &[Pin],
    bytes: &[u8],
) -> (Pass<OneTable>, Option<Look>)
    requires { CanTakePart hall.now pass table.now pages.now pins.now }
    ensures pass { IsPassOf hall.now result.0 }
    ensures value { IfSome result.1 (λ found. found ≡ look_of table.now bytes.now) }
{
    if !take(rt, hall, &mut pass, table, pages) {
        return (pass, None);
    }
    let found = look(hall, &mut pass, pins, bytes);
    (pass, Some(found))
}

/// Two passes do so, each in a thread of its own.
fn look_by_two<R: Threads + Wait + Sync>(
    rt: &R,
    hall: &Hall<OneTable>,
    one: Pass<OneTable>,
    two: Pass<OneTable>,
    table: &CodeTable,
    pages: &[u32],
    pins: &[Pin],
    bytes: &[u8],
) -> (
    (Pass<OneTable>, Option<Look>),
    (Pass<OneTable>, Option<Look>),
)
    requires one { CanTakePart hall.now one table.now pages.now pins.now }
    requires two { CanTakePart hall.now two table.now pages.now pins.now }
    ensures one { IsPassOf hall.now result.0.0
        × IfSome result.0.1 (λ found. found ≡ look_of table.now bytes.now) }
    ensures two { IsPassOf hall.now result.1.0
        × IfSome result.1.1 (λ found. found ≡ look_of table.now bytes.now) }
{
    join(
        rt,
        || -> (Pass<OneTable>, Option<Look>)
            requires { CanTakePart hall.now one table.now pages.now pins.now }
            ensures { IsPassOf hall.entry.now result.0
                × IfSome result.1 (λ found. found ≡ look_of table.entry.now bytes.entry.now) }
        { take_and_look(rt, hall, one, table, pages, pins, bytes) },
        || -> (Pass<OneTable>, Option<Look>)
            requires { CanTakePart hall.now two table.now pages.now pins.now }
            ensures { IsPassOf hall.entry.now result.0
                × IfSome result.1 (λ found. found ≡ look_of table.entry.now bytes.entry.now) }
        { take_and_look(rt, hall, two, table, pages, pins, bytes) },
    )
}

/// What bytes stand for, as two threads read it from the pages of a table.
pub fn read_by_two<R: Threads + Wait + Sync>(
    rt: &R,
    alloc: Global,
    table: &CodeTable,
    bytes: &[u8],
) -> Option<(Look, Look)>
    requires well_formed { IsWellFormed table.now }
    requires numbers { HasPoints table.now }
    ensures { IfSome result (λ both. (both.0 ≡ look_of table.now bytes.now)
        × (both.1 ≡ look_of table.now bytes.now)) }
{
    let Shelved {
        hall,
        mut lead,
        pages,
        pins,
    } = shelve(alloc, table)?;
    let Ok(one) = hall.split(&mut lead) else {
        unreachable!()
    };
    let Ok(two) = hall.split(&mut lead) else {
        unreachable!()
    };
    let ((one, first), (two, second)) = look_by_two(
        rt,
        &hall,
        one,
        two,
        table,
        pages.as_slice(),
        pins.as_slice(),
        bytes,
    );
    hall.join(&mut lead, one);
    hall.join(&mut lead, two);
    let _ = hall.abandon(lead);
    Some((first?, second?))
}

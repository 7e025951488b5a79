//! How long look-ups and turns take, in processor time.
ghost use Rattle.std.specs.Prelude.{◌≡◌, ◌<◌, true, length, IfOk};
ghost use Rattle.code_pairs.specs.Tables.{HasPoints, IsWellFormed};
ghost use Rattle.history_core.specs.Tokens.{number, front, IsPassOf};
ghost use Rattle.page_store.specs.Pins.{CanLook};
ghost use Rattle.two_threads.specs.Shelves.{table_of, has_taken, IsHallOf, IsOnePin};

use crate::adding::add_often;
use crate::paging::take;
use crate::reading::shelve;
use crate::shelf::OneTable;
use crate::shelved::Shelved;
use anyhow::{Context, Result, bail};
use charmap_reader::read_charmap;
use code_table::{CodeTable, Look, Lookup, Owned};
use history_core::{Hall, Pass};
use page_store::{PagedStory, Pin, Pinned};
use std::alloc::Global;
use std::io::Print;
use std::sync::Wait;
use std::time::{CpuClock, Duration};
use std::{fs, io};

/// The table of a charmap file.
pub fn read_table(rt: &HostRuntime, alloc: Global, name: &str) -> Result<CodeTable>
    ensures well_formed { IfOk result IsWellFormed }
    ensures numbers { IfOk result HasPoints }
{
    let text = fs::read(rt, name).context(format_args!("{name}"))?;
    let Ok(map) = read_charmap(alloc, text.as_slice()) else {
        bail!("{name} isn't read");
    };
    match CodeTable::build(alloc, &map) {
        Ok(table) => Ok(table),
        Err(_) => bail!("{name} has no table"),
    }
}

/// Looks up the point of a code of two bytes and the code of this point, so many times, and adds up
/// what was found.
fn look_ups<T: Lookup>(tables: &mut T, times: u32) -> u64
    requires ready { T.ready tables.old }
    requires some { 0 < length (T.tables tables.old) }
{
    let mut sum = 0u64;
    for k in 0..times {
        let bytes = [0xB0 + (k / 94 % 32) as u8, 0xA1 + (k % 94) as u8];
        if let Look::Point { point, .. } = tables.code(0, &bytes) {
            sum = sum.wrapping_add(point as u64);
            if tables.bytes(0, point).is_some() {
                sum = sum.wrapping_add(1);
            }
        }
    }
    sum
}

/// The same in the first table that a pass holds.
fn look_ups_first<S: PagedStory>(
    hall: &Hall<S>,
    pass: &mut Pass<S>,
    pins: &[Pin],
    times: u32,
) -> u64
    requires ready { CanLook S.holds hall.now pass.old pins.now }
    requires some { 0 < length pins.now }
{
    let mut tables = Pinned { hall, pass, pins };
    look_ups(&mut tables, times)
}

/// The same in the table of a hall.
fn look_ups_paged(hall: &Hall<OneTable>, pass: &mut Pass<OneTable>, pins: &[Pin], times: u32) -> u64
    requires own { IsPassOf hall.now pass.old }
    requires taken { has_taken (number pass.old) (front pass.old) ≡ true }
    requires pins { IsOnePin (table_of hall.now) pins.now }
    requires hall { IsHallOf hall.now (table_of hall.now) }
{
    look_ups_first(hall, pass, pins, times)
}

/// Writes how many nanoseconds each of so many took, and the sum of what was found.
fn report<R: Print>(rt: &R, took: Duration, times: u32, sum: u64) -> io::Result<()> {
    let nanos = took.as_nanos();
    let count = u128::from(times.max(1));
    println!(rt;
        "{}.{:02} ns {sum}",
        nanos / count,
        nanos % count * 100 / count
    )
}

/// Times look-ups in a table of one's own.
pub fn time_owned(rt: &HostRuntime, map: &str, times: u32) -> Result<()> {
    let alloc = rt.alloc();
    let table = read_table(rt, alloc, map)?;
    let mut tables = Owned {
        tables: vec![in alloc; table]?,
    };
    let start = rt.process_cpu_time()?;
    let sum = look_ups(&mut tables, times);
    let took = rt.process_cpu_time()?.saturating_sub(start);
    report(rt, took, times, sum)?;
    Ok(())
}

/// Times look-ups through the pages of a table.
pub fn time_pages<R: Wait + CpuClock + Print>(
    rt: &R,
    alloc: Global,
    table: &CodeTable,
    times: u32,
) -> Result<()>
    requires well_formed { IsWellFormed table.now }
    requires numbers { HasPoints table.now }
{
    let Some(shelved) = shelve(alloc, table) else {
        bail!("there is no room");
    };
    let Shelved {
        hall,
        mut lead,
        pages,
        pins,
    } = shelved;
    let Ok(mut pass) = hall.split(&mut lead) else {
        unreachable!()
    };
    let taken = take(rt, &hall, &mut pass, table, pages.as_slice());
    let start = rt.process_cpu_time();
    let sum = if taken {
        look_ups_paged(&hall, &mut pass, pins.as_slice(), times)
    } else {
        0
    };
    let end = rt.process_cpu_time();
    let _ = hall.abandon(lead);
    report(rt, end?.saturating_sub(start?), times, sum)?;
    Ok(())
}

/// Times turns with a commit that nobody else asks for.
pub fn time_turns<R: Wait + CpuClock + Print>(rt: &R, alloc: Global, times: u32) -> Result<()> {
    let start = rt.process_cpu_time()?;
    let Some(sum) = add_often(rt, alloc, times) else {
        bail!("there is no hall");
    };
    let took = rt.process_cpu_time()?.saturating_sub(start);
    report(rt, took, times, sum)?;
    Ok(())
}

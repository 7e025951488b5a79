//! Reads charmaps, and converts texts in memory by their tables, so that a script can measure both.
//!
//! ```text
//! charmap_bench check FILE..                        each charmap's size, or its fault
//! charmap_bench time MAP N                          how long it takes to read and to build
//! charmap_bench convert MAP TO|FROM FILE N          a text from UTF-8 to the table's set, or back
//! charmap_bench jp ROMAN KANJI TO|FROM FILE N       a text from UTF-8 to ISO-2022-JP, or back
//! ```
//!
//! Times are the processor times of the best of N runs.
#![tactic(auto)]

mod check;
mod direction;
mod measure;
mod pieces;
mod tables;
mod timing;

use anyhow::{Context, Result, bail};
use chain_steps::Set;
use check::check_all;
use code_table::Owned;
use direction::direction_named;
use measure::measure;
use std::{env, fs};
use tables::{read_table, two_tables};
use timing::time_table;

/// How many runs a word asks for.
fn runs(word: &str) -> Result<u32> {
    word.parse::<u32>()
        .context(format_args!("{word:?} is no number"))
}

/// Converts a file by one table.
fn convert(rt: &HostRuntime, map: &str, direction: &str, file: &str, times: &str) -> Result<()> {
    let alloc = rt.alloc();
    let direction = direction_named(direction)?;
    let times = runs(times)?;
    let table = read_table(rt, alloc, map)?;
    let mut tables = Owned {
        tables: vec![in alloc; table]?,
    };
    let input = fs::read(rt, file)?;
    measure(
        rt,
        &mut tables,
        Set::Table(0),
        direction,
        input.as_slice(),
        times,
    )
}

/// Converts a file by a Roman and a Kanji table.
fn convert_jp(
    rt: &HostRuntime,
    roman: &str,
    kanji: &str,
    direction: &str,
    file: &str,
    times: &str,
) -> Result<()> {
    let alloc = rt.alloc();
    let direction = direction_named(direction)?;
    let times = runs(times)?;
    let roman = read_table(rt, alloc, roman)?;
    let kanji = read_table(rt, alloc, kanji)?;
    let mut tables = two_tables(alloc, roman, kanji)?;
    let input = fs::read(rt, file)?;
    let set = Set::Iso2022Jp { roman: 0, kanji: 1 };
    measure(rt, &mut tables, set, direction, input.as_slice(), times)
}

fn main(rt: HostRuntime) -> Result<()> {
    let alloc = rt.alloc();
    let mut words = Vec::new(alloc);
    for word in env::args(&rt)? {
        words.push(word)?;
    }
    match words.as_slice() {
        [_, kind, map, times] if kind.as_str() == "time" => {
            time_table(&rt, map.as_str(), runs(times.as_str())?)
        }
        [_, kind, map, direction, file, times] if kind.as_str() == "convert" => convert(
            &rt,
            map.as_str(),
            direction.as_str(),
            file.as_str(),
            times.as_str(),
        ),
        [_, kind, roman, kanji, direction, file, times] if kind.as_str() == "jp" => convert_jp(
            &rt,
            roman.as_str(),
            kanji.as_str(),
            direction.as_str(),
            file.as_str(),
            times.as_str(),
        ),
        all if all.len() > 2 && all[1].as_str() == "check" => check_all(&rt, &all[2..]),
        _ => bail!("usage: charmap_bench (check FILE.. | time MAP N | convert .. | jp ..)"),
    }
}

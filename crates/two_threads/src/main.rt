//! What two threads do in one hall: they add amounts, one a turn, and read one table in its pages.
//!
//! ```text
//! two_threads                     the sum that two threads added, and what both read
//! two_threads owned MAP N         how long a look-up takes in a table of one's own
//! two_threads pages MAP N         the same through pages
//! two_threads turns N             how long a turn takes that nobody else asks for
//! ```
//!
//! Times are processor times, each of N.
#![tactic(auto)]

mod adding;
mod measure;
mod paging;
mod reading;
mod shelf;
mod shelved;
mod small;
mod tally;

use anyhow::{Context, Result, bail};
use code_table::Look;
use std::{env, io};

/// Writes what two threads added, and what both read.
fn write_rows(rt: &HostRuntime, sum: Option<u64>, both: Option<(Look, Look)>) -> io::Result<()> {
    if let Some(sum) = sum {
        println!(rt; "{sum}")?;
    }
    if let Some((one, two)) = both {
        println!(rt; "{one:?} {two:?}")?;
    }
    Ok(())
}

/// How many a word asks for.
fn many(word: &str) -> Result<u32> {
    word.parse::<u32>()
        .context(format_args!("{word:?} is no number"))
}

fn main(rt: HostRuntime) -> Result<()> {
    let mut words = Vec::new(rt.alloc());
    for word in env::args(&rt)? {
        words.push(word)?;
    }
    match words.as_slice() {
        [_] => {
            let sum = adding::add_by_two(&rt, rt.alloc());
            let both = small::read_small(&rt, rt.alloc());
            write_rows(&rt, sum, both)?;
            Ok(())
        }
        [_, kind, map, times] if kind.as_str() == "owned" => {
            measure::time_owned(&rt, map.as_str(), many(times.as_str())?)
        }
        [_, kind, map, times] if kind.as_str() == "pages" => {
            let table = measure::read_table(&rt, rt.alloc(), map.as_str())?;
            measure::time_pages(&rt, rt.alloc(), &table, many(times.as_str())?)
        }
        [_, kind, times] if kind.as_str() == "turns" => {
            measure::time_turns(&rt, rt.alloc(), many(times.as_str())?)
        }
        _ => bail!("usage: two_threads [owned MAP N | pages MAP N | turns N]"),
    }
}

//! Opens and closes pairs of a large configuration again and again, so that a script can see how long an
//! opening takes as the journal grows, and how often charmaps are fetched.
//!
//! ```text
//! book_bench count|time same SETS PAIRS      one pair, whose modules stay resident
//! book_bench count|time round SETS PAIRS     each set to the next one, so that modules come and go
//! ```
//!
//! Each set has a module of its own, which reads and writes it by a charmap of one code; so there are two
//! lines for a set. With `time` each tenth of the pairs has a line with the processor time of an opening
//! and of a closing.
#![tactic(auto)]

mod made;
mod measure;

use measure::{Plan, measure};
use modules_conf::MOST_LINES;
use std::marker::Brand;
use std::process::ExitCode;
use std::sync::ledger::Blank;
use std::{env, io};

/// A number of the command line, up to a limit.
fn number(word: &str, most: u32) -> u32 {
    match word.parse::<u32>() {
        Ok(number) => number.min(most),
        Err(_) => 0,
    }
}

/// What the words ask for.
fn asked(words: &[String]) -> Option<Plan> {
    let [_, what, kind, sets, pairs] = words else {
        return None;
    };
    Some(Plan {
        timed: what.as_str() == "time",
        moves: kind.as_str() == "round",
        sets: number(sets.as_str(), MOST_LINES as u32 / 2),
        pairs: number(pairs.as_str(), 4_000_000),
    })
}

/// Does what the words ask for; false where they ask for nothing.
fn run(rt: &HostRuntime) -> io::Result<bool> {
    let mut words = Vec::new(rt.alloc());
    for word in env::args(rt)? {
        words.push(word)?;
    }
    let Some(plan) = asked(words.as_slice()) else {
        return Ok(false);
    };
    measure::<Brand>(rt, Blank::new(1), &plan)?;
    Ok(true)
}

fn main(rt: HostRuntime) -> ExitCode {
    match run(&rt) {
        Ok(true) => ExitCode::from(0),
        Ok(false) => ExitCode::from(2),
        Err(_) => ExitCode::from(1),
    }
}

//! Chains that one thread publishes and another one finds, without waiting.
//!
//! ```text
//! two_views find FROM TO NODES <CONFIGURATION     what views find before and after a pair is added
//! two_views time NODES LOOKS                      how long a look-up takes, alone and beside a writer
//! ```
//!
//! The configuration has the lines of a gconv-modules text, and those of a bindings text, each behind the
//! word `bind`. The first one also publishes the chains between so many nodes of a ring, while the view of
//! another thread looks for them. Times are by the clock, of each look-up.
#![tactic(auto)]

ghost use Rattle.std.specs.Prelude.{◌≤◌};

mod beside;
mod finding;
mod graphs;
mod measure;
mod rings;
mod rows;

use graphs::{graph_of, name};
use module_graph::Graph;
use names_alias::Name;
use std::alloc::Global;
use std::env;
use std::io::{self, Input, Print};
use std::marker::Brand;
use std::process::ExitCode;
use std::sync::Wait;
use std::sync::ledger::Blank;
use std::thread::Threads;
use std::time::Clock;

/// A number of the command line, up to a limit.
fn number(word: &str, most: u32) -> u32
    ensures { result ≤ most }
{
    match word.parse::<u32>() {
        Ok(number) => number.min(most),
        Err(_) => 0,
    }
}

/// Writes what views find of a pair of a graph.
fn pair<R: Wait + Print>(
    rt: &R,
    alloc: Global,
    graph: &Graph,
    from: &Name,
    to: &Name,
) -> io::Result<()> {
    rows::write_rows::<R, Brand>(rt, Blank::new(1), alloc, graph, from, to)
}

/// The same of the graph of a text.
fn pair_of<R: Wait + Print>(
    rt: &R,
    alloc: Global,
    text: &str,
    from: &str,
    to: &str,
) -> io::Result<()> {
    match graph_of(alloc, text) {
        Ok(graph) => pair(rt, alloc, &graph, &name(from), &name(to)),
        Err(fault) => Err(fault.into()),
    }
}

/// Writes what is found of the pairs of a ring, or how long so many looks take.
fn ring<R: Threads + Wait + Sync + Clock + Print>(
    rt: &R,
    alloc: Global,
    nodes: u32,
    looks: u32,
) -> io::Result<()> {
    rings::on_ring::<R, Brand>(rt, Blank::new(1), alloc, nodes, looks)
}

/// Writes what views find of a pair of the configuration, and of those of a ring.
fn find<R: Threads + Wait + Sync + Clock + Print + Input>(
    rt: &R,
    alloc: Global,
    from: &str,
    to: &str,
    nodes: u32,
) -> io::Result<()> {
    let text = io::read_to_string(alloc, rt.reader())?;
    pair_of(rt, alloc, text.as_str(), from, to)?;
    ring(rt, alloc, nodes, 0)
}

/// The words of the command line.
fn words_of(rt: &HostRuntime) -> io::Result<Vec<String>> {
    let mut words = Vec::new(rt.alloc());
    for word in env::args(rt)? {
        words.push(word)?;
    }
    Ok(words)
}

/// Does what the words ask for; false where they ask for nothing.
fn run<R: Threads + Wait + Sync + Clock + Print + Input>(
    rt: &R,
    alloc: Global,
    words: &[String],
) -> io::Result<bool> {
    match words {
        [_, _, from, to, nodes] => {
            let nodes = number(nodes.as_str(), 64);
            find(rt, alloc, from.as_str(), to.as_str(), nodes)?;
        }
        [_, _, nodes, looks] => {
            let nodes = number(nodes.as_str(), 256);
            let looks = number(looks.as_str(), 1_000_000_000);
            ring(rt, alloc, nodes, looks.max(1))?;
        }
        _ => return Ok(false),
    }
    Ok(true)
}

fn main(rt: HostRuntime) -> ExitCode {
    let done = match words_of(&rt) {
        Ok(words) => run(&rt, rt.alloc(), &words),
        Err(fault) => Err(fault),
    };
    match done {
        Ok(true) => ExitCode::from(0),
        Ok(false) => ExitCode::from(2),
        Err(_) => ExitCode::from(1),
    }
}

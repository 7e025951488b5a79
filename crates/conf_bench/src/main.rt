//! Runs the reader of configurations, the graph and the search for least chains on large texts.
//!
//! ```text
//! conf_bench ring LINES NODES SEARCHES     a made text: rings over so many names
//! conf_bench pairs LINES SEARCHES          a made text: two names of its own for each line
//! conf_bench file PATH SEARCHES            the text of a file
//! ```
//!
//! Each module word is bound: to a recoding where both ends are sets, else to a table. So many
//! searches go between nodes all over the graph. What is printed are counts, no times.
#![tactic(auto)]

ghost use Rattle.std.specs.Prelude.{◌≤◌, IfOk};

mod bind;
mod made;
mod measure;
mod report;

use anyhow::{Context, Result, bail, ensure};
use measure::measure;
use modules_conf::MOST_LINES;
use std::alloc::Global;
use std::marker::Brand;
use std::rt::Files;
use std::sync::ledger::Blank;
use std::{env, fs};
use text_lines::LONGEST_TEXT;

/// A number of the command line, up to a limit.
fn number(word: &str, most: u32) -> Result<u32>
    ensures { IfOk result (λ number. number ≤ most) }
{
    let number = word
        .parse::<u32>()
        .context(format_args!("{word:?} is no number"))?;
    ensure!(number <= most, "{number} is more than {most}");
    Ok(number)
}

/// The text that the words name, and how many searches they ask for.
fn asked<R: Files + AllocGlobal>(
    rt: &R,
    alloc: Global,
    words: &[String],
) -> Result<(Vec<u8>, u32)> {
    let most = MOST_LINES as u32;
    match words {
        [_, kind, lines, nodes, searches] if kind.as_str() == "ring" => {
            let lines = number(lines.as_str(), most)?;
            let nodes = number(nodes.as_str(), 2 * most)?;
            ensure!(nodes > 0, "a ring has a node");
            Ok((
                made::ring(alloc, lines, nodes)?,
                number(searches.as_str(), 1_000_000)?,
            ))
        }
        [_, kind, lines, searches] if kind.as_str() == "pairs" => {
            let lines = number(lines.as_str(), most)?;
            Ok((
                made::pairs(alloc, lines)?,
                number(searches.as_str(), 1_000_000)?,
            ))
        }
        [_, kind, path, searches] if kind.as_str() == "file" => Ok((
            fs::read(rt, path.as_str())?,
            number(searches.as_str(), 1_000_000)?,
        )),
        _ => bail!("usage: conf_bench (ring LINES NODES | pairs LINES | file PATH) SEARCHES"),
    }
}

fn main(rt: HostRuntime) -> Result<()> {
    let alloc = rt.alloc();
    let mut words = Vec::new(alloc);
    for word in env::args(&rt)? {
        words.push(word)?;
    }
    let (text, searches) = asked(&rt, alloc, &words)?;
    ensure!(text.len() <= LONGEST_TEXT as usize, "the text is too long");
    let report = measure::<Brand>(Blank::new(1), alloc, &text, searches)?;
    println!(rt; "{report}")?;
    Ok(())
}

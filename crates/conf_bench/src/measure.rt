//! The reader, the graph and the search, one after another.
ghost use Rattle.std.specs.Prelude.{◌≡◌, ◌+◌, ◌*◌, ◌<◌, ◌≤◌, length, IfOk};
ghost use Rattle.text_lines.specs.Limits.{longest_text};
ghost use Rattle.conf_bench.specs.Counts.{CountsLines};

use crate::bind::bindings_for;
use crate::report::Report;
use anyhow::{Result, bail};
use chain_search::least;
use module_graph::Graph;
use modules_conf::{ConfFault, read_modules};
use std::alloc::{AllocError, Global};
use std::sync::ledger::{Blank, Ledger};
use work_steps::Steps;

/// How many of the searches find a chain, and the length of the longest one.
fn searched<L: Ledger>(
    alloc: Global,
    graph: &Graph,
    searches: u32,
    steps: &mut Steps<L>,
) -> Result<(u32, usize), AllocError>
    ensures found { IfOk result (λ r. r.0 ≤ searches) }
    ensures steps { steps.new ≤ steps.old + searches * length graph.now.edges }
{
    let nodes = graph.nodes();
    let mut found = 0;
    let mut longest = 0;
    if nodes == 0 {
        return Ok((found, longest));
    }
    for search in 0..searches {
        let source = search.wrapping_mul(7919) % nodes;
        let target = search.wrapping_mul(104_729).wrapping_add(nodes / 2) % nodes;
        if let Some(chain) = least(alloc, graph, source, target, steps)? {
            found += 1;
            longest = longest.max(chain.ordinals.as_slice().len());
        }
    }
    Ok((found, longest))
}

/// Reads a text, builds its graph, and searches it.
pub fn measure<L: Ledger>(
    ledger: Blank,
    alloc: Global,
    text: &[u8],
    searches: u32,
) -> Result<Report>
    requires name { ledger.name ≡ L.name }
    requires parts { ledger.parts ≡ L.parts }
    requires some { 0 < ledger.parts }
    requires text { length text.now ≤ longest_text }
    ensures { IfOk result (CountsLines text.now) }
{
    let mut steps: Steps<L> = Steps::new(ledger);
    let conf = match read_modules(alloc, text) {
        Ok(conf) => conf,
        Err(ConfFault::TooManyLines { line }) => bail!("line {line}: too many lines"),
        Err(ConfFault::Memory) => bail!("out of memory"),
    };
    let bindings = bindings_for(alloc, conf.edges.as_slice())?;
    let graph = Graph::build(alloc, &conf, &bindings)?;
    let (found, longest) = searched(alloc, &graph, searches, &mut steps)?;
    Ok(Report {
        lines: conf.edges.as_slice().len(),
        aliases: conf.aliases.as_slice().len(),
        passed: conf.passed,
        nodes: graph.nodes(),
        edges: graph.edges().len(),
        modules: graph.modules(),
        skipped: graph.skipped(),
        searches,
        found,
        longest,
    })
}

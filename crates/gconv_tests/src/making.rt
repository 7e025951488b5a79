//! Runtimes are made.

ghost use Rattle.std.specs.Prelude.{◌≡◌, ◌<◌, ◌≤◌, ◌^◌, length, IfOk};
ghost use Rattle.modules_conf.specs.Limits.{IsWithinLimits, AreSound};
ghost use Rattle.module_counts.specs.Counting.{IsKnown};
ghost use Rattle.runtime_histories.specs.Charmaps.{HasText};
ghost use Rattle.gconv_runtime.specs.Tokens.{Leads, next_number};

use crate::words::short;
use gconv_runtime::{Gconv, Lead};
use module_graph::{Graph, modules_name_charmaps};
use modules_conf::{Bindings, Conf, aliases_of, read_bindings, read_modules};
use names_alias::Aliases;
use outside::ShelfLibrary;
use std::alloc::{AllocError, Global};
use std::sync::Wait;

/// The limits of a runtime: how many pages its store has, how many callers there may be, and how many
/// entries its journal has at most.
#[derive(Clone, Copy)]
pub struct Sizes {
    pub pages: u32,
    pub callers: u32,
    pub limit: u32,
    ghost pages_fit: { pages ≤ 2 ^ 16 },
    ghost some: { 0 < callers },
    ghost callers_fit: { callers ≤ 64 },
    ghost limit_fits: { limit ≤ 2 ^ 24 },
}

/// The nearest limits that a runtime may have.
pub fn fitting(pages: u32, callers: u32, limit: u32) -> Sizes {
    Sizes {
        pages: pages.min(65_536),
        callers: callers.max(1).min(64),
        limit: limit.min(16_777_216),
    }
}

/// The modules of three sets.
const SETS: &str =
    "module SA// INTERNAL TA 1\nmodule INTERNAL SA// TA 1\nmodule SB// INTERNAL TB 1\nmodule INTERNAL SB// TB 1\nmodule SC// INTERNAL TC 1\nmodule INTERNAL SC// TC 1\n";

/// Their charmaps.
const TABLES: &str = "TA table CA\nTB table CB\nTC table CC\n";

/// What lines say behind a word, or what is usual where none has it.
fn told(alloc: Global, lines: &str, word: &str, usual: &str) -> Result<String, AllocError> {
    let mut text = String::new(alloc);
    for line in lines.lines() {
        if let Some(words) = line.strip_prefix(word) {
            text.push_str(words)?;
            text.push_str("\n")?;
        }
    }
    if text.is_empty() {
        text.push_str(usual)?;
    }
    Ok(text)
}

/// The configuration of some lines.
fn conf(alloc: Global, lines: &str) -> Result<Conf, AllocError>
    ensures { IfOk result (λ conf. IsWithinLimits conf.edges) }
{
    let text = told(alloc, lines, "conf ", SETS)?;
    match read_modules(alloc, short(text.as_str())) {
        Ok(conf) => Ok(conf),
        Err(_) => Err(AllocError),
    }
}

/// The bindings of some lines.
fn bindings(alloc: Global, lines: &str) -> Result<Bindings, AllocError>
    ensures { IfOk result AreSound }
{
    let text = told(alloc, lines, "bind ", TABLES)?;
    match read_bindings(alloc, short(text.as_str())) {
        Ok(bindings) => Ok(bindings),
        Err(_) => Err(AllocError),
    }
}

/// The graph of a configuration.
fn graph_of(alloc: Global, conf: &Conf, bindings: &Bindings) -> Result<Graph, AllocError>
    requires lines { IsWithinLimits conf.now.edges }
    requires bindings { AreSound bindings.now }
    ensures known { IfOk result (λ graph. IsKnown graph (length graph.kinds)) }
    ensures text { IfOk result HasText }
{
    modules_name_charmaps();
    match Graph::build(alloc, conf, bindings) {
        Ok(graph) => {
            let _edges = graph.edges();
            Ok(graph)
        }
        Err(fault) => Err(fault),
    }
}

/// A runtime over a graph.
fn over<R: Wait>(
    rt: &R,
    alloc: Global,
    graph: Graph,
    aliases: Aliases,
    library: ShelfLibrary,
    sizes: Sizes,
) -> Result<(Gconv<ShelfLibrary>, Lead<ShelfLibrary>), AllocError>
    requires known { IsKnown graph (length graph.kinds) }
    requires text { HasText graph }
    ensures { IfOk result (λ made. Leads made.0 made.1 × (next_number made.1 ≡ 1)) }
{
    let directory = match String::from_str(alloc, "d") {
        Ok(directory) => directory,
        Err(_) => String::new(alloc),
    };
    match Gconv::new(
        rt,
        alloc,
        graph,
        aliases,
        library,
        directory,
        sizes.pages,
        sizes.callers,
        sizes.limit,
    ) {
        Ok(made) => Ok(made),
        Err(_) => Err(AllocError),
    }
}

/// A runtime of a configuration.
fn of_conf<R: Wait>(
    rt: &R,
    alloc: Global,
    conf: &Conf,
    bindings: &Bindings,
    library: ShelfLibrary,
    sizes: Sizes,
) -> Result<(Gconv<ShelfLibrary>, Lead<ShelfLibrary>), AllocError>
    requires lines { IsWithinLimits conf.now.edges }
    requires bindings { AreSound bindings.now }
    ensures { IfOk result (λ made. Leads made.0 made.1 × (next_number made.1 ≡ 1)) }
{
    let aliases = aliases_of(alloc, conf)?;
    match graph_of(alloc, conf, bindings) {
        Ok(graph) => over(rt, alloc, graph, aliases, library, sizes),
        Err(fault) => Err(fault),
    }
}

/// A runtime without an entry, of the configuration of some lines.
pub fn runtime<R: Wait>(
    rt: &R,
    alloc: Global,
    lines: &str,
    library: ShelfLibrary,
    sizes: Sizes,
) -> Result<(Gconv<ShelfLibrary>, Lead<ShelfLibrary>), AllocError>
    ensures { IfOk result (λ made. Leads made.0 made.1 × (next_number made.1 ≡ 1)) }
{
    let conf = conf(alloc, lines)?;
    let bindings = bindings(alloc, lines)?;
    of_conf(rt, alloc, &conf, &bindings, library, sizes)
}

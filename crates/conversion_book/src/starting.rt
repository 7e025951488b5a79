//! A runtime is started.
ghost use Rattle.std.specs.Prelude.{◌≡◌, IfOk};
ghost use Rattle.modules_conf.specs.Limits.{IsWithinLimits, AreSound};
ghost use Rattle.module_counts.specs.Counting.{IsKnown};
ghost use Rattle.conversion_book.specs.Starting.{AreParts};

use derivation_cache::Told;
use module_counts::Counts;
use module_graph::{Graph, modules_name_charmaps};
use modules_conf::{Bindings, Conf, aliases_of};
use names_alias::Aliases;
use std::alloc::{AllocError, Global};

/// The graph of a configuration, its aliases, the directory of charmaps, books without an entry, and that no chain
/// was searched yet.
#[derive(Drop)]
pub struct Parts {
    pub graph: Graph,
    pub aliases: Aliases,
    pub dir: String,
    pub counts: Counts,
    pub told: Told,
}

/// What a runtime begins with.
pub fn start(
    alloc: Global,
    conf: &Conf,
    bindings: &Bindings,
    dir: &str,
    pages: u32,
    journal_limit: u32,
) -> Result<Parts, AllocError>
    requires lines { IsWithinLimits conf.now.edges }
    requires bindings { AreSound bindings.now }
    ensures { IfOk result (AreParts conf.now bindings.now dir.now pages journal_limit) }
{
    modules_name_charmaps();
    let graph = Graph::build(alloc, conf, bindings)?;
    let _edges = graph.edges();
    let aliases = aliases_of(alloc, conf)?;
    let dir = String::from_str(alloc, dir)?;
    let counts = Counts::new(alloc, &graph, pages, journal_limit)?;
    let told = Told::empty(alloc, &graph)?;
    Ok(Parts {
        graph,
        aliases,
        dir,
        counts,
        told,
    })
}

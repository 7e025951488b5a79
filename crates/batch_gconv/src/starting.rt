//! What a runtime begins with.

ghost use Rattle.std.specs.Prelude.{IfOk};
ghost use Rattle.modules_conf.specs.Limits.{IsWithinLimits, AreSound};
ghost use Rattle.batch_gconv.specs.Starting.{AreParts};

use module_graph::{Graph, modules_name_charmaps};
use modules_conf::{Bindings, Conf, aliases_of};
use names_alias::Aliases;
use std::alloc::{AllocError, Global};

/// The graph of a configuration, its aliases, and the folder of charmaps.
#[derive(Drop)]
pub struct Parts {
    pub graph: Graph,
    pub aliases: Aliases,
    pub folder: String,
}

/// The graph and the aliases of a configuration, with a folder of charmaps.
pub fn parts_of(
    alloc: Global,
    conf: &Conf,
    bindings: &Bindings,
    folder: &str,
) -> Result<Parts, AllocError>
    requires lines { IsWithinLimits conf.now.edges }
    requires bindings { AreSound bindings.now }
    ensures { IfOk result (AreParts conf.now bindings.now folder.now) }
{
    modules_name_charmaps();
    let graph = Graph::build(alloc, conf, bindings)?;
    let _edges = graph.edges();
    let aliases = aliases_of(alloc, conf)?;
    let folder = String::from_str(alloc, folder)?;
    Ok(Parts {
        graph,
        aliases,
        folder,
    })
}

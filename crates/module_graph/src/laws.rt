//! What holds of every graph of a configuration.
ghost use Rattle.module_graph.specs.Laws.{EdgesAreFound, ModulesNameCharmaps};

/// Each edge of a graph is the one that is found by its ordinal.
pub fn edges_are_found()
    ensures { EdgesAreFound }
{}

/// Where the words of all bindings name charmaps, those of all modules do.
pub fn modules_name_charmaps()
    ensures { ModulesNameCharmaps }
{}

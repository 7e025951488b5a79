//! Edges while they are numbered.
ghost use Rattle.std.specs.Prelude.{◌≡◌, ◌+◌, ◌<◌, ◌^◌, List, [], ◌∷◌, ◌++◌, length, IfOk, OnOk};
ghost use Rattle.std.specs.List.{position_or_len};
ghost use Rattle.std.specs.Option.{option_copied, option_map};
ghost use Rattle.std.specs.Str.{bytes_eq};
ghost use Rattle.indexmap.specs.IndexSet.{insert_key};
ghost use Rattle.module_graph.specs.Numbers.{same_kind};
ghost use Rattle.module_graph.specs.Edges.{NamedEdge};
ghost use Rattle.module_graph.specs.Drafts.{IsDraft, IsRoomy, NumbersKind};

use crate::edge::Edge;
use indexmap::IndexSet;
use modules_conf::Kind;
use names_alias::Name;
use std::alloc::{AllocError, Global};

/// Edges by numbers, with the names of the nodes and the kinds of the modules by these numbers.
#[derive(Drop)]
pub struct Draft {
    pub names: IndexSet<Name>,
    pub edges: Vec<Edge>,
    pub kinds: IndexSet<Kind>,
}

/// The number of a name, which goes last where it is new.
fn number_of_name(names: &mut IndexSet<Name>, name: &Name) -> Result<u32, AllocError>
    requires { length names.old.keys < 2 ^ 31 }
    ensures names { OnOk result (names.new.keys ≡ insert_key bytes_eq names.old.keys name.now) }
    ensures number { IfOk result (λ n. n ≡ position_or_len (bytes_eq name.now) names.old.keys) }
{
    let (number, _) = names.insert_full(name.copied())?;
    Ok(number as u32)
}

/// The number of a kind, which goes last where it is new; none where there is no kind.
fn number_of_kind(
    kinds: &mut IndexSet<Kind>,
    kind: Option<&Kind>,
) -> Result<Option<u32>, AllocError>
    requires { length kinds.old.keys < 2 ^ 31 }
    ensures { IfOk result (NumbersKind kinds.old.keys kinds.new.keys (option_copied kind.entry)) }
{
    let Some(kind) = kind else {
        return Ok(None);
    };
    let (number, _) = kinds.insert_full(kind.copied())?;
    Ok(Some(number as u32))
}

impl Draft {
    /// No edge yet.
    pub fn new(alloc: Global) -> Draft
        ensures { IsDraft [] result }
    {
        Draft {
            names: IndexSet::new(alloc),
            edges: Vec::new(alloc),
            kinds: IndexSet::new(alloc),
        }
    }

    /// Appends an edge.
    pub fn add(
        &mut self,
        ordinal: u32,
        source: &Name,
        target: &Name,
        cost: u32,
        kind: Option<&Kind>,
    ) -> Result<(), AllocError>
        requires { IsRoomy self.old }
        ensures { OnOk result ((before : List NamedEdge) → IsDraft before self.old
            → IsDraft (before ++ record {
              ordinal = ordinal;
              source = source.now;
              target = target.now;
              cost = cost;
              kind = option_copied kind.entry;
            } ∷ []) self.new) }
    {
        let source = number_of_name(&mut self.names, source)?;
        let target = number_of_name(&mut self.names, target)?;
        let module = number_of_kind(&mut self.kinds, kind)?;
        self.edges.push(Edge {
            ordinal,
            source,
            target,
            cost,
            module,
        })?;
        Ok(())
    }
}

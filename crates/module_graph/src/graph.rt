//! The graph.
ghost use Rattle.std.specs.Prelude.{ℕ, List, ◌≡◌, ◌==◌, ◌<◌, length, slice_get, position, Some, IfSome, IfOk};
ghost use Rattle.std.specs.List.{find, list_any};
ghost use Rattle.std.specs.Option.{option_copied};
ghost use Rattle.std.specs.Str.{bytes_eq};
ghost use Rattle.modules_conf.specs.Limits.{IsWithinLimits};
ghost use Rattle.module_graph.specs.Edges.{named_edges};
ghost use Rattle.module_graph.specs.Graph.{IsGraph, edges_into};
ghost use Rattle.module_graph.specs.Numbers.{graph_of, has_end};

use crate::build::drafted;
use crate::by_target::edges_by_target;
use crate::draft::Draft;
use crate::edge::Edge;
use indexmap::IndexSet;
use modules_conf::{Bindings, Conf, Kind};
use names_alias::Name;
use std::alloc::{AllocError, Global};
use std::marker::Model;

/// Nodes, the edges between them, and the modules that these need.
#[derive(Drop)]
pub struct Graph {
    names: IndexSet<Name>,
    edges: Vec<Edge>,
    by_target: Vec<Vec<Edge>>,
    kinds: IndexSet<Kind>,
    skipped: u32,
}

impl Model for Graph {
    ghost use Rattle.module_graph.specs.Graph.{Shape};
    ghost use Rattle.module_graph.specs.ByTarget.{shape, IsIndexed};

    ghost Value = { Shape };

    ghost view = { λ g. shape g.names.keys g.edges.items g.kinds.keys g.skipped };

    ghost invariant = { λ g. IsIndexed (shape g.names.keys g.edges.items g.kinds.keys g.skipped)
        g.by_target.items };
}

impl Graph {
    /// The graph of the built-in edges and of each module line that gives an edge.
    ///
    /// A module line gives one where its module is bound, no end of it is a built-in set other
    /// than INTERNAL, and the ends suit the module's kind. Its ordinal is 15 more than its line's
    /// number.
    pub fn build(alloc: Global, conf: &Conf, bindings: &Bindings) -> Result<Graph, AllocError>
        requires { IsWithinLimits conf.now.edges }
        ensures value { IfOk result (λ graph. graph ≡ graph_of conf.now.edges bindings.now) }
        // A name is a node exactly where it is an end of an edge.
        ensures ends { IfOk result (λ graph. (name : List ℕ) → list_any (bytes_eq name) graph.nodes
            ≡ has_end (named_edges conf.now.edges bindings.now) name) }
    {
        let (draft, skipped) = drafted(alloc, conf.edges.as_slice(), bindings.as_slice())?;
        let Draft {
            names,
            edges,
            kinds,
        } = draft;
        let by_target = edges_by_target(alloc, &edges, names.len())?;
        Ok(Graph {
            names,
            edges,
            by_target,
            kinds,
            skipped,
        })
    }

    /// All edges, by rising ordinal.
    pub fn edges(&self) -> &[Edge]
        ensures value { result.now ≡ self.now.edges }
        ensures graph { IsGraph self.now }
    {
        &self.edges
    }

    /// How many module lines gave no edge.
    pub fn skipped(&self) -> u32
        ensures { result ≡ self.now.skipped }
    {
        self.skipped
    }

    /// How many nodes there are.
    pub fn nodes(&self) -> u32
        ensures value { result ≡ length self.now.nodes }
        ensures graph { IsGraph self.now }
    {
        self.names.len() as u32
    }

    /// The node of a name, or none where the name is no end of an edge.
    pub fn node_of(&self, name: &Name) -> Option<u32>
        ensures value { result ≡ position (bytes_eq name.now) self.now.nodes }
        ensures within { IfSome result (λ node. node < length self.now.nodes) }
    {
        match self.names.get_index_of(name) {
            Some(node) => Some(node as u32),
            None => None,
        }
    }

    /// The edges that lead to a node, by rising ordinal.
    pub fn edges_into(&self, node: u32) -> &[Edge]
        requires { node < length self.now.nodes }
        ensures { result.now ≡ edges_into self.now.edges node }
    {
        &self.by_target[node as usize]
    }

    /// The edge of an ordinal, or none where no edge has it.
    pub fn edge(&self, ordinal: u32) -> Option<&Edge>
        ensures { option_copied result ≡ find (λ e. e.ordinal == ordinal) self.now.edges }
    {
        match self
            .edges
            .binary_search_by_key(&ordinal, |edge| edge.ordinal)
        {
            Ok(at) => Some(&self.edges[at]),
            Err(_) => None,
        }
    }

    /// The kind of a module.
    pub fn kind_of(&self, module: u32) -> &Kind
        requires { «module» < length self.now.kinds }
        ensures { slice_get self.now.kinds «module» ≡ Some result.now }
    {
        match self.kinds.get_index(module as usize) {
            Some(kind) => kind,
            None => unreachable!(),
        }
    }

    /// How many modules there are.
    pub fn modules(&self) -> u32
        ensures { result ≡ length self.now.kinds }
    {
        self.kinds.len() as u32
    }
}

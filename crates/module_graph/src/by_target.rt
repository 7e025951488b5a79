//! Edges by the node to which they lead.
ghost use Rattle.std.specs.Prelude.{◌≡◌, ◌<◌, [], length, IfOk, All};
ghost use Rattle.module_graph.specs.ByTarget.{AreByTarget};

use crate::edge::Edge;
use std::alloc::{AllocError, Global};

/// An empty list of edges for each node.
fn empty_lists(alloc: Global, nodes: usize) -> Result<Vec<Vec<Edge>>, AllocError>
    ensures { IfOk result (λ lists. AreByTarget lists.items [] nodes) }
{
    let mut lists = Vec::with_capacity(alloc, nodes)?;
    for _ in 0..nodes {
        lists.push(Vec::new(alloc))?;
    }
    Ok(lists)
}

/// The edges that lead to each node, in their order.
pub fn edges_by_target(
    alloc: Global,
    edges: &[Edge],
    nodes: usize,
) -> Result<Vec<Vec<Edge>>, AllocError>
    requires { All (λ e. e.target < nodes) edges.now }
    ensures { IfOk result (λ lists. AreByTarget lists.items edges.now nodes) }
{
    let mut lists = empty_lists(alloc, nodes)?;
    for edge in edges {
        let list = &mut lists[edge.target as usize];
        list.push(*edge)?;
    }
    Ok(lists)
}

//! From a chain to its recipe.
ghost use Rattle.std.specs.Prelude.{◌≡◌, ℕ, ◌+◌, ◌<◌, ◌≤◌, ◌^◌, ◌++◌, List, [], ◌∷◌, length, Some, IfOk, OnOk};
ghost use Rattle.chain_recipes.specs.Recipes.{stages, edges_at, joint_between, joints_behind, last_behind, recipe_for, table_count, kind_at};

use crate::stage::{Stage, stage_of};
use chain_search::Chain;
use chain_steps::{Joint, Joints, Recipe};
use module_graph::Graph;
use std::alloc::{AllocError, Global};

/// Appends what the edge of an ordinal does, and answers from where on the tables behind it are
/// numbered.
fn push_stage(
    list: &mut Vec<Stage>,
    graph: &Graph,
    first: u32,
    ordinal: u32,
) -> Result<u32, AllocError>
    requires { first + 2 < 2 ^ 32 }
    ensures reads { IfOk result (λ next. (later : List ℕ) → list.new.items ++ stages graph.now next (edges_at graph.now later)
        ≡ list.old.items ++ stages graph.now first (edges_at graph.now (ordinal ∷ later))) }
    ensures few { IfOk result (λ next. next ≤ first + 2) }
{
    let _graph = graph.edges();
    match graph.edge(ordinal) {
        Some(edge) => {
            let (stage, tables) = stage_of(graph, first, edge);
            list.push(stage)?;
            Ok(first + tables)
        }
        None => Ok(first),
    }
}

/// What the edges of a chain do.
fn stages_of(alloc: Global, graph: &Graph, ordinals: &[u32]) -> Result<Vec<Stage>, AllocError>
    requires { length ordinals.now < 2 ^ 30 }
    ensures { IfOk result (λ v. v.items ≡ stages graph.now 0 (edges_at graph.now ordinals.now)) }
{
    let mut list = Vec::new(alloc);
    let mut first: u32 = 0;
    for ordinal in ordinals {
        first = push_stage(&mut list, graph, first, *ordinal)?;
    }
    Ok(list)
}

/// Appends the joint between two edges, unless the first ends at INTERNAL.
fn push_joint(joints: &mut Vec<Joint>, before: Stage, after: Stage) -> Result<(), AllocError>
    ensures { OnOk result (joints.new.items ≡ joints.old.items ++ joint_between before after) }
{
    if !before.ends_between {
        joints.push(Joint {
            writer: before.writes,
            reader: after.reads,
        })?;
    }
    Ok(())
}

/// The recipe of some edges behind another one.
fn recipe_behind(alloc: Global, first: Stage, rest: &[Stage]) -> Result<Recipe, AllocError>
    ensures { IfOk result (λ r. r ≡ record {
      reader = first.reads;
      joints = joints_behind first rest.now;
      writer = (last_behind first rest.now).writes;
    }) }
{
    let mut joints = Vec::new(alloc);
    let mut last = first;
    for stage in rest {
        push_joint(&mut joints, last, *stage)?;
        last = *stage;
    }
    Ok(Recipe {
        reader: first.reads,
        joints: Joints::new(joints),
        writer: last.writes,
    })
}

/// The recipe of a chain, which has an edge: what its first edge reads, a joint at each inner node
/// but INTERNAL, and what its last edge writes. Tables are numbered along the chain.
pub fn recipe_of(alloc: Global, graph: &Graph, chain: &Chain) -> Result<Recipe, AllocError>
    requires some { 0 < length (edges_at graph.now chain.now.ordinals) }
    requires short { length chain.now.ordinals < 2 ^ 30 }
    ensures { IfOk result (λ r. recipe_for graph.now chain.now.ordinals ≡ Some r) }
{
    let list = stages_of(alloc, graph, chain.ordinals.as_slice())?;
    match list.as_slice().split_first() {
        Some((first, rest)) => recipe_behind(alloc, *first, rest),
        None => unreachable!(),
    }
}

//! A step for each node that has one.
ghost use Rattle.std.specs.Prelude.{◌≡◌, ◌<◌, length, replicate, slice_set, IfOk, None, Some};
ghost use Rattle.chain_search.specs.Steps.{step_at};

use crate::step::Step;
use std::alloc::{AllocError, Global};
use std::marker::Model;

/// The steps of nodes.
#[derive(Drop)]
pub struct Table {
    steps: Vec<Option<Step>>,
}

impl Model for Table {
    ghost use Rattle.std.specs.Prelude.{List, Option};
    ghost use Rattle.chain_search.specs.declared.step.Step.{Step};

    ghost Value = { List (Option Step) };

    ghost view = { λ t. t.steps.items };
}

impl Table {
    /// A table in which none of the nodes has a step.
    pub fn empty(alloc: Global, nodes: usize) -> Result<Table, AllocError>
        ensures { IfOk result (λ table. table ≡ replicate nodes None) }
    {
        let mut steps = Vec::with_capacity(alloc, nodes)?;
        for _ in 0..nodes {
            steps.push(None)?;
        }
        Ok(Table { steps })
    }

    /// The step of a node, if it has one.
    pub fn at(&self, node: u32) -> Option<Step>
        ensures { result ≡ step_at self.now node }
    {
        self.steps.get(node as usize).copied().flatten()
    }

    /// Gives a node a step.
    pub fn put(&mut self, node: u32, step: Step)
        requires { node < length self.old }
        ensures { self.new ≡ slice_set self.old node (Some step) }
    {
        self.steps[node as usize] = Some(step);
    }
}

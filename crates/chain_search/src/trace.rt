//! Chains out of settled steps.
ghost use Rattle.std.specs.Prelude.{◌≡◌, ◌+◌, ◌<◌, ℕ, List, length, IfOk, Some};
ghost use Rattle.module_graph.specs.declared.edge.Edge.{Edge};
ghost use Rattle.chain_search.specs.Chains.{ordinals_of};
ghost use Rattle.chain_search.specs.Steps.{step_at};
ghost use Rattle.chain_search.specs.Search.{AreTold, IsTold};

use crate::step::Step;
use crate::table::Table;
use std::alloc::{AllocError, Global};

/// The ordinals of the chain that settled steps make from a node to the target.
pub fn trace(alloc: Global, known: &Table, source: u32, step: Step) -> Result<Vec<u32>, AllocError>
    requires { IsTold known.now source step }
    ensures { (g : List Edge) (target : ℕ) (walk : ℕ → List Edge) → AreTold g target known.now walk
        → step_at known.now source ≡ Some step
        → IfOk result (λ v. v.items ≡ ordinals_of (walk source)) }
{
    let mut ordinals = Vec::new(alloc);
    let mut at = source;
    for _ in 0..step.length {
        let Some(next) = known.at(at) else {
            unreachable!()
        };
        ordinals.push(next.ordinal)?;
        at = next.next;
    }
    Ok(ordinals)
}

//! Chains of small configurations.

ghost use Rattle.std.specs.Prelude.{◌≡◌, ◌<◌};

use crate::small::{add_number, check, name};
use crate::texts::graph_of;
use chain_search::{Chain, least};
use module_graph::Graph;
use names_alias::Name;
use std::alloc::{AllocError, Global};
use std::marker::Brand;
use std::sync::ledger::{Blank, Ledger};
use work_steps::Steps;

/// Appends a chain: its cost and its ordinals.
fn add_ordinals(answers: &mut String, chain: &Chain) -> Result<(), AllocError> {
    add_number(answers, chain.cost)?;
    for ordinal in chain.ordinals.as_slice() {
        add_number(answers, *ordinal as u64)?;
    }
    Ok(())
}

/// The least chain between two names, with a counter of its own.
fn chain_between<L: Ledger>(
    ledger: Blank,
    alloc: Global,
    graph: &Graph,
    from: &Name,
    to: &Name,
) -> Result<Option<Chain>, AllocError>
    requires name { ledger.name ≡ L.name }
    requires parts { ledger.parts ≡ L.parts }
    requires some { 0 < ledger.parts }
{
    let mut steps: Steps<L> = Steps::new(ledger);
    match (graph.node_of(from), graph.node_of(to)) {
        (Some(source), Some(target)) => least(alloc, graph, source, target, &mut steps),
        _ => Ok(None),
    }
}

/// The same.
fn chain(
    alloc: Global,
    graph: &Graph,
    from: &Name,
    to: &Name,
) -> Result<Option<Chain>, AllocError> {
    chain_between::<Brand>(Blank::new(1), alloc, graph, from, to)
}

/// Appends the least chain between two names, which a space parts.
fn add_chain(
    alloc: Global,
    answers: &mut String,
    graph: &Graph,
    names: &str,
) -> Result<(), AllocError> {
    let Some((from, to)) = names.split_once(' ') else {
        return Ok(());
    };
    match chain(alloc, graph, &name(from), &name(to)) {
        Ok(Some(chain)) => add_ordinals(answers, &chain)?,
        Ok(None) => answers.push_str("none ")?,
        Err(fault) => return Err(fault),
    }
    answers.push_str("\n")
}

/// Appends the least chains between some pairs of names, which bars part.
fn add_chains(
    alloc: Global,
    answers: &mut String,
    graph: &Graph,
    pairs: &str,
) -> Result<(), AllocError> {
    for names in pairs.split('|') {
        add_chain(alloc, answers, graph, names)?;
    }
    Ok(())
}

/// The least chains of a configuration.
fn chains(alloc: Global, text: &str, pairs: &str) -> Result<String, AllocError> {
    let mut answers = String::new(alloc);
    let added = match graph_of(alloc, text) {
        Ok(graph) => add_chains(alloc, &mut answers, &graph, pairs),
        Err(fault) => Err(fault),
    };
    match added {
        Ok(()) => Ok(answers),
        Err(fault) => Err(fault),
    }
}

const DEAR: &str = "module SA// SB// DIR 3\nmodule SA// INTERNAL TA 1\nmodule INTERNAL SB// TB 1\n";

const DEAR_PAIRS: &str = "sa sb|utf-8 utf-8|sb sa|sb sb|utf-8 sa";

const SHORT: &str =
    "\nmodule SA// INTERNAL TA 1\nmodule INTERNAL SB// TB 1\nmodule SA// SB// DIR 2\n";

const TWINS: &str = "module SA// SB// DIR 2\nmodule SA// SB// DIR 2\nmodule SB// SA// DIR 1\n";

const UNBOUND: &str = "module SC// INTERNAL NOPE 1";

#[test]
fn finds_the_least_chain_or_none(rt: HostRuntime) {
    let dear = chains(rt.alloc(), DEAR, DEAR_PAIRS);
    check(&rt, dear, "2 17 18 \n2 2 3 \nnone \nnone \nnone \n");
    check(
        &rt,
        chains(rt.alloc(), SHORT, "sa sb|utf-8 sb"),
        "2 19 \n2 2 18 \n",
    );
    check(
        &rt,
        chains(rt.alloc(), TWINS, "sa sb|sa sa"),
        "2 16 \n3 16 18 \n",
    );
    check(&rt, chains(rt.alloc(), UNBOUND, "sc utf-8"), "none \n");
}

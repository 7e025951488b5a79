//! Two configurations: one of three lines, and one whose module isn't bound.

use crate::small::{add_number, add_option, check, name};
use crate::texts::{add_kind, graph_of};
use module_graph::Graph;
use std::alloc::{AllocError, Global};

/// Appends how many edges, nodes and modules there are, and how many lines were passed over.
fn add_sizes(answers: &mut String, graph: &Graph) -> Result<(), AllocError> {
    add_number(answers, graph.edges().len() as u64)?;
    add_number(answers, graph.nodes() as u64)?;
    add_number(answers, graph.modules() as u64)?;
    add_number(answers, graph.skipped() as u64)?;
    answers.push_str("\n")
}

/// Appends the edge of an ordinal: its ends, its cost and its module.
fn add_edge(answers: &mut String, graph: &Graph, ordinal: u32) -> Result<(), AllocError> {
    match graph.edge(ordinal) {
        Some(edge) => {
            add_number(answers, edge.source as u64)?;
            add_number(answers, edge.target as u64)?;
            add_number(answers, edge.cost as u64)?;
            add_option(answers, edge.module)?;
        }
        None => answers.push_str("none")?,
    }
    answers.push_str("\n")
}

/// Appends the edges of some ordinals.
fn add_edges(answers: &mut String, graph: &Graph, first: u32, end: u32) -> Result<(), AllocError> {
    for ordinal in first..end {
        add_edge(answers, graph, ordinal)?;
    }
    Ok(())
}

/// Appends the nodes of some names.
fn add_nodes(answers: &mut String, graph: &Graph, names: &str) -> Result<(), AllocError> {
    for text in names.split(' ') {
        add_option(answers, graph.node_of(&name(text)))?;
    }
    answers.push_str("\n")
}

/// Appends a graph.
fn add_graph(answers: &mut String, graph: &Graph) -> Result<(), AllocError> {
    add_sizes(answers, graph)?;
    add_edges(answers, graph, 0, 2)?;
    add_edges(answers, graph, 11, 13)?;
    add_edges(answers, graph, 16, 20)?;
    add_nodes(answers, graph, "ascii internal ucs-4 sb sc")
}

/// The answers of the graph of three lines.
fn numbers(alloc: Global) -> Result<String, AllocError> {
    let mut answers = String::new(alloc);
    let added = match graph_of(alloc, LINES) {
        Ok(graph) => add_graph(&mut answers, &graph),
        Err(fault) => Err(fault),
    };
    match added {
        Ok(()) => Ok(answers),
        Err(fault) => Err(fault),
    }
}

const LINES: &str =
    "module SA// SB// DIR 3\nmodule SA// INTERNAL TA 1\nmodule INTERNAL SB// TB 1\n";

const NUMBERS: &str = "15 9 3 0 \n0 1 1 - \n1 0 1 - \n1 6 1 - \nnone\n\
7 8 3 0 \n7 1 1 1 \n1 8 1 2 \nnone\n0 1 6 8 - \n";

#[test]
fn numbers_what_three_lines_say(rt: HostRuntime) {
    check(&rt, numbers(rt.alloc()), NUMBERS);
}

/// Appends how large a graph is, its first module, and how many edges lead to the set between all others.
fn add_passed(answers: &mut String, graph: &Graph) -> Result<(), AllocError> {
    add_sizes(answers, graph)?;
    if graph.modules() > 0 {
        add_kind(answers, graph.kind_of(0))?;
    }
    if graph.nodes() > 1 {
        add_number(answers, graph.edges_into(1).len() as u64)?;
    }
    Ok(())
}

/// The answers of the graph whose lines are passed over but one.
fn passed(alloc: Global) -> Result<String, AllocError> {
    let mut answers = String::new(alloc);
    let added = match graph_of(alloc, PASSED) {
        Ok(graph) => add_passed(&mut answers, &graph),
        Err(fault) => Err(fault),
    };
    match added {
        Ok(()) => Ok(answers),
        Err(fault) => Err(fault),
    }
}

const PASSED: &str = "module SC// INTERNAL TC 1\n\
module SA// INTERNAL TA\n\
module SD// INTERNAL NOPE 1\n\
module UTF-8// SA// DIR\n\
module SA// INTERNAL DIR\n\
module SA// SC// TA\n";

const PASSED_ANSWERS: &str = "14 9 1 4 \ntable CA 8 ";

#[test]
fn keeps_kinds_and_passes_lines_over(rt: HostRuntime) {
    check(&rt, passed(rt.alloc()), PASSED_ANSWERS);
}

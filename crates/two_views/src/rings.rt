//! The pairs of a ring, and the cache and the view that they are published to.
ghost use Rattle.std.specs.Prelude.{◌≡◌, ◌<◌, All, IfOk, OnOk};
ghost use Rattle.derivation_cache.specs.Known.{IsLeastPair};

use crate::beside::write_found;
use crate::finding::searched;
use crate::graphs::{graph_of, name};
use crate::measure::time;
use derivation_cache::{Cache, Pair, View};
use module_graph::Graph;
use names_alias::Name;
use std::alloc::{AllocError, Global};
use std::io;
use std::io::Print;
use std::sync::Wait;
use std::sync::ledger::{Blank, Ledger};
use std::thread::Threads;
use std::time::Clock;
use work_steps::Steps;

/// Appends an edge between two nodes.
fn add_edge(text: &mut String, node: u32, next: u32, cost: u32) -> Result<(), AllocError> {
    write!(text, "module N{node}// N{next}// M {cost}\n")
}

/// A ring of so many nodes, each with an edge to the next one and to the one seven further on.
fn ring_text(alloc: Global, nodes: u32) -> Result<String, AllocError> {
    let mut text = String::new(alloc);
    for node in 0..nodes {
        add_edge(&mut text, node, node.wrapping_add(1) % nodes, 1)?;
        add_edge(&mut text, node, node.wrapping_add(7) % nodes, 7)?;
    }
    text.push_str("bind M recode CA CB\n")?;
    Ok(text)
}

/// The graph of a ring.
fn ring(alloc: Global, nodes: u32) -> Result<Graph, AllocError> {
    let text = ring_text(alloc, nodes)?;
    graph_of(alloc, text.as_str())
}

/// The name of a node.
fn node_name(alloc: Global, node: u32) -> Result<Name, AllocError> {
    let text = format!(in alloc; "N{node}")?;
    Ok(name(text.as_str()))
}

/// Appends the pair of two nodes, where it has a chain.
fn add_pair<L: Ledger>(
    alloc: Global,
    graph: &Graph,
    from: u32,
    to: u32,
    pairs: &mut Vec<Pair>,
    steps: &mut Steps<L>,
) -> Result<(), AllocError>
    requires { All (IsLeastPair graph.now) pairs.old.items }
    ensures { OnOk result (All (IsLeastPair graph.now) pairs.new.items) }
{
    let from = node_name(alloc, from)?;
    let to = node_name(alloc, to)?;
    match searched(alloc, graph, &from, &to, steps) {
        Some(pair) => {
            pairs.push(pair)?;
            Ok(())
        }
        None => Ok(()),
    }
}

/// All pairs of the nodes of a ring that have a chain, the nodes by turns.
fn ring_pairs<L: Ledger>(
    alloc: Global,
    graph: &Graph,
    nodes: u32,
    steps: &mut Steps<L>,
) -> Result<Vec<Pair>, AllocError>
    ensures { IfOk result (λ pairs. All (IsLeastPair graph.now) pairs.items) }
{
    let mut pairs = Vec::new(alloc);
    let size = nodes.max(1);
    for at in size..size.wrapping_mul(size) {
        let node = at % size;
        let next = node.wrapping_add(at / size) % size;
        add_pair(alloc, graph, node, next, &mut pairs, steps)?;
    }
    Ok(pairs)
}

/// Publishes pairs while a view looks for them: writes how many it finds, or how long so many looks take.
fn on_view<R: Threads + Wait + Sync + Clock + Print>(
    rt: &R,
    alloc: Global,
    cache: &mut Cache,
    view: &mut View,
    pairs: &[Pair],
    looks: u32,
) -> io::Result<()>
    requires { All (IsLeastPair cache.old.graph) pairs.now }
{
    if looks == 0 {
        write_found(rt, alloc, cache, view, pairs)
    } else {
        time(rt, alloc, cache, view, pairs, looks)
    }
}

/// The same with a view of a cache.
fn on_cache<R: Threads + Wait + Sync + Clock + Print>(
    rt: &R,
    alloc: Global,
    cache: &mut Cache,
    pairs: &[Pair],
    looks: u32,
) -> io::Result<()>
    requires { All (IsLeastPair cache.old.graph) pairs.now }
{
    match cache.view() {
        Ok(view) => {
            let mut view = view;
            on_view(rt, alloc, cache, &mut view, pairs, looks)
        }
        Err(fault) => Err(fault.into()),
    }
}

/// The same with a cache of a graph.
fn on_pairs<R: Threads + Wait + Sync + Clock + Print>(
    rt: &R,
    alloc: Global,
    graph: &Graph,
    pairs: &[Pair],
    looks: u32,
) -> io::Result<()>
    requires { All (IsLeastPair graph.now) pairs.now }
{
    match Cache::new(rt, alloc, graph, 1) {
        Ok(cache) => {
            let mut cache = cache;
            let done = on_cache(rt, alloc, &mut cache, pairs, looks);
            cache.end(rt);
            done
        }
        Err(fault) => Err(fault.into()),
    }
}

/// The same with the pairs of a ring.
fn on_graph<R: Threads + Wait + Sync + Clock + Print, L: Ledger>(
    rt: &R,
    ledger: Blank,
    alloc: Global,
    graph: &Graph,
    nodes: u32,
    looks: u32,
) -> io::Result<()>
    requires name { ledger.name ≡ L.name }
    requires parts { ledger.parts ≡ L.parts }
    requires some { 0 < ledger.parts }
{
    let mut steps: Steps<L> = Steps::new(ledger);
    match ring_pairs(alloc, graph, nodes, &mut steps) {
        Ok(pairs) => on_pairs(rt, alloc, graph, &pairs, looks),
        Err(fault) => Err(fault.into()),
    }
}

/// The same with the graph of a ring.
pub fn on_ring<R: Threads + Wait + Sync + Clock + Print, L: Ledger>(
    rt: &R,
    ledger: Blank,
    alloc: Global,
    nodes: u32,
    looks: u32,
) -> io::Result<()>
    requires name { ledger.name ≡ L.name }
    requires parts { ledger.parts ≡ L.parts }
    requires some { 0 < ledger.parts }
{
    match ring(alloc, nodes) {
        Ok(graph) => on_graph::<R, L>(rt, ledger, alloc, &graph, nodes, looks),
        Err(fault) => Err(fault.into()),
    }
}

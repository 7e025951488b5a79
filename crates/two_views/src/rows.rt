//! What views find of one pair, before and after it is added.
ghost use Rattle.std.specs.Prelude.{◌≡◌, ◌<◌, IfOk};
ghost use Rattle.derivation_cache.specs.Known.{Extends, IsLeastPair};

use crate::finding::searched;
use derivation_cache::{Cache, Pair, View};
use module_graph::Graph;
use names_alias::Name;
use std::alloc::{AllocError, Global};
use std::io;
use std::io::Print;
use std::sync::Wait;
use std::sync::ledger::{Blank, Ledger};
use work_steps::Steps;

/// Two views of a cache: one that is told of all, and one that is told of nothing.
#[derive(Drop)]
struct Views {
    pub told: View,
    pub untold: View,
}

/// Writes a chain: cost, length, and the first two ordinals.
fn write_chain<R: Print>(
    rt: &R,
    cost: u64,
    length: u32,
    first: u32,
    second: u32,
) -> io::Result<()> {
    print!(rt; "{cost} {length} ")?;
    println!(rt; "[{first}, {second}]")
}

/// Writes what a view finds.
fn write_row<R: Print>(
    rt: &R,
    when: &str,
    view: &mut View,
    from: &Name,
    to: &Name,
) -> io::Result<()>
    ensures { view.new ≡ view.old }
{
    let mut into = [0u32; 2];
    let found = view.chain(from, to, &mut into);
    print!(rt; "{when}: ")?;
    match found {
        None => println!(rt; "none"),
        Some(found) => write_chain(rt, found.cost, found.length, into[0], into[1]),
    }
}

/// Tells a view of all that is published.
fn tell(cache: &Cache, view: &mut View)
    requires { Extends cache.now view.old }
{
    if let Some(list) = cache.tell() {
        view.learn(list);
    }
}

/// Writes what a view finds that has no place of its own.
fn write_third<R: Print>(rt: &R, cache: &mut Cache, pair: &Pair) -> io::Result<()> {
    match cache.view() {
        Ok(view) => {
            let mut view = view;
            write_row(
                rt,
                "a view without a place",
                &mut view,
                &pair.from,
                &pair.to,
            )
        }
        Err(fault) => Err(fault.into()),
    }
}

/// Adds a pair, and writes what a view finds before and after, and when it is told.
fn add_first<R: Wait + Print>(
    rt: &R,
    alloc: Global,
    cache: &mut Cache,
    told: &mut View,
    pair: &Pair,
) -> io::Result<()>
    requires least { IsLeastPair cache.old.graph pair.now }
    requires new { told.old ≡ cache.old }
    ensures { cache.new.graph ≡ cache.old.graph }
{
    let (from, to) = (&pair.from, &pair.to);
    write_row(rt, "before", told, from, to)?;
    cache.add(rt, alloc, from, to, &pair.chain)?;
    write_row(rt, "added", told, from, to)?;
    tell(cache, told);
    write_row(rt, "told", told, from, to)
}

/// Adds the pair again, and writes what the views find.
fn add_again<R: Wait + Print>(
    rt: &R,
    alloc: Global,
    cache: &mut Cache,
    views: &mut Views,
    pair: &Pair,
) -> io::Result<()>
    requires { IsLeastPair cache.old.graph pair.now }
{
    let (from, to) = (&pair.from, &pair.to);
    cache.add(rt, alloc, from, to, &pair.chain)?;
    write_row(rt, "added twice", &mut views.told, from, to)?;
    write_row(rt, "back", &mut views.told, to, from)?;
    write_row(rt, "another view", &mut views.untold, from, to)?;
    write_third(rt, cache, pair)
}

/// Adds a pair twice, and writes what views find before and after.
fn write_before<R: Wait + Print>(
    rt: &R,
    alloc: Global,
    cache: &mut Cache,
    views: &mut Views,
    pair: &Pair,
) -> io::Result<()>
    requires least { IsLeastPair cache.old.graph pair.now }
    requires new { views.old.told ≡ cache.old }
{
    add_first(rt, alloc, cache, &mut views.told, pair)?;
    add_again(rt, alloc, cache, views, pair)
}

/// Writes what the views find when the cache has ended.
fn write_after<R: Print>(rt: &R, views: &mut Views, pair: &Pair) -> io::Result<()> {
    write_row(rt, "ended, told", &mut views.told, &pair.from, &pair.to)?;
    write_row(
        rt,
        "ended, not told",
        &mut views.untold,
        &pair.from,
        &pair.to,
    )
}

/// Two views of a cache.
fn two_views(cache: &mut Cache) -> Result<Views, AllocError>
    ensures kept { cache.new ≡ cache.old }
    ensures told { IfOk result (λ views. views.told ≡ cache.new) }
{
    let told = cache.view()?;
    let untold = cache.view()?;
    Ok(Views { told, untold })
}

/// Writes what the views find while there is a cache, ends it, and writes what they find then.
fn write_all<R: Wait + Print>(
    rt: &R,
    alloc: Global,
    cache: Cache,
    views: Views,
    pair: &Pair,
) -> io::Result<()>
    requires least { IsLeastPair cache.graph pair.now }
    requires new { views.told ≡ cache }
{
    let mut cache = cache;
    let mut views = views;
    let before = write_before(rt, alloc, &mut cache, &mut views, pair);
    cache.end(rt);
    let after = write_after(rt, &mut views, pair);
    match before {
        Ok(()) => after,
        Err(fault) => Err(fault),
    }
}

/// The same with two views of a cache.
fn write_of_cache<R: Wait + Print>(
    rt: &R,
    alloc: Global,
    cache: Cache,
    pair: &Pair,
) -> io::Result<()>
    requires { IsLeastPair cache.graph pair.now }
{
    let mut cache = cache;
    match two_views(&mut cache) {
        Ok(views) => write_all(rt, alloc, cache, views, pair),
        Err(fault) => {
            cache.end(rt);
            Err(fault.into())
        }
    }
}

/// The same with a cache of a graph.
fn write_with<R: Wait + Print>(rt: &R, alloc: Global, graph: &Graph, pair: &Pair) -> io::Result<()>
    requires { IsLeastPair graph.now pair.now }
{
    match Cache::new(rt, alloc, graph, 2) {
        Ok(cache) => write_of_cache(rt, alloc, cache, pair),
        Err(fault) => Err(fault.into()),
    }
}

/// Writes what views find of a pair of a graph.
pub fn write_rows<R: Wait + Print, L: Ledger>(
    rt: &R,
    ledger: Blank,
    alloc: Global,
    graph: &Graph,
    from: &Name,
    to: &Name,
) -> io::Result<()>
    requires name { ledger.name ≡ L.name }
    requires parts { ledger.parts ≡ L.parts }
    requires some { 0 < ledger.parts }
{
    let mut steps: Steps<L> = Steps::new(ledger);
    match searched(alloc, graph, from, to, &mut steps) {
        Some(pair) => write_with(rt, alloc, graph, &pair),
        None => println!(rt; "no chain leads there"),
    }
}

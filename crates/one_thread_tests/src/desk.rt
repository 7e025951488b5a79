//! A runtime, and how many modules it has.

ghost use Rattle.std.specs.Prelude.{◌≡◌, length, IfOk};
ghost use Rattle.modules_conf.specs.Limits.{IsWithinLimits, AreSound};
ghost use Rattle.module_graph.specs.Numbers.{graph_of};

use crate::library::library;
use crate::words::short;
use conversion_book::Book;
use module_graph::Graph;
use modules_conf::{Bindings, Conf, read_bindings, read_modules};
use outside::ShelfLibrary;
use std::alloc::{AllocError, Global};

/// A runtime over a library in memory.
pub struct Desk {
    pub book: Book<ShelfLibrary>,
    pub modules: u32,
    ghost known: { modules ≡ length book.books.graph.kinds },
}

/// The configuration of some lines: those that are none of it are passed over.
fn conf_of(alloc: Global, setup: &str) -> Result<Conf, AllocError>
    ensures { IfOk result (λ conf. IsWithinLimits conf.edges) }
{
    match read_modules(alloc, short(setup)) {
        Ok(conf) => Ok(conf),
        Err(_) => Err(AllocError),
    }
}

/// The text of the bindings.
fn bindings_text(alloc: Global, setup: &str) -> Result<String, AllocError> {
    let mut text = String::new(alloc);
    for line in setup.lines() {
        if let Some(binding) = line.strip_prefix("bind ") {
            text.push_str(binding)?;
            text.push_str("\n")?;
        }
    }
    Ok(text)
}

/// The bindings of some lines.
fn bindings_of(alloc: Global, setup: &str) -> Result<Bindings, AllocError>
    ensures { IfOk result AreSound }
{
    let text = bindings_text(alloc, setup)?;
    match read_bindings(alloc, short(text.as_str())) {
        Ok(bindings) => Ok(bindings),
        Err(_) => Err(AllocError),
    }
}

/// How many modules the graph has.
fn modules_of(alloc: Global, conf: &Conf, bindings: &Bindings) -> Result<u32, AllocError>
    requires { IsWithinLimits conf.now.edges }
    ensures { IfOk result (λ n. n ≡ length (graph_of conf.now.edges bindings.now).kinds) }
{
    match Graph::build(alloc, conf, bindings) {
        Ok(graph) => Ok(graph.modules()),
        Err(fault) => Err(fault),
    }
}

/// The runtime of a configuration and its bindings.
fn book_with(
    alloc: Global,
    setup: &str,
    conf: &Conf,
    bindings: &Bindings,
    pages: u32,
    limit: u32,
) -> Result<Desk, AllocError>
    requires lines { IsWithinLimits conf.now.edges }
    requires bindings { AreSound bindings.now }
{
    let modules = modules_of(alloc, conf, bindings)?;
    let library = library(alloc, setup)?;
    match Book::new(alloc, conf, bindings, library, "d", pages, limit) {
        Ok(book) => Ok(Desk { book, modules }),
        Err(_) => Err(AllocError),
    }
}

/// The runtime of a configuration.
fn book_of(
    alloc: Global,
    setup: &str,
    conf: &Conf,
    pages: u32,
    limit: u32,
) -> Result<Desk, AllocError>
    requires { IsWithinLimits conf.now.edges }
{
    match bindings_of(alloc, setup) {
        Ok(bindings) => book_with(alloc, setup, conf, &bindings, pages, limit),
        Err(fault) => Err(fault),
    }
}

/// The runtime of some lines, with so many pages and a limit of its journal.
pub fn desk_of(alloc: Global, setup: &str, pages: u32, limit: u32) -> Result<Desk, AllocError> {
    match conf_of(alloc, setup) {
        Ok(conf) => book_of(alloc, setup, &conf, pages, limit),
        Err(fault) => Err(fault),
    }
}

//! What an edge does in a chain.
ghost use Rattle.std.specs.Prelude.{◌≡◌, ◌+◌, ◌<◌, ◌^◌, length, slice_get, IfSome};
ghost use Rattle.std.specs.Option.{option_copied};
ghost use Rattle.module_graph.specs.Graph.{IsKnown};
ghost use Rattle.chain_recipes.specs.Recipes.{builtin_of, kind_at, ends_between, table_count, read_by, written_by, stage_of};

use chain_steps::Set;
use module_graph::{Edge, Graph};
use modules_conf::Kind;
use names_alias::internal;
use step_unicode::Uni;

/// The sets that an edge of a chain reads and writes, and whether it ends at INTERNAL.
#[derive(Clone, Copy, Debug, PartialEq, Eq)]
pub struct Stage {
    pub reads: Set,
    pub writes: Set,
    pub ends_between: bool,
}

/// The built-in set of an ordinal.
fn builtin_of(ordinal: u32) -> Uni
    ensures { result ≡ builtin_of ordinal }
{
    match ordinal / 2 {
        0 => Uni::Ascii,
        1 => Uni::Utf8,
        2 => Uni::Utf16,
        3 => Uni::Utf16Le,
        4 => Uni::Utf16Be,
        _ => Uni::Ucs4,
    }
}

/// The kind of an edge's module, if it has one.
fn kind_at<'a>(graph: &'a Graph, edge: &Edge) -> Option<&'a Kind>
    requires { IsKnown (length graph.now.kinds) edge.now }
    ensures { option_copied result ≡ kind_at graph.now edge.now }
{
    match edge.module {
        Some(module) => Some(graph.kind_of(module)),
        None => None,
    }
}

/// How many tables an edge has by the kind of its module.
fn table_count(kind: Option<&Kind>) -> u32
    ensures value { result ≡ table_count (option_copied kind.entry) }
    ensures few { result < 3 }
{
    match kind {
        None => 0,
        Some(Kind::Table { .. }) => 1,
        Some(_) => 2,
    }
}

/// The set that an edge reads, where its tables have the numbers from `first` on.
fn read_by(ordinal: u32, first: u32, kind: Option<&Kind>) -> Set
    requires { first + 1 < 2 ^ 32 }
    ensures { result ≡ read_by ordinal first (option_copied kind.entry) }
{
    match kind {
        None => Set::Unicode(builtin_of(ordinal)),
        Some(Kind::Iso2022Jp { .. }) => Set::Iso2022Jp {
            roman: first,
            kanji: first + 1,
        },
        Some(_) => Set::Table(first),
    }
}

/// The set that it writes.
fn written_by(ordinal: u32, first: u32, kind: Option<&Kind>) -> Set
    requires { first + 1 < 2 ^ 32 }
    ensures { result ≡ written_by ordinal first (option_copied kind.entry) }
{
    match kind {
        Some(Kind::Recode { .. }) => Set::Table(first + 1),
        _ => read_by(ordinal, first, kind),
    }
}

/// Whether an edge ends at INTERNAL.
fn ends_between(graph: &Graph, edge: &Edge) -> bool
    ensures { result ≡ ends_between graph.now edge.now }
{
    match graph.node_of(&internal()) {
        Some(node) => node == edge.target,
        None => false,
    }
}

/// What an edge does in a chain, where its tables have the numbers from `first` on, and how many
/// tables it has.
pub fn stage_of(graph: &Graph, first: u32, edge: &Edge) -> (Stage, u32)
    requires known { IsKnown (length graph.now.kinds) edge.now }
    requires few { first + 1 < 2 ^ 32 }
    ensures stage { result.0 ≡ stage_of graph.now first edge.now }
    ensures tables { result.1 ≡ table_count (kind_at graph.now edge.now) }
    ensures within { result.1 < 3 }
{
    let kind = kind_at(graph, edge);
    let stage = Stage {
        reads: read_by(edge.ordinal, first, kind),
        writes: written_by(edge.ordinal, first, kind),
        ends_between: ends_between(graph, edge),
    };
    (stage, table_count(kind))
}

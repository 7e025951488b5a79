//! Kinds by the names that are bound to them, and the kinds by which module lines give edges.
ghost use Rattle.std.specs.Prelude.{◌≡◌, ℕ, List, IfOk};
ghost use Rattle.std.specs.HashMap.{get};
ghost use Rattle.std.specs.Option.{option_copied};
ghost use Rattle.std.specs.Str.{bytes_eq};
ghost use Rattle.module_graph.specs.Edges.{kind_bound, kind_of_line};
ghost use Rattle.module_graph.specs.Edges.{allows, suits, may_end, is_internal};

use modules_conf::{Binding, EdgeLine, Kind};
use names_alias::{Name, Word, is_builtin, is_internal};
use std::alloc::{AllocError, Global};
use std::collections::HashMap;

/// The kind of each bound name.
pub fn kinds_by_name(alloc: Global, bindings: &[Binding]) -> Result<HashMap<Word, Kind>, AllocError>
    ensures { IfOk result (λ kinds. (name : List ℕ)
        → get bytes_eq kinds name ≡ kind_bound bindings.now name) }
{
    let mut kinds = HashMap::new(alloc);
    for binding in bindings {
        if !kinds.contains_key(&binding.name) {
            kinds.insert(binding.name.copied(), binding.kind.copied())?;
        }
    }
    Ok(kinds)
}

/// Whether a module line may end at a name of which it is known whether it is INTERNAL.
fn is_allowed(name: &Name, internal: bool) -> bool
    requires { internal ≡ is_internal name.now }
    ensures { result ≡ may_end name.now }
{
    internal || !is_builtin(name)
}

/// Whether a kind suits ends of which it is known whether they are INTERNAL.
fn is_suited(kind: &Kind, from: bool, to: bool) -> bool
    ensures { result ≡ suits kind.now from to }
{
    match kind {
        Kind::Table { map: _ } => from != to,
        Kind::Iso2022Jp { roman: _, kanji: _ } => from != to,
        Kind::Recode {
            first: _,
            second: _,
        } => !from && !to,
    }
}

/// Whether a module line has an edge by a kind.
fn has_edge(line: &EdgeLine, kind: &Kind) -> bool
    ensures { result ≡ allows line.now kind.now }
{
    let from = is_internal(&line.source);
    let to = is_internal(&line.target);
    is_allowed(&line.source, from) && is_allowed(&line.target, to) && is_suited(kind, from, to)
}

/// The kind by which a module line gives an edge, if it gives one.
pub fn kind_of_line<'k>(line: &EdgeLine, kinds: &'k HashMap<Word, Kind>) -> Option<&'k Kind>
    ensures { (bindings : List Binding)
        → ((name : List ℕ) → get bytes_eq kinds.now name ≡ kind_bound bindings name)
        → option_copied result ≡ kind_of_line bindings line.now }
{
    let kind = kinds.get(&line.module)?;
    if has_edge(line, kind) {
        Some(kind)
    } else {
        None
    }
}

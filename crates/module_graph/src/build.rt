//! From a configuration to its graph.
ghost use Rattle.std.specs.Prelude.{◌≡◌, ◌+◌, ◌^◌, ◌<◌, ℕ, List, [], ◌∷◌, ◌++◌, IfOk, is_some};
ghost use Rattle.std.specs.List.{filter_map};
ghost use Rattle.std.specs.HashMap.{get};
ghost use Rattle.std.specs.Str.{bytes_eq};
ghost use Rattle.modules_conf.specs.Limits.{IsWithinLimits};
ghost use Rattle.module_graph.specs.Edges.{NamedEdge, builtin_edges, named_edges, skipped_lines};
ghost use Rattle.module_graph.specs.Edges.{kind_bound, kind_of_line, edge_of_line};
ghost use Rattle.module_graph.specs.Drafts.{IsDraft, IsRoomy};

use crate::bound::{kind_of_line, kinds_by_name};
use crate::draft::Draft;
use modules_conf::{Binding, EdgeLine, Kind};
use names_alias::{Word, builtin_set, internal};
use std::alloc::{AllocError, Global};
use std::collections::HashMap;

/// How many sets are built in.
const BUILTIN_SETS: u32 = 6;

/// What an ordinal of a module line has more than the line's number.
const FIRST_ORDINAL: u32 = 15;

/// A draft of the built-in edges.
fn with_builtin(alloc: Global) -> Result<Draft, AllocError>
    ensures { IfOk result (IsDraft builtin_edges) }
{
    let internal = internal();
    let mut draft = Draft::new(alloc);
    for number in 0..BUILTIN_SETS {
        let set = builtin_set(number);
        draft.add(2 * number, &set, &internal, 1, None)?;
        draft.add(2 * number + 1, &internal, &set, 1, None)?;
    }
    Ok(draft)
}

/// Appends the edge of a module line, if it gives one, and says whether it does.
fn add_line(
    draft: &mut Draft,
    line: &EdgeLine,
    kinds: &HashMap<Word, Kind>,
) -> Result<bool, AllocError>
    requires room { IsRoomy draft.old }
    requires line { line.now.line < 2 ^ 31 }
    ensures { IfOk result (λ added. (bindings : List Binding) (before : List NamedEdge)
        → ((name : List ℕ) → get bytes_eq kinds.now name ≡ kind_bound bindings name)
        → IsDraft before draft.old
        → (added ≡ is_some (kind_of_line bindings line.now))
        × IsDraft (before ++ filter_map (edge_of_line bindings) (line.now ∷ [])) draft.new) }
{
    let Some(kind) = kind_of_line(line, kinds) else {
        return Ok(false);
    };
    draft.add(
        FIRST_ORDINAL + line.line,
        &line.source,
        &line.target,
        line.cost,
        Some(kind),
    )?;
    Ok(true)
}

/// A draft of all edges, and how many lines gave none.
pub fn drafted(
    alloc: Global,
    lines: &[EdgeLine],
    bindings: &[Binding],
) -> Result<(Draft, u32), AllocError>
    requires { IsWithinLimits lines.now }
    ensures draft { IfOk result (λ r. IsDraft (named_edges lines.now bindings.now) r.0) }
    ensures skipped { IfOk result (λ r. r.1 ≡ skipped_lines lines.now bindings.now) }
{
    let kinds = kinds_by_name(alloc, bindings)?;
    let mut draft = with_builtin(alloc)?;
    let mut skipped: u32 = 0;
    for line in lines {
        let added = add_line(&mut draft, line, &kinds)?;
        skipped += u32::from(!added);
    }
    Ok((draft, skipped))
}

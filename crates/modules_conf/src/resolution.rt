//! The aliases of a configuration.

ghost use Rattle.std.specs.Prelude.{◌≡◌, ◌++◌, ℕ, List, [], map, IfOk};
ghost use Rattle.names_alias.specs.Aliases.{resolved, caller_name_of};
ghost use Rattle.names_alias.specs.Lookups.{LooksLike};
ghost use Rattle.modules_conf.specs.Resolution.{ends_of, alias_table_of};

use crate::conf::Conf;
use crate::lines::{AliasLine, EdgeLine};
use names_alias::Aliases;
use std::alloc::{AllocError, Global};

/// Fixes the ends of module lines.
fn fix_ends(alloc: Global, edges: &[EdgeLine]) -> Result<Aliases, AllocError>
    ensures { IfOk result (λ aliases. LooksLike aliases (ends_of edges.now) []) }
{
    let mut aliases = Aliases::new(alloc);
    for edge in edges {
        aliases.fix(&edge.source)?;
        aliases.fix(&edge.target)?;
    }
    Ok(aliases)
}

/// The aliases of a configuration: the ends of its module lines are fixed, and of its alias lines
/// the first of each alias counts.
pub fn aliases_of(alloc: Global, conf: &Conf) -> Result<Aliases, AllocError>
    ensures names { IfOk result (λ aliases. (name : List ℕ)
        → resolved aliases name ≡ resolved (alias_table_of conf.now) name) }
    ensures callers { IfOk result (λ aliases. (text : List ℕ)
        → caller_name_of aliases text ≡ caller_name_of (alias_table_of conf.now) text) }
{
    let mut aliases = fix_ends(alloc, conf.edges.as_slice())?;
    let lines = conf.aliases.as_slice();
    for line in lines {
        aliases.add(&line.alias, &line.original)?;
    }
    Ok(aliases)
}

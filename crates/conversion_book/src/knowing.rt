//! Chains that were searched before are found again.
ghost use Rattle.std.specs.Prelude.{◌≡◌, ◌+◌, ◌≤◌, length, IfOk, IfErr};
ghost use Rattle.text_lines.specs.Limits.{longest_text};
ghost use Rattle.runtime_histories.specs.Charmaps.{HasText};
ghost use Rattle.pair_openings.specs.Asking.{asked_of};
ghost use Rattle.pair_openings.specs.Entered.{HasBegun, HasRefused, KeepsLimit};
ghost use Rattle.pair_openings.specs.Knowing.{IsKnown, IsLeastFor};

use chain_search::Chain;
use derivation_cache::Told;
use module_counts::Counts;
use module_graph::Graph;
use names_alias::Aliases;
use outside::Library;
use pair_openings::{Begun, asked, begin_asked};
use runtime_histories::{Asked, Refusal};
use std::alloc::Global;
use std::sync::ledger::Ledger;
use work_steps::Steps;

/// The chain of a pair that was opened before.
fn known_chain<'a>(told: &'a Told, from: &Asked, to: &Asked) -> Option<&'a Chain>
    ensures { IsKnown told.now.graph from.now to.now result }
{
    match (from, to) {
        (Asked::Good(from), Asked::Good(to)) => match told.pair(from, to) {
            Some(pair) => Some(&pair.chain),
            None => None,
        },
        _ => None,
    }
}

/// Keeps the chain of a pair. Where there is no memory for it, the pair's next opening searches again.
fn keep_chain(alloc: Global, told: &mut Told, from: &Asked, to: &Asked, chain: &Chain)
    requires { IsLeastFor told.old.graph from.now to.now chain.now }
    ensures { told.new.graph ≡ told.old.graph }
{
    let (Asked::Good(from), Asked::Good(to)) = (from, to) else {
        return;
    };
    if told.pair(from, to).is_some() {
        return;
    }
    if let Ok(more) = told.with(alloc, from, to, chain) {
        *told = more;
    }
}

/// Begins the opening of a pair of texts. A chain that was searched before isn't searched again.
pub fn begin_again<L: Library, K: Ledger>(
    alloc: Global,
    counts: &mut Counts,
    graph: &Graph,
    aliases: &Aliases,
    library: &mut L,
    dir: &str,
    told: &mut Told,
    caller: u32,
    from: &[u8],
    to: &[u8],
    steps: &mut Steps<K>,
) -> Result<Begun, Refusal>
    requires graph { graph.now ≡ counts.old.graph }
    requires text { HasText graph.now }
    requires told { told.old.graph ≡ graph.now }
    requires from { length from.now ≤ longest_text }
    requires to { length to.now ≤ longest_text }
    ensures ok { IfOk result (HasBegun dir.now counts.old counts.new (L.holdings library.old) (L.holdings library.new)
        (asked_of aliases.now from.now) (asked_of aliases.now to.now)) }
    ensures err { IfErr result (HasRefused dir.now counts.old counts.new (L.holdings library.old) (L.holdings library.new)
        caller (asked_of aliases.now from.now) (asked_of aliases.now to.now)) }
    ensures limit { IfErr result (KeepsLimit counts.old) }
    ensures told { told.new.graph ≡ told.old.graph }
    ensures steps { steps.new ≤ steps.old + length graph.now.edges }
{
    let from = asked(aliases, from);
    let to = asked(aliases, to);
    let known = known_chain(told, &from, &to);
    let begun = begin_asked(
        alloc, counts, graph, library, dir, caller, from, to, known, steps,
    )?;
    keep_chain(alloc, told, &begun.from, &begun.to, &begun.opening.chain);
    Ok(begun)
}

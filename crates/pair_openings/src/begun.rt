//! An opening is begun.
ghost use Rattle.std.specs.Prelude.{◌≡◌, ◌+◌, ◌≤◌, length, IfOk, IfErr};
ghost use Rattle.text_lines.specs.Limits.{longest_text};
ghost use Rattle.runtime_histories.specs.Charmaps.{HasText};
ghost use Rattle.pair_openings.specs.Answers.{IsProper};
ghost use Rattle.pair_openings.specs.Asking.{asked_of};
ghost use Rattle.pair_openings.specs.Entered.{HasBegun, HasRefused, KeepsLimit, is_want};
ghost use Rattle.pair_openings.specs.Knowing.{IsKnown, CountsSteps};

use crate::answer::decide;
use crate::enter::enter_refusal;
use crate::names::asked;
use crate::planning::Opening;
use chain_search::Chain;
use module_counts::Counts;
use module_graph::Graph;
use names_alias::Aliases;
use outside::Library;
use runtime_histories::{Asked, Refusal};
use std::alloc::Global;
use std::sync::ledger::Ledger;
use work_steps::Steps;

/// An opening that can be made: its names as asked, and how it is answered.
#[derive(Drop)]
pub struct Begun {
    pub from: Asked,
    pub to: Asked,
    pub opening: Opening,
}

/// The same refusal, without an allocation.
fn copied(why: &Refusal) -> Refusal
    ensures { result ≡ why.now }
{
    match why {
        Refusal::BadName { which, fault } => Refusal::BadName {
            which: *which,
            fault: *fault,
        },
        Refusal::NoConversion => Refusal::NoConversion,
        Refusal::LibraryFault { module, charmap } => Refusal::LibraryFault {
            module: *module,
            charmap: charmap.copied(),
        },
        Refusal::NoCharmap { module, charmap } => Refusal::NoCharmap {
            module: *module,
            charmap: charmap.copied(),
        },
        Refusal::BadCharmap {
            module,
            charmap,
            fault,
        } => Refusal::BadCharmap {
            module: *module,
            charmap: charmap.copied(),
            fault: *fault,
        },
        Refusal::StoreFull { need, free } => Refusal::StoreFull {
            need: *need,
            free: *free,
        },
        Refusal::JournalFull { length } => Refusal::JournalFull { length: *length },
        Refusal::Memory => Refusal::Memory,
    }
}

/// Whether memory was wanting.
fn is_memory(why: &Refusal) -> bool
    ensures { result ≡ is_want why.now }
{
    match why {
        Refusal::Memory => true,
        _ => false,
    }
}

/// Begins the opening of a pair of names as asked: makes room and decides. A refusal is entered, but
/// for that of a full journal and want of memory. What can be made isn't entered yet, so that its
/// caller may take the memory that it needs before.
///
/// The chain is searched only where it isn't known.
pub fn begin_asked<L: Library, K: Ledger>(
    alloc: Global,
    counts: &mut Counts,
    graph: &Graph,
    library: &mut L,
    dir: &str,
    caller: u32,
    from: Asked,
    to: Asked,
    known: Option<&Chain>,
    steps: &mut Steps<K>,
) -> Result<Begun, Refusal>
    requires graph { graph.now ≡ counts.old.graph }
    requires text { HasText graph.now }
    requires from { IsProper from }
    requires to { IsProper to }
    requires known { IsKnown graph.now from to known }
    ensures ok { IfOk result (HasBegun dir.now counts.old counts.new (L.holdings library.old) (L.holdings library.new) from to) }
    ensures err { IfErr result (HasRefused dir.now counts.old counts.new (L.holdings library.old) (L.holdings library.new) caller from to) }
    ensures limit { IfErr result (KeepsLimit counts.old) }
    ensures steps { CountsSteps (length graph.now.edges) known.entry steps.old steps.new }
{
    match counts.reserve() {
        Ok(()) => {}
        Err(why) => return Err(why),
    }
    match decide(alloc, counts, graph, library, dir, &from, &to, known, steps) {
        Ok(opening) => Ok(Begun { from, to, opening }),
        Err(why) => {
            if is_memory(&why) {
                return Err(why);
            }
            enter_refusal(alloc, counts, graph, caller, from, to, copied(&why));
            Err(why)
        }
    }
}

/// Begins the opening of a pair of texts, and searches its chain.
pub fn begin<L: Library, K: Ledger>(
    alloc: Global,
    counts: &mut Counts,
    graph: &Graph,
    aliases: &Aliases,
    library: &mut L,
    dir: &str,
    caller: u32,
    from: &[u8],
    to: &[u8],
    steps: &mut Steps<K>,
) -> Result<Begun, Refusal>
    requires graph { graph.now ≡ counts.old.graph }
    requires text { HasText graph.now }
    requires from { length from.now ≤ longest_text }
    requires to { length to.now ≤ longest_text }
    ensures ok { IfOk result (HasBegun dir.now counts.old counts.new (L.holdings library.old) (L.holdings library.new)
        (asked_of aliases.now from.now) (asked_of aliases.now to.now)) }
    ensures err { IfErr result (HasRefused dir.now counts.old counts.new (L.holdings library.old) (L.holdings library.new)
        caller (asked_of aliases.now from.now) (asked_of aliases.now to.now)) }
    ensures limit { IfErr result (KeepsLimit counts.old) }
    ensures steps { steps.new ≤ steps.old + length graph.now.edges }
{
    let from = asked(aliases, from);
    let to = asked(aliases, to);
    begin_asked(
        alloc, counts, graph, library, dir, caller, from, to, None, steps,
    )
}

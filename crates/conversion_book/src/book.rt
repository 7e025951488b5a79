//! The runtime of one thread.

use crate::descriptor::{Descriptor, convert_held, drop_held, reset_held};
use crate::entering::enter;
use crate::kept::{Kept, keep_resident};
use crate::knowing::begin_again;
use crate::lent::{Work, run_held};
use crate::starting::{Parts, start};
use crate::whole::convert_whole_held;
use chain_steps::{Progress, Reset};
use derivation_cache::Told;
use module_counts::Counts;
use module_graph::Graph;
use modules_conf::{Bindings, Conf};
use names_alias::Aliases;
use outside::Library;
use runtime_histories::{Entry, Refusal};
use std::alloc::{AllocError, Global};
use std::marker::Model;
use std::sync::ledger::Ledger;
use step_buffers::{Buffers, Finish};
use work_steps::Steps;

/// The runtime of one thread over a library of charmaps. A clause sees the books, the live descriptors
/// and what the library tells.
#[derive(Drop)]
pub struct Book<L: Library> {
    alloc: Global,
    graph: Graph,
    aliases: Aliases,
    dir: String,
    library: L,
    counts: Counts,
    told: Told,
    kept: Vec<Kept>,
    held: Vec<Descriptor>,
}

impl<L: Library> Model for Book<L> {
    ghost use Rattle.std.specs.Prelude.{◌≡◌, map, string_bytes};
    ghost use Rattle.conversion_book.specs.Runtime.{Runtime};
    ghost use Rattle.conversion_book.specs.Descriptors.{held_as, kept_as};
    ghost use Rattle.conversion_book.specs.Inside.{IsBook};

    ghost Value = { Runtime };

    ghost view = { λ b. record {
      books = b.counts;
      aliases = b.aliases;
      directory = string_bytes b.dir;
      library = L.holdings b.library;
      held = map held_as b.held.items;
    } };

    ghost invariant = { λ b. IsBook b.graph (map kept_as b.kept.items) (record {
      books = b.counts;
      aliases = b.aliases;
      directory = string_bytes b.dir;
      library = L.holdings b.library;
      held = map held_as b.held.items;
    }) × (b.told.graph ≡ b.graph) };
}

/// Memory was wanting; the library comes back.
#[derive(Drop)]
pub struct NoMemory<L> {
    pub library: L,
}

/// What is left of a runtime: its library and the whole journal.
#[derive(Drop)]
pub struct Closed<L> {
    pub library: L,
    pub journal: Vec<Entry>,
}

impl<L: Library> Book<L> {
    ghost use Rattle.std.specs.Prelude.{◌≡◌, ℕ, ◌+◌, ◌<◌, ◌≤◌, ◌↔◌, List, length, IsTrue, IfOk, IfErr, IfSome, OnErr, MatchResult};
    ghost use Rattle.text_lines.specs.Limits.{longest_text};
    ghost use Rattle.modules_conf.specs.Limits.{IsWithinLimits, AreSound};
    ghost use Rattle.chain_steps.specs.Chains.{initial};
    ghost use Rattle.chain_steps.specs.Runs.{IsCall};
    ghost use Rattle.chain_steps.specs.Resets.{IsReset};
    ghost use Rattle.step_buffers.specs.Limits.{longest_stream};
    ghost use Rattle.runtime_histories.specs.Deeds.{IsLive, live, marks};
    ghost use Rattle.runtime_histories.specs.Legal.{Legal};
    ghost use Rattle.runtime_histories.specs.Places.{free};
    ghost use Rattle.runtime_histories.specs.Residence.{resident};
    ghost use Rattle.pair_openings.specs.Asking.{asked_of};
    ghost use Rattle.conversion_book.specs.Runtime.{Runtime, log_of, setting_of, held_at, IsHeld};
    ghost use Rattle.conversion_book.specs.Openings.{IsNew, Opens, Refuses};
    ghost use Rattle.conversion_book.specs.Calls.{Calls, Closes, ConvertsWhole};

    /// A runtime that has no entry, for a configuration with its bindings. Charmaps are fetched from the
    /// directory `dir` of the library, and their tables share a store of so many pages.
    pub fn new(
        alloc: Global,
        conf: &Conf,
        bindings: &Bindings,
        library: L,
        dir: &str,
        pages: u32,
        journal_limit: u32,
    ) -> Result<Book<L>, NoMemory<L>>
        requires lines { IsWithinLimits conf.now.edges }
        requires bindings { AreSound bindings.now }
        ensures { MatchResult result (IsNew conf.now bindings.now dir.now pages journal_limit (L.holdings library))
            (λ e. e.library ≡ library) }
    {
        match start(alloc, conf, bindings, dir, pages, journal_limit) {
            Ok(parts) => {
                let Parts {
                    graph,
                    aliases,
                    dir,
                    counts,
                    told,
                } = parts;
                Ok(Book {
                    alloc,
                    graph,
                    aliases,
                    dir,
                    library,
                    counts,
                    told,
                    kept: Vec::new(alloc),
                    held: Vec::new(alloc),
                })
            }
            Err(_) => Err(NoMemory { library }),
        }
    }

    /// Opens a pair of names, and answers the descriptor's number, which is the position of its entry.
    pub fn open_pair<K: Ledger>(
        &mut self,
        caller: u32,
        from: &[u8],
        to: &[u8],
        steps: &mut Steps<K>,
    ) -> Result<u64, Refusal>
        requires from { length from.now ≤ longest_text }
        requires to { length to.now ≤ longest_text }
        ensures ok { IfOk result (Opens self.old self.new caller
            (asked_of self.old.aliases from.now) (asked_of self.old.aliases to.now)) }
        ensures err { IfErr result (Refuses self.old self.new caller
            (asked_of self.old.aliases from.now) (asked_of self.old.aliases to.now)) }
        ensures held { IfOk result (IsHeld self.new) }
        ensures fresh { IfOk result (λ n.
            IfSome (held_at n self.new.held) (λ h. h.machine.states ≡ initial)) }
        ensures steps { steps.new ≤ steps.old + length self.old.books.graph.edges }
    {
        let begun = match begin_again(
            self.alloc,
            &mut self.counts,
            &self.graph,
            &self.aliases,
            &mut self.library,
            self.dir.as_str(),
            &mut self.told,
            caller,
            from,
            to,
            steps,
        ) {
            Ok(begun) => begun,
            Err(why) => return Err(why),
        };
        let Ok(number) = enter(
            self.alloc,
            &mut self.counts,
            &self.graph,
            &mut self.kept,
            &mut self.held,
            caller,
            begun,
        ) else {
            return Err(Refusal::Memory);
        };
        Ok(number)
    }

    /// Closes a descriptor. It takes no memory, and there is always room for its entry.
    pub fn close_desc(&mut self, caller: u32, number: u64)
        requires { IsLive (log_of self.old) caller number }
        ensures { Closes self.old self.new caller number }
    {
        self.counts.dismiss(&self.graph, caller, number);
        drop_held(&mut self.held, number);
        keep_resident(&mut self.kept, &self.graph, &self.counts);
    }

    /// Converts the longest run of units that read, carry and fit.
    pub fn convert(&mut self, number: u64, input: &[u8], output: &mut [u8]) -> Progress
        requires { IsHeld self.old number }
        ensures { Calls self.old self.new number
            (λ ts m n. IsCall ts m n input.now output.old output.new result) }
    {
        convert_held(self.held.as_mut_slice(), number, input, output)
    }

    /// Writes the return sequence, and puts both states to the initial one.
    pub fn reset(&mut self, number: u64, output: &mut [u8]) -> Reset
        requires { IsHeld self.old number }
        ensures { Calls self.old self.new number
            (λ ts m n. IsReset m n output.old output.new result) }
    {
        reset_held(self.held.as_mut_slice(), number, output)
    }

    /// Lends the converter of a descriptor to a work.
    pub fn with_held<W: Work>(&mut self, number: u64, work: W) -> W::Answer
        requires { IsHeld self.old number }
        ensures { Calls self.old self.new number
            (λ ts m n. (n.recipe ≡ m.recipe) × W.does work ts m n result) }
    {
        run_held(self.held.as_mut_slice(), number, work)
    }

    /// Converts a whole input by a descriptor whose conversion hasn't begun. The bytes stand in the
    /// output of the buffers that come back; what the given ones hold is dropped.
    pub fn convert_whole(
        &mut self,
        number: u64,
        buffers: Buffers,
        input: &[u8],
    ) -> Result<(Buffers, Finish), AllocError>
        requires held { IsHeld self.old number }
        requires fresh { IfSome (held_at number self.old.held) (λ h. h.machine.states ≡ initial) }
        requires short { length input.now ≤ longest_stream }
        ensures ok { IfOk result (λ r. Calls self.old self.new number
            (ConvertsWhole input.now r.0.output.items r.1)) }
        ensures err { OnErr result (Calls self.old self.new number (λ ts m n. n.recipe ≡ m.recipe)) }
    {
        convert_whole_held(self.alloc, self.held.as_mut_slice(), number, buffers, input)
    }

    /// Whether the number is that of a live descriptor of the caller.
    pub fn is_live(&self, caller: u32, number: u64) -> bool
        ensures value { IsTrue result ↔ IsLive (log_of self.now) caller number }
        ensures held { IsTrue result → IsHeld self.now number }
    {
        self.counts.is_live(caller, number)
    }

    /// The whole history.
    pub fn journal(&self) -> &[Entry]
        ensures value { result.now ≡ self.now.books.journal }
        ensures legal { Legal (setting_of self.now) result.now }
    {
        self.counts.journal()
    }

    /// Whether a module is resident.
    pub fn resident(&self, module: u32) -> bool
        requires { «module» < length self.now.books.graph.kinds }
        ensures { result ≡ resident (marks (log_of self.now)) «module» }
    {
        self.counts.resident(module)
    }

    /// How many pages are free: those of the store less those of resident modules.
    pub fn free_pages(&self) -> u32
        ensures { result ≡ free self.now.books.pages (log_of self.now) }
    {
        self.counts.free_pages()
    }

    /// For how many further entries there is room.
    pub fn spare(&self) -> u64
        ensures value { result ≡ self.now.books.spare }
        ensures closable { length (live (log_of self.now)) ≤ result }
        ensures few { length self.now.books.journal + result ≤ self.now.books.limit }
    {
        self.counts.spare()
    }

    /// The library and the whole journal.
    pub fn done(self) -> Closed<L>
        ensures library { L.holdings result.library ≡ self.library }
        ensures journal { result.journal.items ≡ self.books.journal }
        ensures legal { Legal (setting_of self) result.journal.items }
    {
        let Book {
            alloc: _,
            graph: _,
            aliases: _,
            dir: _,
            library,
            counts,
            told: _,
            kept: _,
            held: _,
        } = self;
        Closed {
            library,
            journal: counts.done(),
        }
    }
}

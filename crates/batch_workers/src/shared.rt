//! What a run with workers needs of its runtime.

use crate::gate::Gate;
use batch_alone::{Closed, Worked};
use batch_jobs::Job;
use modules_conf::{Bindings, Conf};
use outside::Library;
use std::alloc::{AllocError, Global};
use std::sync::Wait;
use step_buffers::Buffers;

/// A runtime that many callers share, over a library that it was given. A caller may go to another
/// thread.
pub trait Shared {
    ghost use Rattle.std.specs.Prelude.{◌≡◌, ◌≤◌, ◌+◌, ◌*◌, [], length, IfOk, OnErr, MatchResult};
    ghost use Rattle.text_lines.specs.Limits.{longest_text};
    ghost use Rattle.modules_conf.specs.Limits.{AreSound, IsWithinLimits};
    ghost use Rattle.batch_jobs.specs.Jobs.{HasShortNames, line_of};
    ghost use Rattle.batch_runs.specs.Takings.{Got};
    ghost use Rattle.batch_alone.specs.Readings.{length_made, work_of};
    ghost use Rattle.batch_workers.specs.Parts.{Base, Part, Roll, Ends, IsCutOff, IsNew, Serves};
    ghost use Rattle.batch_workers.specs.Parts.{empty_roll, most_callers, new_part, with_caller, with_end};

    type Library: Library + Send;

    /// The right to make callers, to end them and to close the runtime.
    type Lead;

    /// One who has jobs done.
    type Caller: Send + Drop;

    /// What contracts see of the runtime, which no call changes.
    ghost base: { Self → Base };

    /// What contracts see of a caller.
    ghost part: { Self.Caller → Part };

    /// What contracts see of the lead.
    ghost roll: { Self.Lead → Roll };

    /// The caller is the runtime's.
    ghost knows: { Self → Self.Caller → Type 0 };

    /// The lead is the runtime's.
    ghost leads: { Self → Self.Lead → Type 0 };

    /// A runtime that has no entry, with its lead. The library comes back where memory is wanting.
    fn start<R: Wait>(
        rt: &R,
        alloc: Global,
        conf: &Conf,
        bindings: &Bindings,
        library: Self::Library,
        folder: &str,
        pages: u32,
        limit: u32,
    ) -> Result<(Self, Self::Lead), Self::Library>
        requires lines { IsWithinLimits conf.now.edges }
        requires bindings { AreSound bindings.now }
        ensures { MatchResult result
            (λ m. IsNew conf.now bindings.now folder.now pages (Self.Library.holdings library)
            (base m.0) × leads m.0 m.1 × (roll m.1 ≡ empty_roll))
            (λ l. Self.Library.holdings l ≡ Self.Library.holdings library) };

    /// Makes the next caller, numbered from 1.
    fn caller(&self, lead: &mut Self::Lead) -> Result<Self::Caller, AllocError>
        requires leads { leads self.now lead.old }
        requires few { (roll lead.old).next ≤ most_callers }
        ensures leads { leads self.now lead.new }
        ensures made { IfOk result (λ c. knows self.now c
            × (part c ≡ new_part (roll lead.old).next)
            × (roll lead.new ≡ with_caller (roll lead.old))) }
        ensures err { OnErr result (roll lead.new ≡ roll lead.old) };

    /// Does the work of a job whose input was taken: its pair is opened, the input converted, and the
    /// pair closed. The bytes stand in the output of the buffers. The gate is passed, with the job's
    /// number, between the opening and the conversion.
    fn work<R: Wait, G: Gate>(
        &self,
        rt: &R,
        alloc: Global,
        gate: &G,
        caller: &mut Self::Caller,
        number: u32,
        job: &Job,
        input: &[u8],
        buffers: Buffers,
    ) -> Result<(Worked, Buffers), AllocError>
        requires knows { knows self.now caller.old }
        requires names { HasShortNames job.now }
        requires short { length input.now ≤ longest_text }
        ensures knows { knows self.now caller.new }
        ensures done { MatchResult result
            (λ r. Serves (base self.now).setting (part caller.old) (part caller.new)
            (line_of job.now) (Got input.now) (work_of r.0 r.1.output.items))
            (λ _. IsCutOff (base self.now).setting (part caller.old) (part caller.new)
            (line_of job.now)) }
        ensures room { IfOk result (λ r. length_made (work_of r.0 r.1.output.items)
            ≤ 8 * length input.now + 8) };

    /// Ends a caller. It takes no memory.
    fn end(&self, lead: &mut Self::Lead, caller: Self::Caller)
        requires leads { leads self.now lead.old }
        requires knows { knows self.now caller }
        ensures leads { leads self.now lead.new }
        ensures ended { roll lead.new ≡ with_end (roll lead.old) (part caller) };

    /// Ends the runtime, all of whose callers were ended, and gives the library and the whole journal
    /// back. It takes no memory.
    fn close<R: Wait>(self, rt: &R, lead: Self::Lead) -> Closed<Self::Library>
        requires leads { leads self lead }
        requires home { (roll lead).away ≡ [] }
        ensures { Ends (base self) (roll lead).ended (Self.Library.holdings result.library)
            result.journal.items };
}

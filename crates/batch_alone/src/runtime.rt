//! What a run in one thread needs of its runtime.

use crate::work::Worked;
use batch_jobs::Job;
use modules_conf::{Bindings, Conf};
use outside::Library;
use runtime_histories::Entry;
use std::alloc::{AllocError, Global};
use step_buffers::Buffers;

/// What a runtime hands out at its end.
pub struct Closed<L> {
    pub library: L,
    pub journal: Vec<Entry>,
}

/// The runtime of one thread, over a library that it was given.
pub trait Runtime {
    ghost use Rattle.std.specs.Prelude.{◌≡◌, ◌≤◌, ◌+◌, ◌*◌, length, IfOk, MatchResult};
    ghost use Rattle.text_lines.specs.Limits.{longest_text};
    ghost use Rattle.modules_conf.specs.Limits.{AreSound, IsWithinLimits};
    ghost use Rattle.batch_jobs.specs.Jobs.{HasShortNames, line_of};
    ghost use Rattle.batch_runs.specs.Takings.{Got};
    ghost use Rattle.batch_alone.specs.Books.{Book, HasPlace, IsNew, Ends};
    ghost use Rattle.batch_alone.specs.Readings.{length_made, work_of};
    ghost use Rattle.batch_alone.specs.Steps.{Does, IsCut};

    type Library: Library;

    /// What contracts see of the runtime at a moment.
    ghost book: { Self → Book };

    /// A runtime that has no entry. The library comes back where memory is wanting.
    fn start(
        alloc: Global,
        conf: &Conf,
        bindings: &Bindings,
        library: Self::Library,
        folder: &str,
        pages: u32,
        limit: u32,
    ) -> Result<Self, Self::Library>
        requires lines { IsWithinLimits conf.now.edges }
        requires bindings { AreSound bindings.now }
        ensures { MatchResult result
            (λ b. IsNew conf.now bindings.now folder.now pages limit
            (Self.Library.holdings library) (book b))
            (λ l. Self.Library.holdings l ≡ Self.Library.holdings library) };

    /// Does the work of a job whose input was taken: its pair is opened, the input converted, and the
    /// pair closed. The bytes stand in the output of the buffers.
    fn work(
        &mut self,
        alloc: Global,
        job: &Job,
        input: &[u8],
        buffers: Buffers,
    ) -> Result<(Worked, Buffers), AllocError>
        requires names { HasShortNames job.now }
        requires short { length input.now ≤ longest_text }
        requires idle { (book self.old).live ≡ 0 }
        requires place { HasPlace (book self.old) }
        ensures done { MatchResult result
            (λ r. Does (book self.old) (book self.new) (line_of job.now) (Got input.now)
            (work_of r.0 r.1.output.items))
            (λ _. IsCut (book self.old) (book self.new) (line_of job.now)) }
        ensures room { IfOk result (λ r. length_made (work_of r.0 r.1.output.items)
            ≤ 8 * length input.now + 8) };

    /// Gives the library and the whole journal back. It takes no memory.
    fn done(self) -> Closed<Self::Library>
        ensures { Ends (book self) (Self.Library.holdings result.library) result.journal.items };
}

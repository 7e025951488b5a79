//! The work of one job.

ghost use Rattle.std.specs.Prelude.{◌≡◌, ◌≤◌, ◌+◌, ◌*◌, length, IfOk, MatchResult};
ghost use Rattle.text_lines.specs.Limits.{longest_text};
ghost use Rattle.batch_jobs.specs.Jobs.{HasShortNames, line_of};
ghost use Rattle.batch_runs.specs.Takings.{length_taken};
ghost use Rattle.batch_alone.specs.Books.{HasPlace};
ghost use Rattle.batch_alone.specs.Readings.{length_made, taking_of, work_of};
ghost use Rattle.batch_alone.specs.Steps.{Does, IsCut};

use crate::inputs::Input;
use crate::runtime::Runtime;
use batch_jobs::Job;
use batch_runs::Miss;
use runtime_histories::Refusal;
use std::alloc::{AllocError, Global};
use step_buffers::{Buffers, Finish};

/// What a job's work gave. The bytes of a conversion stand in an output.
#[derive(Drop)]
pub enum Worked {
    Skipped(Miss),
    Denied(Refusal),
    Converted(Finish),
}

/// Does a job's work. A job whose input wasn't taken opens nothing.
pub fn work<B: Runtime>(
    alloc: Global,
    book: &mut B,
    job: &Job,
    input: &Input,
    buffers: Buffers,
) -> Result<(Worked, Buffers), AllocError>
    requires names { HasShortNames job.now }
    requires short { length_taken (taking_of input.now) ≤ longest_text }
    requires idle { (B.book book.old).live ≡ 0 }
    requires place { HasPlace (B.book book.old) }
    ensures done { MatchResult result
        (λ r. Does (B.book book.old) (B.book book.new) (line_of job.now) (taking_of input.now)
        (work_of r.0 r.1.output.items))
        (λ _. IsCut (B.book book.old) (B.book book.new) (line_of job.now)) }
    ensures room { IfOk result (λ r. length_made (work_of r.0 r.1.output.items)
        ≤ 8 * length_taken (taking_of input.now) + 8) }
{
    match input {
        Input::Bytes(bytes) => book.work(alloc, job, bytes.as_slice(), buffers),
        Input::Missed(miss) => Ok((Worked::Skipped(*miss), buffers)),
    }
}

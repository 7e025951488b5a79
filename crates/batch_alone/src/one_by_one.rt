//! All jobs, one after another.

ghost use Rattle.std.specs.Prelude.{◌≡◌, ◌≤◌, ◌+◌, ◌*◌, length, map, All, IfOk, MatchResult};
ghost use Rattle.text_lines.specs.Limits.{longest_text};
ghost use Rattle.batch_jobs.specs.Limits.{most_jobs};
ghost use Rattle.batch_jobs.specs.Jobs.{HasShortNames, line_of};
ghost use Rattle.batch_runs.specs.Takings.{length_taken};
ghost use Rattle.batch_alone.specs.Books.{HasPlace};
ghost use Rattle.batch_alone.specs.Readings.{taking_of};
ghost use Rattle.batch_alone.specs.Steps.{AreDone, AreHalted, IsFresh, DoesAndPuts, IsCutBefore};

use crate::inputs::Input;
use crate::puts::{Ending, put_one};
use crate::runtime::Runtime;
use crate::totals::{Totals, both, no_totals};
use crate::work::work;
use batch_jobs::{Job, Outcome};
use outside::Files;
use std::alloc::{AllocError, Global};
use step_buffers::Buffers;

/// How all jobs ended, and what was put.
#[derive(Drop)]
pub struct Settled {
    pub outcomes: Vec<Outcome>,
    pub totals: Totals,
}

/// Does one job: its work, and the put of its bytes. Its memory comes back for the next one.
fn one_job<B: Runtime, F: Files>(
    alloc: Global,
    book: &mut B,
    files: &mut F,
    job: &Job,
    input: &Input,
    buffers: Buffers,
    sums: bool,
) -> Result<(Ending, Buffers), AllocError>
    requires names { HasShortNames job.now }
    requires short { length_taken (taking_of input.now) ≤ longest_text }
    requires idle { (B.book book.old).live ≡ 0 }
    requires place { HasPlace (B.book book.old) }
    ensures done { MatchResult result
        (λ r. DoesAndPuts (B.book book.old) (B.book book.new) (F.outside files.old)
        (F.outside files.new) (line_of job.now) (taking_of input.now) sums r.0.outcome r.0.totals)
        (λ _. IsCutBefore (B.book book.old) (B.book book.new) (F.outside files.old)
        (F.outside files.new) (line_of job.now)) }
    ensures written { IfOk result (λ r. r.0.totals.written ≤ 134217736) }
    ensures sum { IfOk result (λ r. r.0.totals.sum ≤ 255 * r.0.totals.written) }
{
    let (worked, buffers) = work(alloc, book, job, input, buffers)?;
    let ending = put_one(alloc, files, job, worked, buffers.output.as_slice(), sums)?;
    Ok((ending, buffers))
}

/// Does the jobs one after another, over one output and one scratch.
pub fn do_jobs<B: Runtime, F: Files>(
    alloc: Global,
    book: &mut B,
    files: &mut F,
    jobs: &[Job],
    inputs: &[Input],
    sums: bool,
) -> Result<Settled, AllocError>
    requires alike { length inputs.now ≡ length jobs.now }
    requires few { length jobs.now ≤ most_jobs }
    requires names { All HasShortNames jobs.now }
    requires short { All (λ i. length_taken (taking_of i) ≤ longest_text) inputs.now }
    requires fresh { IsFresh (B.book book.old) }
    requires places { 4 * length jobs.now ≤ (B.book book.old).limit }
    ensures done { MatchResult result
        (λ s. AreDone (B.book book.old) (B.book book.new) (F.outside files.old)
        (F.outside files.new) (map line_of jobs.now) (map taking_of inputs.now)
        s.outcomes.items sums s.totals)
        (λ _. AreHalted (B.book book.old) (B.book book.new) (F.outside files.old)
        (F.outside files.new) (map line_of jobs.now) (map taking_of inputs.now)) }
{
    let mut outcomes = Vec::new(alloc);
    let mut totals = no_totals();
    let mut buffers = Buffers {
        output: Vec::new(alloc),
        scratch: Vec::new(alloc),
    };
    'jobs: for at in 0..jobs.len() {
        let (ending, back) = one_job(alloc, book, files, &jobs[at], &inputs[at], buffers, sums)?;
        buffers = back;
        totals = both(totals, ending.totals);
        outcomes.push(ending.outcome)?;
    }
    Ok(Settled { outcomes, totals })
}

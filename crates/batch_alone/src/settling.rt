//! All of a run's jobs, from its inputs to its report.

ghost use Rattle.std.specs.Prelude.{◌≡◌, ◌≤◌, ◌*◌, IfOk, length, map, All, MatchResult};
ghost use Rattle.batch_jobs.specs.Limits.{most_jobs};
ghost use Rattle.batch_jobs.specs.Jobs.{HasShortNames, line_of};
ghost use Rattle.batch_jobs.specs.Reports.{report_of, sum_report_of};
ghost use Rattle.batch_runs.specs.Batches.{all_good};
ghost use Rattle.batch_alone.specs.Steps.{IsFresh, HaltsAt, Settles, report_with};

use crate::inputs::take_inputs;
use crate::one_by_one::do_jobs;
use crate::runtime::Runtime;
use crate::totals::Totals;
use batch_jobs::{Job, Outcome, is_good, report, sum_report};
use outside::Files;
use std::alloc::{AllocError, Global};

/// Whether every outcome is good.
pub fn all_good(outcomes: &[Outcome]) -> bool
    ensures { result ≡ all_good outcomes.now }
{
    'outcomes: for outcome in outcomes {
        if !is_good(outcome) {
            return false;
        }
    }
    true
}

/// The report, and whether every outcome is good.
#[derive(Drop)]
pub struct Reported {
    pub text: Vec<u8>,
    pub good: bool,
}

/// The text of the report.
pub fn report_text(
    alloc: Global,
    sums: bool,
    outcomes: &[Outcome],
    read: u64,
    totals: Totals,
) -> Result<Vec<u8>, AllocError>
    requires { length outcomes.now ≤ most_jobs }
    ensures { IfOk result (λ text. text.items ≡ report_with sums outcomes.now read totals) }
{
    if sums {
        sum_report(alloc, outcomes, read, totals.written, totals.sum)
    } else {
        report(alloc, outcomes, read, totals.written)
    }
}

/// Takes all inputs, does all jobs, and makes the report.
pub fn settle<B: Runtime, F: Files>(
    alloc: Global,
    book: &mut B,
    files: &mut F,
    jobs: &[Job],
    sums: bool,
) -> Result<Reported, AllocError>
    requires few { length jobs.now ≤ most_jobs }
    requires names { All HasShortNames jobs.now }
    requires fresh { IsFresh (B.book book.old) }
    requires places { 4 * length jobs.now ≤ (B.book book.old).limit }
    ensures done { MatchResult result
        (λ r. Settles (B.book book.old) (B.book book.new) (F.outside files.old)
        (F.outside files.new) (map line_of jobs.now) sums r.text.items r.good)
        (λ _. HaltsAt (B.book book.old) (B.book book.new) (F.outside files.old)
        (F.outside files.new) (map line_of jobs.now)) }
{
    let Ok(inputs) = take_inputs(alloc, files, jobs) else {
        return Err(AllocError);
    };
    let Ok(settled) = do_jobs(alloc, book, files, jobs, inputs.list.as_slice(), sums) else {
        return Err(AllocError);
    };
    let outcomes = settled.outcomes.as_slice();
    let good = all_good(outcomes);
    match report_text(alloc, sums, outcomes, inputs.read as u64, settled.totals) {
        Ok(text) => Ok(Reported { text, good }),
        Err(_) => Err(AllocError),
    }
}

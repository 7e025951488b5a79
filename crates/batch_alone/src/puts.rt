//! The put of one job's bytes.

ghost use Rattle.std.specs.Prelude.{◌≡◌, ◌≤◌, ◌*◌, ◌^◌, length, IfOk, OnErr};
ghost use Rattle.outside.specs.Faults.{RoseBy};
ghost use Rattle.batch_jobs.specs.Jobs.{line_of};
ghost use Rattle.batch_runs.specs.Works.{finished, missed};
ghost use Rattle.batch_runs.specs.Puts.{PutsOne, bytes_put, write_fault};
ghost use Rattle.batch_alone.specs.Steps.{AreCounted};
ghost use Rattle.batch_alone.specs.Readings.{length_made, work_of};

use crate::totals::{Totals, no_totals, totals_of};
use crate::work::Worked;
use batch_jobs::{Job, Outcome};
use batch_runs::Miss;
use outside::{Files, Put};
use std::alloc::{AllocError, Global};
use step_buffers::Finish;

/// How a job ended, and what was put for it.
#[derive(Drop)]
pub struct Ending {
    pub outcome: Outcome,
    pub totals: Totals,
}

/// How a job ends whose conversion gave so many bytes.
fn converted(written: u64, finish: Finish) -> Outcome
    ensures { result ≡ finished written finish }
{
    match finish {
        Finish::Done => Outcome::Good { written },
        Finish::Illegal { offset } => Outcome::Illegal { at: offset },
        Finish::Incomplete { offset } => Outcome::Incomplete { at: offset },
    }
}

/// How a job ends whose input wasn't taken.
fn skipped(miss: Miss) -> Outcome
    ensures { result ≡ missed miss }
{
    match miss {
        Miss::NoFile => Outcome::Absent,
        Miss::Large => Outcome::TooLarge,
        Miss::Fault => Outcome::ReadFault,
    }
}

/// Puts a conversion's bytes.
fn put_bytes<F: Files>(
    alloc: Global,
    files: &mut F,
    job: &Job,
    finish: Finish,
    output: &[u8],
    sums: bool,
) -> Result<Ending, AllocError>
    requires { length output.now ≤ 2 ^ 32 }
    ensures put { IfOk result (λ e. PutsOne (F.outside files.old).told (line_of job.now)
        (work_of (Worked.Converted finish) output.now) e.outcome (F.outside files.new).told) }
    ensures err { OnErr result ((F.outside files.new).told ≡ (F.outside files.old).told) }
    ensures takes { (F.outside files.new).takes ≡ (F.outside files.old).takes }
    ensures puts { IfOk result (λ e. RoseBy (write_fault e.outcome)
        (F.outside files.old).puts (F.outside files.new).puts) }
    ensures sum { IfOk result (λ e. e.totals.sum ≤ 255 * e.totals.written) }
    ensures totals { IfOk result (λ e. AreCounted sums e.totals
        (bytes_put (work_of (Worked.Converted finish) output.now) e.outcome)) }
{
    match files.put(alloc, job.output.as_str(), output) {
        Put::Done => Ok(Ending {
            outcome: converted(output.len() as u64, finish),
            totals: totals_of(sums, output),
        }),
        Put::Failed => Ok(Ending {
            outcome: Outcome::WriteFault,
            totals: no_totals(),
        }),
        Put::Memory => Err(AllocError),
    }
}

/// Puts the bytes of a job's work, if it has some.
pub fn put_one<F: Files>(
    alloc: Global,
    files: &mut F,
    job: &Job,
    worked: Worked,
    output: &[u8],
    sums: bool,
) -> Result<Ending, AllocError>
    requires { length_made (work_of worked output.now) ≤ 2 ^ 32 }
    ensures put { IfOk result (λ e. PutsOne (F.outside files.old).told (line_of job.now)
        (work_of worked output.now) e.outcome (F.outside files.new).told) }
    ensures err { OnErr result ((F.outside files.new).told ≡ (F.outside files.old).told) }
    ensures takes { (F.outside files.new).takes ≡ (F.outside files.old).takes }
    ensures puts { IfOk result (λ e. RoseBy (write_fault e.outcome)
        (F.outside files.old).puts (F.outside files.new).puts) }
    ensures sum { IfOk result (λ e. e.totals.sum ≤ 255 * e.totals.written) }
    ensures totals { IfOk result (λ e. AreCounted sums e.totals
        (bytes_put (work_of worked output.now) e.outcome)) }
{
    match worked {
        Worked::Converted(finish) => put_bytes(alloc, files, job, finish, output, sums),
        Worked::Denied(refusal) => Ok(Ending {
            outcome: Outcome::Refused(refusal),
            totals: no_totals(),
        }),
        Worked::Skipped(miss) => Ok(Ending {
            outcome: skipped(miss),
            totals: no_totals(),
        }),
    }
}

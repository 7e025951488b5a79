//! The outputs of a run with workers, in the order of the jobs.

ghost use Rattle.std.specs.Prelude.{◌≡◌, ◌≤◌, ◌*◌, length, map, IfOk, OnErr, MatchResult};
ghost use Rattle.batch_jobs.specs.Limits.{most_jobs};
ghost use Rattle.batch_jobs.specs.Jobs.{line_of};
ghost use Rattle.batch_alone.specs.Readings.{length_made, taking_of, work_of};
ghost use Rattle.batch_workers.specs.Toils.{AreHeld, IsHeld, most_made, work_in, works_in};
ghost use Rattle.batch_workers.specs.Settling.{ArePutAll, ArePutSome, PutsNext};

use crate::piece::Piece;
use batch_alone::{Ending, Input, Totals, Worked, both, no_totals, put_one};
use batch_jobs::{Job, Outcome};
use outside::Files;
use std::alloc::{AllocError, Global};

/// How all jobs ended, and what was put.
#[derive(Drop)]
pub struct Settled {
    pub outcomes: Vec<Outcome>,
    pub totals: Totals,
}

/// What a job's work gave, with its bytes, out of its slot.
fn take_out(alloc: Global, input: &Input, slot: &mut Option<Piece>) -> (Worked, Vec<u8>)
    requires { IsHeld (taking_of input.now) slot.old }
    ensures work { work_of result.0 result.1.items ≡ work_in (taking_of input.now) slot.old }
    ensures room { length_made (work_of result.0 result.1.items) ≤ most_made }
{
    match input {
        Input::Missed(miss) => (Worked::Skipped(*miss), Vec::new(alloc)),
        Input::Bytes(_) => {
            let Some(piece) = slot.take() else {
                unreachable!()
            };
            let Piece {
                place: _,
                worked,
                output,
            } = piece;
            (worked, output)
        }
    }
}

/// Puts the bytes of a job's work, if it has some.
fn put_next<F: Files>(
    alloc: Global,
    files: &mut F,
    job: &Job,
    input: &Input,
    slot: &mut Option<Piece>,
    sums: bool,
) -> Result<Ending, AllocError>
    requires { IsHeld (taking_of input.now) slot.old }
    ensures put { IfOk result (λ e. PutsNext (F.outside files.old) (F.outside files.new)
        (line_of job.now) (work_in (taking_of input.now) slot.old) e.outcome sums e.totals) }
    ensures err { OnErr result ((F.outside files.new).told ≡ (F.outside files.old).told) }
    ensures written { IfOk result (λ e. e.totals.written ≤ most_made) }
    ensures sum { IfOk result (λ e. e.totals.sum ≤ 255 * e.totals.written) }
{
    let (worked, output) = take_out(alloc, input, slot);
    put_one(alloc, files, job, worked, output.as_slice(), sums)
}

/// Puts the bytes of all works in the order of the jobs. Each job's bytes are given up once they are
/// put.
pub fn put_all<F: Files>(
    alloc: Global,
    files: &mut F,
    jobs: &[Job],
    inputs: &[Input],
    slots: &mut [Option<Piece>],
    sums: bool,
) -> Result<Settled, AllocError>
    requires alike { length inputs.now ≡ length jobs.now }
    requires slots { length slots.old ≡ length jobs.now }
    requires few { length jobs.now ≤ most_jobs }
    requires held { AreHeld (map taking_of inputs.now) slots.old }
    ensures done { MatchResult result
        (λ s. ArePutAll (F.outside files.old) (F.outside files.new) (map line_of jobs.now)
        (works_in (map taking_of inputs.now) slots.old) s.outcomes.items sums s.totals)
        (λ _. ArePutSome (F.outside files.old) (F.outside files.new) (map line_of jobs.now)
        (works_in (map taking_of inputs.now) slots.old)) }
{
    let mut outcomes = Vec::new(alloc);
    let mut totals = no_totals();
    'jobs: for at in 0..jobs.len() {
        let ending = put_next(alloc, files, &jobs[at], &inputs[at], &mut slots[at], sums)?;
        totals = both(totals, ending.totals);
        outcomes.push(ending.outcome)?;
    }
    Ok(Settled { outcomes, totals })
}

//! From the jobs of a run with workers to its report.

ghost use Rattle.std.specs.Prelude.{◌≡◌, ◌≤◌, [], IfOk, length, map, All, MatchResult};
ghost use Rattle.batch_jobs.specs.Limits.{most_jobs};
ghost use Rattle.batch_jobs.specs.Jobs.{HasShortNames, line_of};
ghost use Rattle.batch_runs.specs.Takings.{read_count};
ghost use Rattle.batch_alone.specs.Readings.{taking_of};
ghost use Rattle.batch_workers.specs.Parts.{empty_roll, most_callers};
ghost use Rattle.batch_workers.specs.Toils.{AreBegunBy, AreHeld, works_in};
ghost use Rattle.batch_workers.specs.Settling.{ArePutSome, AreTakenAndDone, IsSettled};

use crate::gate::Gate;
use crate::piece::Piece;
use crate::putting::{Settled, put_all};
use crate::shared::Shared;
use crate::sharing::share_jobs;
use batch_alone::{Inputs, all_good, report_text, take_inputs};
use batch_jobs::Job;
use outside::Files;
use std::alloc::{AllocError, Global};
use std::sync::Wait;
use std::thread::Threads;

/// The inputs that were taken, and what the workers handed back, each in the slot of its job.
#[derive(Drop)]
pub struct Worked {
    pub inputs: Inputs,
    pub slots: Vec<Option<Piece>>,
}

/// Takes all inputs, and has the jobs done by workers.
pub fn do_jobs<S: Shared + Sync, G: Gate + Sync, F: Files, R: Threads + Wait + Sync>(
    rt: &R,
    alloc: Global,
    shared: &S,
    lead: &mut S::Lead,
    count: u32,
    gate: &G,
    jobs: &[Job],
    files: &mut F,
) -> Result<Worked, AllocError>
    requires leads { S.leads shared.now lead.old }
    requires roll { S.roll lead.old ≡ empty_roll }
    requires some { 1 ≤ count }
    requires most { count ≤ most_callers }
    requires few { length jobs.now ≤ most_jobs }
    requires names { All HasShortNames jobs.now }
    ensures leads { S.leads shared.now lead.new }
    ensures home { (S.roll lead.new).away ≡ [] }
    ensures done { MatchResult result
        (λ w. AreTakenAndDone (S.base shared.now).setting count (F.outside files.old)
        (F.outside files.new) (map line_of jobs.now) (S.roll lead.new).ended
        (map taking_of w.inputs.list.items)
        (works_in (map taking_of w.inputs.list.items) w.slots.items))
        (λ _. AreBegunBy (S.base shared.now).setting count (map line_of jobs.now)
        (S.roll lead.new).ended) }
    ensures held { IfOk result (λ w. AreHeld (map taking_of w.inputs.list.items) w.slots.items) }
    ensures read { IfOk result (λ w. w.inputs.read ≡ read_count (map taking_of w.inputs.list.items)) }
    ensures told { (F.outside files.new).told ≡ (F.outside files.old).told }
    ensures puts { (F.outside files.new).puts ≡ (F.outside files.old).puts }
{
    let inputs = take_inputs(alloc, files, jobs)?;
    let slots = share_jobs(
        rt,
        alloc,
        shared,
        lead,
        count,
        gate,
        jobs,
        inputs.list.as_slice(),
    )?;
    Ok(Worked { inputs, slots })
}

/// The report, and whether every outcome is good.
#[derive(Drop)]
pub struct Reported {
    pub text: Vec<u8>,
    pub good: bool,
}

/// Puts all outputs, and makes the report.
pub fn settle<F: Files>(
    alloc: Global,
    files: &mut F,
    jobs: &[Job],
    worked: Worked,
    sums: bool,
) -> Result<Reported, AllocError>
    requires alike { length worked.inputs.list.items ≡ length jobs.now }
    requires few { length jobs.now ≤ most_jobs }
    requires held { AreHeld (map taking_of worked.inputs.list.items) worked.slots.items }
    requires read { worked.inputs.read ≡ read_count (map taking_of worked.inputs.list.items) }
    ensures done { MatchResult result
        (λ r. IsSettled (F.outside files.old) (F.outside files.new) (map line_of jobs.now)
        (map taking_of worked.inputs.list.items)
        (works_in (map taking_of worked.inputs.list.items) worked.slots.items) sums r.text.items r.good)
        (λ _. ArePutSome (F.outside files.old) (F.outside files.new) (map line_of jobs.now)
        (works_in (map taking_of worked.inputs.list.items) worked.slots.items)) }
{
    let Worked { inputs, mut slots } = worked;
    let Ok(settled) = put_all(
        alloc,
        files,
        jobs,
        inputs.list.as_slice(),
        slots.as_mut_slice(),
        sums,
    ) else {
        return Err(AllocError);
    };
    let Settled { outcomes, totals } = settled;
    let good = all_good(outcomes.as_slice());
    match report_text(alloc, sums, outcomes.as_slice(), inputs.read as u64, totals) {
        Ok(text) => Ok(Reported { text, good }),
        Err(_) => Err(AllocError),
    }
}

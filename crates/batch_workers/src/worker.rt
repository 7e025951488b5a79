//! A worker, and how it does the jobs that it draws.

ghost use Rattle.std.specs.Prelude.{◌≡◌, ◌≤◌, ◌<◌, true, false, length, map, All, MatchResult};
ghost use Rattle.text_lines.specs.Limits.{longest_text};
ghost use Rattle.batch_jobs.specs.Limits.{most_jobs};
ghost use Rattle.batch_jobs.specs.Jobs.{HasShortNames, line_of};
ghost use Rattle.batch_runs.specs.Takings.{Got, length_taken};
ghost use Rattle.batch_alone.specs.Readings.{taking_of};
ghost use Rattle.batch_workers.specs.Parts.{IsCutOff};
ghost use Rattle.batch_workers.specs.Stints.{CanWork, GoesOn, Hands, HasWorked};

use crate::gate::{Gate, Point};
use crate::piece::Piece;
use crate::shared::Shared;
use batch_alone::Input;
use batch_jobs::Job;
use job_board::{Board, Drawer};
use std::alloc::{AllocError, Global};
use std::mem;
use std::sync::Wait;
use step_buffers::Buffers;

/// One who draws jobs and does them: its caller and its drawer, what it hands back, and a scratch that
/// it keeps from job to job.
#[derive(Drop)]
pub struct Worker<C> {
    pub caller: C,
    pub drawer: Drawer,
    pub pieces: Vec<Piece>,
    pub scratch: Vec<u8>,
    /// Memory was wanting, and the worker draws no more.
    pub wanting: bool,
}

/// Does the work of a job that a worker drew, and keeps what it gave.
fn serve<S: Shared, G: Gate, R: Wait>(
    rt: &R,
    alloc: Global,
    shared: &S,
    gate: &G,
    place: u32,
    job: &Job,
    input: &[u8],
    worker: &mut Worker<S::Caller>,
) -> Result<(), AllocError>
    requires few { place < most_jobs }
    requires knows { S.knows shared.now worker.old.caller }
    requires names { HasShortNames job.now }
    requires short { length input.now ≤ longest_text }
    ensures knows { S.knows shared.now worker.new.caller }
    ensures drawer { worker.new.drawer ≡ worker.old.drawer }
    ensures wanting { worker.new.wanting ≡ worker.old.wanting }
    ensures done { MatchResult result
        (λ _. Hands (S.base shared.now).setting (S.part worker.old.caller)
        (S.part worker.new.caller) worker.old.pieces.items worker.new.pieces.items place
        (line_of job.now) (Got input.now))
        (λ _. IsCutOff (S.base shared.now).setting (S.part worker.old.caller)
        (S.part worker.new.caller) (line_of job.now)) }
{
    gate.pass(place + 1, Point::Taken);
    let buffers = Buffers {
        output: Vec::new(alloc),
        scratch: mem::replace(&mut worker.scratch, Vec::new(alloc)),
    };
    let (worked, buffers) = shared.work(
        rt,
        alloc,
        gate,
        &mut worker.caller,
        place + 1,
        job,
        input,
        buffers,
    )?;
    let Buffers { output, scratch } = buffers;
    worker.scratch = scratch;
    worker.pieces.push(Piece {
        place,
        worked,
        output,
    })?;
    gate.pass(place + 1, Point::Ended);
    Ok(())
}

/// Does the job of a number that a worker drew, where there is one and its input was taken.
fn serve_at<S: Shared, G: Gate, R: Wait>(
    rt: &R,
    alloc: Global,
    shared: &S,
    gate: &G,
    jobs: &[Job],
    inputs: &[Input],
    place: u32,
    worker: &mut Worker<S::Caller>,
) -> Result<(), AllocError>
    requires alike { length inputs.now ≡ length jobs.now }
    requires few { length jobs.now ≤ most_jobs }
    requires names { All HasShortNames jobs.now }
    requires short { All (λ i. length_taken (taking_of i) ≤ longest_text) inputs.now }
    requires knows { S.knows shared.now worker.old.caller }
    ensures knows { S.knows shared.now worker.new.caller }
    ensures drawer { worker.new.drawer ≡ worker.old.drawer }
    ensures wanting { worker.new.wanting ≡ worker.old.wanting }
    ensures number { (S.part worker.new.caller).number ≡ (S.part worker.old.caller).number }
    ensures done { MatchResult result
        (λ _. GoesOn (S.base shared.now).setting (map line_of jobs.now) (map taking_of inputs.now)
        (S.part worker.old.caller) (S.part worker.new.caller) worker.old.pieces.items
        worker.new.pieces.items place false)
        (λ _. GoesOn (S.base shared.now).setting (map line_of jobs.now) (map taking_of inputs.now)
        (S.part worker.old.caller) (S.part worker.new.caller) worker.old.pieces.items
        worker.new.pieces.items place true) }
{
    let at = place as usize;
    if at >= jobs.len() {
        return Ok(());
    }
    match &inputs[at] {
        Input::Bytes(bytes) => serve(
            rt,
            alloc,
            shared,
            gate,
            place,
            &jobs[at],
            bytes.as_slice(),
            worker,
        ),
        Input::Missed(_) => Ok(()),
    }
}

/// Draws jobs and does them, until the board is drained or memory is wanting.
pub fn work_all<S: Shared, G: Gate, R: Wait>(
    rt: &R,
    alloc: Global,
    shared: &S,
    gate: &G,
    board: &Board,
    jobs: &[Job],
    inputs: &[Input],
    worker: &mut Worker<S::Caller>,
)
    requires alike { length inputs.now ≡ length jobs.now }
    requires few { length jobs.now ≤ most_jobs }
    requires names { All HasShortNames jobs.now }
    requires short { All (λ i. length_taken (taking_of i) ≤ longest_text) inputs.now }
    requires can { CanWork S.part (S.knows shared.now) board.now worker.old }
    ensures { HasWorked S.part (S.knows shared.now) board.now (S.base shared.now).setting
        (map line_of jobs.now) (map taking_of inputs.now) worker.old worker.new }
{
    'draws: for _ in rt.forever() {
        let Some(place) = board.draw(rt, &mut worker.drawer) else {
            return;
        };
        if serve_at(rt, alloc, shared, gate, jobs, inputs, place, worker).is_err() {
            worker.wanting = true;
            return;
        }
    }
    unreachable!()
}

//! Workers in threads of their own.

ghost use Rattle.std.specs.Prelude.{◌≡◌, ◌≤◌, ◌<◌, ℕ, length, map, All, slice_index_or};
ghost use Rattle.text_lines.specs.Limits.{longest_text};
ghost use Rattle.batch_jobs.specs.Limits.{most_jobs};
ghost use Rattle.batch_jobs.specs.Jobs.{HasShortNames, line_of};
ghost use Rattle.batch_runs.specs.Takings.{length_taken};
ghost use Rattle.batch_alone.specs.Readings.{taking_of};
ghost use Rattle.batch_workers.specs.Stints.{CanWork, HasWorked};

use crate::gate::Gate;
use crate::shared::Shared;
use crate::worker::{Worker, work_all};
use batch_alone::Input;
use batch_jobs::Job;
use job_board::Board;
use std::alloc::Global;
use std::sync::Wait;
use std::thread;
use std::thread::Threads;

/// Has each worker draw jobs and do them, each in a thread of its own where one can be had, else one
/// after another.
pub fn work_in_threads<S: Shared + Sync, G: Gate + Sync, R: Threads + Wait + Sync>(
    rt: &R,
    alloc: Global,
    shared: &S,
    gate: &G,
    board: &Board,
    jobs: &[Job],
    inputs: &[Input],
    workers: &mut [Worker<S::Caller>],
)
    requires alike { length inputs.now ≡ length jobs.now }
    requires few { length jobs.now ≤ most_jobs }
    requires names { All HasShortNames jobs.now }
    requires short { All (λ i. length_taken (taking_of i) ≤ longest_text) inputs.now }
    requires can { All (CanWork S.part (S.knows shared.now) board.now) workers.old }
    ensures { (i : ℕ) (d : _) → i < length workers.old → HasWorked S.part (S.knows shared.now)
        board.now (S.base shared.now).setting (map line_of jobs.now) (map taking_of inputs.now)
        (slice_index_or workers.old i d) (slice_index_or workers.new i d) }
{
    let threads = workers.len();
    if threads > 0 {
        thread::for_each_mut(
            rt,
            workers,
            threads,
            &|_, worker|
                requires alike { length inputs.now ≡ length jobs.now }
                requires few { length jobs.now ≤ most_jobs }
                requires names { All HasShortNames jobs.now }
                requires short { All (λ i. length_taken (taking_of i) ≤ longest_text) inputs.now }
                requires can { CanWork S.part (S.knows shared.now) board.now worker.old }
                ensures { HasWorked S.part (S.knows shared.entry.now) board.entry.now
                    (S.base shared.entry.now).setting (map line_of jobs.entry.now)
                    (map taking_of inputs.entry.now) worker.old worker.new }
            { work_all(rt, alloc, shared, gate, board, jobs, inputs, worker) },
        );
    }
}

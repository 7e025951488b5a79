//! The inputs of the jobs, each taken once and in order.

ghost use Rattle.std.specs.Prelude.{◌≡◌, ◌≤◌, ◌+◌, IfOk, map};
ghost use Rattle.outside.specs.Faults.{RoseBy};
ghost use Rattle.batch_jobs.specs.Jobs.{line_of};
ghost use Rattle.batch_runs.specs.Takings.{AreTaken, TakesOne, all_inputs, length_taken, read_count, read_fault, read_faults, room};
ghost use Rattle.batch_alone.specs.Readings.{taking_of};

use batch_jobs::Job;
use batch_runs::Miss;
use outside::{Files, Taken};
use std::alloc::{AllocError, Global};
use text_lines::LONGEST_TEXT;

/// The most bytes of all inputs.
pub const ALL_INPUTS: u32 = 268_435_456;

/// What was taken for a job.
#[derive(Drop)]
pub enum Input {
    Bytes(Vec<u8>),
    Missed(Miss),
}

/// What was taken for all jobs, and how many bytes they have.
#[derive(Drop)]
pub struct Inputs {
    pub list: Vec<Input>,
    pub read: u32,
}

/// Takes one input, where all inputs may still have `left` bytes.
fn take_one<F: Files>(
    alloc: Global,
    files: &mut F,
    name: &str,
    left: u32,
) -> Result<Input, AllocError>
    ensures taken { IfOk result (λ i. TakesOne (F.outside files.old).told (room left) name.now (taking_of i)) }
    ensures fits { IfOk result (λ i. length_taken (taking_of i) ≤ left) }
    ensures told { (F.outside files.new).told ≡ (F.outside files.old).told }
    ensures puts { (F.outside files.new).puts ≡ (F.outside files.old).puts }
    ensures takes { IfOk result (λ i. RoseBy (read_fault (taking_of i))
        (F.outside files.old).takes (F.outside files.new).takes) }
{
    let limit = if left < LONGEST_TEXT {
        left
    } else {
        LONGEST_TEXT
    };
    match files.take(alloc, name, limit) {
        Taken::Bytes(bytes) => Ok(Input::Bytes(bytes)),
        Taken::Absent => Ok(Input::Missed(Miss::NoFile)),
        Taken::TooLarge => Ok(Input::Missed(Miss::Large)),
        Taken::Failed => Ok(Input::Missed(Miss::Fault)),
        Taken::Memory => Err(AllocError),
    }
}

/// How many bytes all inputs may still have behind this one.
fn left_behind(left: u32, input: &Input) -> u32
    requires { length_taken (taking_of input.now) ≤ left }
    ensures { result + length_taken (taking_of input.now) ≡ left }
{
    match input {
        Input::Bytes(bytes) => left - bytes.len() as u32,
        Input::Missed(_) => left,
    }
}

/// Takes the inputs of all jobs.
pub fn take_inputs<F: Files>(
    alloc: Global,
    files: &mut F,
    jobs: &[Job],
) -> Result<Inputs, AllocError>
    ensures taken { IfOk result (λ i. AreTaken (F.outside files.old).told all_inputs
        (map (λ j. j.input) (map line_of jobs.now)) (map taking_of i.list.items)) }
    ensures read { IfOk result (λ i. i.read ≡ read_count (map taking_of i.list.items)) }
    ensures told { (F.outside files.new).told ≡ (F.outside files.old).told }
    ensures puts { (F.outside files.new).puts ≡ (F.outside files.old).puts }
    ensures takes { IfOk result (λ i. RoseBy (read_faults (map taking_of i.list.items))
        (F.outside files.old).takes (F.outside files.new).takes) }
{
    let mut list = Vec::new(alloc);
    let mut left = ALL_INPUTS;
    'jobs: for job in jobs {
        let input = take_one(alloc, files, job.input.as_str(), left)?;
        left = left_behind(left, &input);
        list.push(input)?;
    }
    Ok(Inputs {
        list,
        read: ALL_INPUTS - left,
    })
}

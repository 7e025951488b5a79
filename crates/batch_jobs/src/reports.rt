//! The report of a batch.

ghost use Rattle.std.specs.Prelude.{◌≡◌, ◌++◌, ◌≤◌, OnOk, IfOk, length};
ghost use Rattle.batch_jobs.specs.Limits.{most_jobs};
ghost use Rattle.batch_jobs.specs.Reports.{good_count, outcome_text, report_from, report_line, report_of, sum_line, sum_report_of, summary};

use crate::numbers::{add_at, add_number};
use crate::outcomes::{Outcome, is_good};
use crate::refusal_texts::add_refusal;
use std::alloc::{AllocError, Global};

/// Appends how a job ended.
fn add_outcome(alloc: Global, text: &mut Vec<u8>, outcome: &Outcome) -> Result<(), AllocError>
    ensures { OnOk result (text.new.items ≡ text.old.items ++ outcome_text outcome.now) }
{
    match outcome {
        Outcome::Good { .. } => text.extend_from_slice(b"ok"),
        Outcome::Illegal { at } => add_at(alloc, text, b"illegal at ", *at),
        Outcome::Incomplete { at } => add_at(alloc, text, b"incomplete at ", *at),
        Outcome::Absent => text.extend_from_slice(b"absent"),
        Outcome::TooLarge => text.extend_from_slice(b"too large"),
        Outcome::ReadFault => text.extend_from_slice(b"read fault"),
        Outcome::WriteFault => text.extend_from_slice(b"write fault"),
        Outcome::Refused(refusal) => add_refusal(alloc, text, refusal),
    }
}

/// Appends the line of the job of this number.
fn add_line(
    alloc: Global,
    text: &mut Vec<u8>,
    number: u32,
    outcome: &Outcome,
) -> Result<(), AllocError>
    ensures { OnOk result (text.new.items ≡ text.old.items ++ report_line number outcome.now) }
{
    add_number(alloc, text, number as u64)?;
    text.extend_from_slice(b": ")?;
    add_outcome(alloc, text, outcome)?;
    text.extend_from_slice(b"\n")
}

/// The line of the job of this number. A refusal for want of memory has no text.
pub fn report_line(alloc: Global, number: u32, outcome: &Outcome) -> Result<Vec<u8>, AllocError>
    ensures { IfOk result (λ text. text.items ≡ report_line number outcome.now) }
{
    let mut text = Vec::new(alloc);
    add_line(alloc, &mut text, number, outcome)?;
    Ok(text)
}

/// The lines of all jobs, which count from 1.
fn lines(alloc: Global, outcomes: &[Outcome]) -> Result<Vec<u8>, AllocError>
    requires { length outcomes.now ≤ most_jobs }
    ensures { IfOk result (λ text. text.items ≡ report_from 1 outcomes.now) }
{
    let mut text = Vec::new(alloc);
    let mut number = 1u32;
    'outcomes: for outcome in outcomes {
        add_line(alloc, &mut text, number, outcome)?;
        number += 1;
    }
    Ok(text)
}

/// How many outcomes are good.
fn good_count(outcomes: &[Outcome]) -> u64
    ensures value { result ≡ good_count outcomes.now }
    ensures few { result ≤ length outcomes.now }
{
    let mut good = 0u64;
    'outcomes: for outcome in outcomes {
        if is_good(outcome) {
            good += 1;
        }
    }
    good
}

/// Appends the summary line.
fn add_counts(
    alloc: Global,
    text: &mut Vec<u8>,
    jobs: u64,
    good: u64,
    read: u64,
    written: u64,
) -> Result<(), AllocError>
    requires { good ≤ jobs }
    ensures { OnOk result (text.new.items ≡ text.old.items ++ summary (record {
      jobs = jobs;
      good = good;
      read = read;
      written = written;
    })) }
{
    add_at(alloc, text, b"jobs ", jobs)?;
    add_at(alloc, text, b" ok ", good)?;
    add_at(alloc, text, b" failed ", jobs - good)?;
    add_at(alloc, text, b" read ", read)?;
    add_at(alloc, text, b" written ", written)?;
    text.extend_from_slice(b"\n")
}

/// The report of jobs that ended so: a line for each, in order, and the summary line. `read` is the
/// length of all inputs that were taken, `written` that of all outputs that were put.
pub fn report(
    alloc: Global,
    outcomes: &[Outcome],
    read: u64,
    written: u64,
) -> Result<Vec<u8>, AllocError>
    requires { length outcomes.now ≤ most_jobs }
    ensures { IfOk result (λ text. text.items ≡ report_of outcomes.now read written) }
{
    let mut text = lines(alloc, outcomes)?;
    let jobs = outcomes.len() as u64;
    add_counts(alloc, &mut text, jobs, good_count(outcomes), read, written)?;
    Ok(text)
}

/// The report of jobs that the program made itself: the summary line, and the sum of the values of
/// all bytes that were put.
pub fn sum_report(
    alloc: Global,
    outcomes: &[Outcome],
    read: u64,
    written: u64,
    sum: u64,
) -> Result<Vec<u8>, AllocError>
    ensures { IfOk result (λ text. text.items ≡ sum_report_of outcomes.now read written sum) }
{
    let mut text = Vec::new(alloc);
    let jobs = outcomes.len() as u64;
    add_counts(alloc, &mut text, jobs, good_count(outcomes), read, written)?;
    add_at(alloc, &mut text, b"sum ", sum)?;
    text.extend_from_slice(b"\n")?;
    Ok(text)
}

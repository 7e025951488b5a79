//! The reader of a text of jobs.

ghost use Rattle.std.specs.Prelude.{◌≡◌, ◌≢◌, ◌<◌, ◌≤◌, Ok, Err, true, false, length, map, All, IfOk, OnOk, IfErr, MatchOption, MatchResult};
ghost use Rattle.text_lines.specs.Limits.{longest_text};
ghost use Rattle.modules_conf.specs.Bindings.{counts};
ghost use Rattle.batch_jobs.specs.Limits.{most_jobs};
ghost use Rattle.batch_jobs.specs.Jobs.{HasShortNames, is_file_name, job_of, jobs_of, line_of};
ghost use Rattle.batch_jobs.specs.Reading.{RefusesLine, TakesLine};

use crate::jobs::{Job, JobFault};
use crate::limits::MOST_JOBS;
use std::alloc::{AllocError, Global};
use std::str::from_utf8;
use text_lines::{first_words, next_line};

/// Whether a line counts: it has a word, and that doesn't begin with `#`.
fn counts(words: &[&[u8]]) -> bool
    requires { All (λ word. 0 < length word.now) words.now }
    ensures { result ≡ counts (map (λ word. word.now) words.now) }
{
    match words {
        [] => false,
        [first, ..] => first[0] != b'#',
    }
}

/// The name of a file: text without a byte 00.
fn file_name(word: &[u8]) -> Option<&str>
    ensures { MatchOption result (is_file_name word.now ≡ false)
        (λ name. (is_file_name word.now ≡ true) × (name.now ≡ word.now)) }
{
    match from_utf8(word) {
        Ok(name) => { if word.contains(&0) { None } else { Some(name) } }
        Err(_) => None,
    }
}

/// The job of four words.
fn make_job(
    alloc: Global,
    line: u32,
    from: &[u8],
    to: &[u8],
    input: &str,
    output: &str,
) -> Result<Job, AllocError>
    requires from { length from.now ≤ longest_text }
    requires to { length to.now ≤ longest_text }
    ensures value { IfOk result (λ job. line_of job ≡ record {
      line = line;
      from = from.now;
      to = to.now;
      input = input.now;
      output = output.now;
    }) }
    ensures short { IfOk result HasShortNames }
{
    Ok(Job {
        line,
        from: Vec::from_slice(alloc, from)?,
        to: Vec::from_slice(alloc, to)?,
        input: String::from_str(alloc, input)?,
        output: String::from_str(alloc, output)?,
    })
}

/// The job of a line with so many jobs before it.
fn read_job(alloc: Global, before: usize, line: u32, words: &[&[u8]]) -> Result<Job, JobFault>
    requires { All (λ word. length word.now ≤ longest_text) words.now }
    ensures value { MatchResult result
        (λ job. job_of before line (map (λ word. word.now) words.now) ≡ Ok (line_of job))
        (λ fault. fault ≢ JobFault.Memory
        → job_of before line (map (λ word. word.now) words.now) ≡ Err fault) }
    ensures few { IfOk result (λ _. before < most_jobs) }
    ensures short { IfOk result HasShortNames }
{
    let [from, to, input, output] = words else {
        return Err(JobFault::WordCount { line });
    };
    let Some(input) = file_name(input) else {
        return Err(JobFault::NotText { line });
    };
    let Some(output) = file_name(output) else {
        return Err(JobFault::NotText { line });
    };
    if MOST_JOBS <= before {
        return Err(JobFault::TooMany { line });
    }
    match make_job(alloc, line, from, to, input, output) {
        Ok(job) => Ok(job),
        Err(_) => Err(JobFault::Memory),
    }
}

/// Takes one more line.
fn take_line(alloc: Global, jobs: &mut Vec<Job>, number: u32, line: &[u8]) -> Result<(), JobFault>
    requires long { length line.now ≤ longest_text }
    requires few { length jobs.old.items ≤ most_jobs }
    requires short { All HasShortNames jobs.old.items }
    ensures few { OnOk result (length jobs.new.items ≤ most_jobs) }
    ensures short { OnOk result (All HasShortNames jobs.new.items) }
    ensures ok { OnOk result
        (TakesLine (map line_of jobs.old.items) number line.now (map line_of jobs.new.items)) }
    ensures err { IfErr result (λ fault. fault ≢ JobFault.Memory
        → RefusesLine (map line_of jobs.old.items) number line.now fault) }
{
    let words = first_words::<5>(line);
    let words = words.as_slice();
    if !counts(words) {
        return Ok(());
    }
    match read_job(alloc, jobs.len(), number, words) {
        Ok(job) => match jobs.push(job) {
            Ok(()) => Ok(()),
            Err(_) => Err(JobFault::Memory),
        },
        Err(fault) => Err(fault),
    }
}

/// Reads a text of jobs. A line without words, or whose first word begins with `#`, is passed over;
/// each other line is FROM, TO, IN and OUT. Of the faulty lines the first counts.
pub fn read_jobs(alloc: Global, text: &[u8]) -> Result<Vec<Job>, JobFault>
    requires { length text.now ≤ longest_text }
    ensures value { MatchResult result
        (λ jobs. jobs_of text.now ≡ Ok (map line_of jobs.items))
        (λ fault. fault ≢ JobFault.Memory → jobs_of text.now ≡ Err fault) }
    ensures few { IfOk result (λ jobs. length jobs.items ≤ most_jobs) }
    ensures short { IfOk result (λ jobs. All HasShortNames jobs.items) }
{
    let mut jobs = Vec::new(alloc);
    let mut number: u32 = 0;
    let mut rest = text;
    while let Some((line, behind)) = next_line(rest) {
        number += 1;
        take_line(alloc, &mut jobs, number, line)?;
        rest = behind;
    }
    Ok(jobs)
}

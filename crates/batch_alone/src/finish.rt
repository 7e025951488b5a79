//! The end of a run: its journal is put, and its report written.

ghost use Rattle.std.specs.Prelude.{◌≡◌, ◌≤◌, ◌+◌, ◌*◌, ℕ, List, All, IfOk, OnErr, length, map, option_map};
ghost use Rattle.outside.specs.Faults.{RoseBy};
ghost use Rattle.outside.specs.Moments.{Written};
ghost use Rattle.batch_jobs.specs.Limits.{most_jobs};
ghost use Rattle.batch_jobs.specs.Jobs.{HasShortNames, line_of};
ghost use Rattle.batch_jobs.specs.declared.outcomes.Outcome.{Outcome};
ghost use Rattle.batch_runs.specs.Lines.{memory_line};
ghost use Rattle.batch_runs.specs.Puts.{PutsJournal, sent_fault};
ghost use Rattle.batch_runs.specs.Batches.{Writes, all_good, report_by};
ghost use Rattle.batch_runs.specs.Endings.{EndsBy, cause_of, status_of};
ghost use Rattle.batch_alone.specs.Steps.{IsFresh};

use crate::runtime::{Closed, Runtime};
use crate::settling::settle;
use batch_jobs::{Job, journal_text};
use batch_runs::{Cause, Output};
use outside::{Files, Put, Sent, Sink};
use runtime_histories::Entry;
use std::alloc::{AllocError, Global};

/// How a run ended, with the library that it was given and its journal.
pub struct Ended<L> {
    pub status: u8,
    pub cause: Cause,
    pub library: L,
    pub journal: Vec<Entry>,
}

/// The exit status of a cause.
pub fn status_of(cause: Cause) -> u8
    ensures { result ≡ status_of cause }
{
    match cause {
        Cause::Done => 0,
        Cause::Jobs => 1,
        Cause::Usage => 2,
        Cause::Input { .. } => 3,
        Cause::InputFault { .. } => 4,
        Cause::OutFault { .. } => 5,
        Cause::Memory => 6,
    }
}

/// What is written where memory was wanting.
pub const NO_MEMORY: &str = "out of memory\n";

/// Puts the journal's text, where a file was named.
pub fn put_journal<F: Files>(
    alloc: Global,
    files: &mut F,
    file: Option<&str>,
    entries: &[Entry],
) -> Result<Sent, AllocError>
    ensures put { IfOk result (λ a. PutsJournal (F.outside files.old).told (option_map (λ s. s.now)
        file.entry) entries.now a (F.outside files.new).told) }
    ensures err { OnErr result ((F.outside files.new).told ≡ (F.outside files.old).told) }
    ensures takes { (F.outside files.new).takes ≡ (F.outside files.old).takes }
    ensures puts { IfOk result (λ a. RoseBy (sent_fault a) (F.outside files.old).puts (F.outside files.new).puts) }
{
    let Some(name) = file else {
        return Ok(Sent::Done);
    };
    let Ok(text) = journal_text(alloc, entries) else {
        return Err(AllocError);
    };
    match files.put(alloc, name, text.as_slice()) {
        Put::Done => Ok(Sent::Done),
        Put::Failed => Ok(Sent::Failed),
        Put::Memory => Err(AllocError),
    }
}

/// Writes a text to the sink.
pub fn write<O: Sink>(out: &mut O, text: &[u8]) -> Sent
    ensures { Writes (O.written out.old) (O.written out.new) text.now result }
{
    out.put(text)
}

/// Why a run ends, by whether all outcomes are good and by what putting the journal and writing the
/// report were answered.
pub fn cause_of(good: bool, put: Sent, report: Sent) -> Cause
    ensures { (outcomes : List Outcome) → good ≡ all_good outcomes → result ≡ cause_of outcomes put report }
{
    match put {
        Sent::Failed => Cause::OutFault {
            which: Output::Journal,
        },
        Sent::Done => match report {
            Sent::Failed => Cause::OutFault {
                which: Output::Report,
            },
            Sent::Done => { if good { Cause::Done } else { Cause::Jobs } }
        },
    }
}

/// Does the jobs of a run in one thread, puts the journal where a file was named, and writes the
/// report. The runtime has no entry.
pub fn run_jobs<B: Runtime, F: Files, O: Sink>(
    alloc: Global,
    book: B,
    jobs: &[Job],
    file: Option<&str>,
    sums: bool,
    files: &mut F,
    out: &mut O,
) -> Ended<B::Library>
    requires few { length jobs.now ≤ most_jobs }
    requires names { All HasShortNames jobs.now }
    requires fresh { IsFresh (B.book book) }
    requires places { 4 * length jobs.now ≤ (B.book book).limit }
    ensures status { result.status ≡ status_of result.cause }
    ensures ended { (workers : ℕ) → EndsBy
        (record {
          setting = (B.book book).setting;
          jobs = map line_of jobs.now;
          workers = workers;
          file = option_map (λ s. s.now) file.entry;
        })
        (report_by sums)
        (record {
          files = F.outside files.old;
          library = (B.book book).library;
          sink = O.written out.old;
        })
        (record {
          files = F.outside files.new;
          library = B.Library.holdings result.library;
          sink = O.written out.new;
        })
        result.cause result.journal.items }
{
    let mut book = book;
    let settled = settle(alloc, &mut book, files, jobs, sums);
    let Closed { library, journal } = book.done();
    let Ok(reported) = settled else {
        let _ = write(out, NO_MEMORY.as_bytes());
        return Ended {
            status: 6,
            cause: Cause::Memory,
            library,
            journal,
        };
    };
    let Ok(put) = put_journal(alloc, files, file, journal.as_slice()) else {
        let _ = write(out, NO_MEMORY.as_bytes());
        return Ended {
            status: 6,
            cause: Cause::Memory,
            library,
            journal,
        };
    };
    let sent = write(out, reported.text.as_slice());
    let cause = cause_of(reported.good, put, sent);
    Ended {
        status: status_of(cause),
        cause,
        library,
        journal,
    }
}

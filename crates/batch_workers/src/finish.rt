//! The jobs of a run with workers, to its end.

ghost use Rattle.std.specs.Prelude.{◌≡◌, ◌≤◌, All, length, map, option_map};
ghost use Rattle.batch_jobs.specs.Limits.{most_jobs};
ghost use Rattle.batch_jobs.specs.Jobs.{HasShortNames, line_of};
ghost use Rattle.batch_runs.specs.Batches.{report_by};
ghost use Rattle.batch_runs.specs.Endings.{EndsBy, status_of};
ghost use Rattle.batch_runs.specs.Lines.{memory_line};
ghost use Rattle.batch_runs.specs.declared.cause.Cause.TheVariants.{Memory};
ghost use Rattle.batch_alone.specs.Stops.{Tells};
ghost use Rattle.batch_workers.specs.Parts.{empty_roll, most_callers};

use crate::gate::Gate;
use crate::settling::{do_jobs, settle};
use crate::shared::Shared;
use batch_alone::{Closed, Ended, cause_of, put_journal, status_of, tell_short, write};
use batch_jobs::Job;
use outside::{Files, Sink};
use runtime_histories::Entry;
use std::alloc::Global;
use std::sync::Wait;
use std::thread::Threads;

/// The end of a run that wanted memory.
pub fn end_short<L, O: Sink>(out: &mut O, library: L, journal: Vec<Entry>) -> Ended<L>
    ensures status { result.status ≡ status_of result.cause }
    ensures cause { result.cause ≡ Memory }
    ensures library { result.library ≡ library }
    ensures journal { result.journal ≡ journal }
    ensures wrote { Tells (O.written out.old) (O.written out.new) memory_line }
{
    let cause = tell_short(out);
    Ended {
        status: status_of(cause),
        cause,
        library,
        journal,
    }
}

/// Does the jobs of a run with so many workers, puts the outputs in the order of the jobs, puts the
/// journal where a file was named, and writes the report. The runtime has no entry and no caller.
pub fn run_jobs<S: Shared + Sync, G: Gate + Sync, F: Files, O: Sink, R: Threads + Wait + Sync>(
    rt: &R,
    alloc: Global,
    shared: S,
    lead: S::Lead,
    count: u32,
    gate: &G,
    jobs: &[Job],
    file: Option<&str>,
    sums: bool,
    files: &mut F,
    out: &mut O,
) -> Ended<S::Library>
    requires leads { S.leads shared lead }
    requires roll { S.roll lead ≡ empty_roll }
    requires some { 1 ≤ count }
    requires most { count ≤ most_callers }
    requires few { length jobs.now ≤ most_jobs }
    requires names { All HasShortNames jobs.now }
    ensures status { result.status ≡ status_of result.cause }
    ensures ended { EndsBy
        (record {
          setting = (S.base shared).setting;
          jobs = map line_of jobs.now;
          workers = count;
          file = option_map (λ s. s.now) file.entry;
        })
        (report_by sums)
        (record {
          files = F.outside files.old;
          library = (S.base shared).handed;
          sink = O.written out.old;
        })
        (record {
          files = F.outside files.new;
          library = S.Library.holdings result.library;
          sink = O.written out.new;
        })
        result.cause result.journal.items }
{
    let mut lead = lead;
    let Ok(worked) = do_jobs(rt, alloc, &shared, &mut lead, count, gate, jobs, files) else {
        let Closed { library, journal } = shared.close(rt, lead);
        return end_short(out, library, journal);
    };
    let Closed { library, journal } = shared.close(rt, lead);
    let Ok(reported) = settle(alloc, files, jobs, worked, sums) else {
        return end_short(out, library, journal);
    };
    let Ok(put) = put_journal(alloc, files, file, journal.as_slice()) else {
        return end_short(out, library, journal);
    };
    let sent = write(out, reported.text.as_slice());
    let cause = cause_of(reported.good, put, sent);
    Ended {
        status: status_of(cause),
        cause,
        library,
        journal,
    }
}

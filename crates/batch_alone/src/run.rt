//! A whole run in one thread.

ghost use Rattle.std.specs.Prelude.{◌≡◌, ◌≤◌, ℕ, All, IfOk, length, map, option_map, string_bytes};
ghost use Rattle.modules_conf.specs.Limits.{AreSound, IsWithinLimits};
ghost use Rattle.batch_jobs.specs.Limits.{most_jobs};
ghost use Rattle.batch_jobs.specs.Jobs.{HasShortNames, line_of};
ghost use Rattle.batch_words.specs.Asked.{Texts};
ghost use Rattle.batch_runs.specs.Endings.{status_of};
ghost use Rattle.batch_runs.specs.Runs.{RanFor};
ghost use Rattle.batch_alone.specs.Stops.{StopsRun, cause_of_stop, line_of_stop};
ghost use Rattle.batch_alone.specs.Starts.{IsStarted};

use crate::finish::{Ended, NO_MEMORY, run_jobs, status_of, write};
use crate::halt::Halt;
use crate::lines::{fault_line, refused_line};
use crate::runtime::Runtime;
use crate::texts::prepare;
use batch_jobs::Job;
use batch_runs::{Cause, Stop};
use modules_conf::{Bindings, Conf};
use outside::{Files, Sink};
use std::alloc::{AllocError, Global};

/// The most entries of a journal.
pub const MOST_ENTRIES: u32 = 16_777_216;

/// The line of a run that ended at a text.
fn stop_line(alloc: Global, stop: Stop) -> Result<String, AllocError>
    ensures { IfOk result (λ text. string_bytes text ≡ line_of_stop stop) }
{
    match stop {
        Stop::Refused { which, fault } => refused_line(alloc, which, fault),
        Stop::Faulted { which } => fault_line(alloc, which),
    }
}

/// Why a run ended at a text.
fn stop_cause(stop: Stop) -> Cause
    ensures { result ≡ cause_of_stop stop }
{
    match stop {
        Stop::Refused { which, fault } => Cause::Input { which, fault },
        Stop::Faulted { which } => Cause::InputFault { which },
    }
}

/// Writes the line of a run that wanted memory.
pub fn tell_short<O: Sink>(out: &mut O) -> Cause
    ensures { StopsRun (O.written out.old) (O.written out.new) Halt.Memory result }
{
    let _ = write(out, NO_MEMORY.as_bytes());
    Cause::Memory
}

/// Writes the line of a run that ended before its jobs.
pub fn tell_stop<O: Sink>(alloc: Global, halt: Halt, out: &mut O) -> Cause
    ensures { StopsRun (O.written out.old) (O.written out.new) halt result }
{
    match halt {
        Halt::Memory => tell_short(out),
        Halt::Stopped(stop) => match stop_line(alloc, stop) {
            Ok(text) => {
                let _ = write(out, text.as_bytes());
                stop_cause(stop)
            }
            Err(_) => tell_short(out),
        },
    }
}

/// What the jobs of a run are done with.
pub struct Aim<'a> {
    pub conf: &'a Conf,
    pub bindings: &'a Bindings,
    pub folder: &'a str,
    pub pages: u32,
    pub jobs: &'a [Job],
    pub file: Option<&'a str>,
    pub sums: bool,
}

/// Starts a runtime, and does the jobs of a run.
pub fn run_prepared<B: Runtime, F: Files, O: Sink>(
    alloc: Global,
    aim: Aim,
    files: &mut F,
    library: B::Library,
    out: &mut O,
) -> Ended<B::Library>
    requires limits { IsWithinLimits aim.conf.now.edges }
    requires sound { AreSound aim.bindings.now }
    requires few { length aim.jobs.now ≤ most_jobs }
    requires names { All HasShortNames aim.jobs.now }
    ensures status { result.status ≡ status_of result.cause }
    ensures started { IsStarted
        (record {
          conf = aim.entry.conf.now;
          bound = aim.entry.bindings.now;
          folder = aim.entry.folder.now;
          pages = aim.entry.pages;
          jobs = map line_of aim.entry.jobs.now;
          file = option_map (λ s. s.now) aim.entry.file;
          sums = aim.entry.sums;
        })
        (record {
          files = F.outside files.old;
          library = B.Library.holdings library;
          sink = O.written out.old;
        })
        (record {
          files = F.outside files.new;
          library = B.Library.holdings result.library;
          sink = O.written out.new;
        })
        result.cause result.journal.items }
{
    let Aim {
        conf,
        bindings,
        folder,
        pages,
        jobs,
        file,
        sums,
    } = aim;
    match B::start(alloc, conf, bindings, library, folder, pages, MOST_ENTRIES) {
        Ok(book) => run_jobs(alloc, book, jobs, file, sums, files, out),
        Err(library) => {
            let cause = tell_short(out);
            Ended {
                status: status_of(cause),
                cause,
                library,
                journal: Vec::new(alloc),
            }
        }
    }
}

/// Does the jobs of three texts.
pub fn run_texts<B: Runtime, F: Files, O: Sink>(
    alloc: Global,
    modules: &str,
    bindings: &str,
    charmaps: &str,
    jobs: &str,
    pages: u32,
    file: Option<&str>,
    files: &mut F,
    library: B::Library,
    out: &mut O,
) -> Ended<B::Library>
    ensures status { result.status ≡ status_of result.cause }
    ensures ran { (workers : ℕ) → RanFor
        (record {
          source = Texts modules.now bindings.now charmaps.now jobs.now;
          pages = pages;
          journal = option_map (λ s. s.now) file.entry;
          workers = workers;
        })
        (record {
          files = F.outside files.old;
          library = B.Library.holdings library;
          sink = O.written out.old;
        })
        (record {
          files = F.outside files.new;
          library = B.Library.holdings result.library;
          sink = O.written out.new;
        })
        result.cause result.journal.items }
{
    let ready = match prepare(alloc, files, modules, bindings, jobs) {
        Ok(ready) => ready,
        Err(halt) => {
            let cause = tell_stop(alloc, halt, out);
            return Ended {
                status: status_of(cause),
                cause,
                library,
                journal: Vec::new(alloc),
            };
        }
    };
    let aim = Aim {
        conf: &ready.conf,
        bindings: &ready.bindings,
        folder: charmaps,
        pages,
        jobs: ready.jobs.as_slice(),
        file,
        sums: false,
    };
    run_prepared::<B, F, O>(alloc, aim, files, library, out)
}

//! A whole run with workers.

ghost use Rattle.std.specs.Prelude.{◌≡◌, ◌≤◌, All, length, map, option_map};
ghost use Rattle.modules_conf.specs.Limits.{AreSound, IsWithinLimits};
ghost use Rattle.batch_jobs.specs.Limits.{most_jobs};
ghost use Rattle.batch_jobs.specs.Jobs.{HasShortNames, line_of};
ghost use Rattle.batch_words.specs.Asked.{Texts};
ghost use Rattle.batch_runs.specs.Endings.{status_of};
ghost use Rattle.batch_runs.specs.Runs.{RanFor};
ghost use Rattle.batch_workers.specs.Parts.{most_callers};
ghost use Rattle.batch_workers.specs.Starts.{IsStartedWith};

use crate::finish::{end_short, run_jobs};
use crate::gate::Gate;
use crate::shared::Shared;
use batch_alone::{Aim, Ended, MOST_ENTRIES, Runtime, prepare, run_prepared, status_of, tell_stop};
use outside::{Files, Library, Sink};
use std::alloc::Global;
use std::sync::Wait;
use std::thread::Threads;

/// Starts a runtime, and does the jobs of a run with so many workers. A list of one job is done by the
/// asking thread alone, which asks less of the machine than a worker does.
pub fn run_with_workers<
    L: Library + Send,
    B: Runtime<Library = L>,
    S: Shared<Library = L> + Sync,
    G: Gate + Sync,
    F: Files,
    O: Sink,
    R: Threads + Wait + Sync,
>(
    rt: &R,
    alloc: Global,
    aim: Aim,
    count: u32,
    gate: &G,
    files: &mut F,
    library: L,
    out: &mut O,
) -> Ended<L>
    requires some { 1 ≤ count }
    requires most { count ≤ most_callers }
    requires limits { IsWithinLimits aim.conf.now.edges }
    requires sound { AreSound aim.bindings.now }
    requires few { length aim.jobs.now ≤ most_jobs }
    requires names { All HasShortNames aim.jobs.now }
    ensures status { result.status ≡ status_of result.cause }
    ensures started { IsStartedWith
        (record {
          conf = aim.entry.conf.now;
          bound = aim.entry.bindings.now;
          folder = aim.entry.folder.now;
          pages = aim.entry.pages;
          jobs = map line_of aim.entry.jobs.now;
          file = option_map (λ s. s.now) aim.entry.file;
          sums = aim.entry.sums;
        })
        count
        (record {
          files = F.outside files.old;
          library = L.holdings library;
          sink = O.written out.old;
        })
        (record {
          files = F.outside files.new;
          library = L.holdings result.library;
          sink = O.written out.new;
        })
        result.cause result.journal.items }
{
    if aim.jobs.len() <= 1 {
        return run_prepared::<B, F, O>(alloc, aim, files, library, out);
    }
    let Aim {
        conf,
        bindings,
        folder,
        pages,
        jobs,
        file,
        sums,
    } = aim;
    match S::start(
        rt,
        alloc,
        conf,
        bindings,
        library,
        folder,
        pages,
        MOST_ENTRIES,
    ) {
        Ok((shared, lead)) => run_jobs(
            rt, alloc, shared, lead, count, gate, jobs, file, sums, files, out,
        ),
        Err(library) => end_short(out, library, Vec::new(alloc)),
    }
}

/// Does the jobs of three texts with so many workers.
pub fn run_texts_with_workers<
    L: Library + Send,
    B: Runtime<Library = L>,
    S: Shared<Library = L> + Sync,
    G: Gate + Sync,
    F: Files,
    O: Sink,
    R: Threads + Wait + Sync,
>(
    rt: &R,
    alloc: Global,
    modules: &str,
    bindings: &str,
    charmaps: &str,
    jobs: &str,
    pages: u32,
    file: Option<&str>,
    count: u32,
    gate: &G,
    files: &mut F,
    library: L,
    out: &mut O,
) -> Ended<L>
    requires some { 1 ≤ count }
    requires most { count ≤ most_callers }
    ensures status { result.status ≡ status_of result.cause }
    ensures ran { RanFor
        (record {
          source = Texts modules.now bindings.now charmaps.now jobs.now;
          pages = pages;
          journal = option_map (λ s. s.now) file.entry;
          workers = count;
        })
        (record {
          files = F.outside files.old;
          library = L.holdings library;
          sink = O.written out.old;
        })
        (record {
          files = F.outside files.new;
          library = L.holdings result.library;
          sink = O.written out.new;
        })
        result.cause result.journal.items }
{
    let ready = match prepare(alloc, files, modules, bindings, jobs) {
        Ok(ready) => ready,
        Err(halt) => {
            let cause = tell_stop(alloc, halt, out);
            return Ended {
                status: status_of(cause),
                cause,
                library,
                journal: Vec::new(alloc),
            };
        }
    };
    let aim = Aim {
        conf: &ready.conf,
        bindings: &ready.bindings,
        folder: charmaps,
        pages,
        jobs: ready.jobs.as_slice(),
        file,
        sums: false,
    };
    run_with_workers::<L, B, S, G, F, O, R>(rt, alloc, aim, count, gate, files, library, out)
}

//! A run whose input is made for a number.

ghost use Rattle.std.specs.Prelude.{◌≡◌, ◌≤◌, ℕ, option_map};
ghost use Rattle.outside.specs.Moments.{Outside};
ghost use Rattle.batch_jobs.specs.Limits.{most_number};
ghost use Rattle.batch_words.specs.Asked.{Generated};
ghost use Rattle.batch_runs.specs.Endings.{status_of};
ghost use Rattle.batch_runs.specs.Runs.{RanFor};
ghost use Rattle.batch_workers.specs.Parts.{most_callers};
ghost use Rattle.batch_whole.specs.Worlds.{world};

use crate::ends::end_memory;
use crate::made_texts::read_made;
use batch_alone::{Aim, Ended, Runtime, run_prepared};
use batch_jobs::generate;
use batch_workers::{Gate, Shared, run_with_workers};
use outside::{Library, Sink, SureFiles, SureLibrary};
use std::alloc::Global;
use std::sync::Wait;
use std::thread::Threads;

/// The folder of the charmaps of a made input.
const MADE_FOLDER: &str = "gen";

/// Does the jobs that are made for a number, in memory; the library that is handed in isn't called.
pub fn run_made<M: Runtime<Library = SureLibrary>, L: Library, O: Sink>(
    alloc: Global,
    number: u32,
    pages: u32,
    file: Option<&str>,
    library: L,
    out: &mut O,
) -> Ended<L>
    requires number { number ≤ most_number }
    ensures status { result.status ≡ status_of result.cause }
    ensures ran { (workers : ℕ) (files : Outside) → RanFor
        (record {
          source = Generated number;
          pages = pages;
          journal = option_map (λ s. s.now) file.entry;
          workers = workers;
        })
        (world files (L.holdings library) (O.written out.old))
        (world files (L.holdings result.library) (O.written out.new))
        result.cause result.journal.items }
{
    let Ok(made) = generate(alloc, number) else {
        return end_memory(alloc, library, out);
    };
    let Ok(texts) = read_made(
        alloc,
        made.modules.as_slice(),
        made.bindings.as_slice(),
        made.jobs.as_slice(),
    ) else {
        return end_memory(alloc, library, out);
    };
    let aim = Aim {
        conf: &texts.conf,
        bindings: &texts.bindings,
        folder: MADE_FOLDER,
        pages,
        jobs: texts.jobs.as_slice(),
        file,
        sums: true,
    };
    let mut files = SureFiles::new(made.files);
    let charmaps = SureLibrary::new(alloc, made.charmaps);
    let Ended {
        status,
        cause,
        library: _charmaps,
        journal,
    } = run_prepared::<M, SureFiles, O>(alloc, aim, &mut files, charmaps, out);
    Ended {
        status,
        cause,
        library,
        journal,
    }
}

/// The same with so many workers.
pub fn run_made_with_workers<
    M: Runtime<Library = SureLibrary>,
    N: Shared<Library = SureLibrary> + Sync,
    L: Library,
    G: Gate + Sync,
    O: Sink,
    R: Threads + Wait + Sync,
>(
    rt: &R,
    alloc: Global,
    number: u32,
    pages: u32,
    file: Option<&str>,
    count: u32,
    gate: &G,
    library: L,
    out: &mut O,
) -> Ended<L>
    requires number { number ≤ most_number }
    requires some { 1 ≤ count }
    requires most { count ≤ most_callers }
    ensures status { result.status ≡ status_of result.cause }
    ensures ran { (files : Outside) → RanFor
        (record {
          source = Generated number;
          pages = pages;
          journal = option_map (λ s. s.now) file.entry;
          workers = count;
        })
        (world files (L.holdings library) (O.written out.old))
        (world files (L.holdings result.library) (O.written out.new))
        result.cause result.journal.items }
{
    let Ok(made) = generate(alloc, number) else {
        return end_memory(alloc, library, out);
    };
    let Ok(texts) = read_made(
        alloc,
        made.modules.as_slice(),
        made.bindings.as_slice(),
        made.jobs.as_slice(),
    ) else {
        return end_memory(alloc, library, out);
    };
    let aim = Aim {
        conf: &texts.conf,
        bindings: &texts.bindings,
        folder: MADE_FOLDER,
        pages,
        jobs: texts.jobs.as_slice(),
        file,
        sums: true,
    };
    let mut files = SureFiles::new(made.files);
    let charmaps = SureLibrary::new(alloc, made.charmaps);
    let Ended {
        status,
        cause,
        library: _charmaps,
        journal,
    } = run_with_workers::<SureLibrary, M, N, G, SureFiles, O, R>(
        rt, alloc, aim, count, gate, &mut files, charmaps, out,
    );
    Ended {
        status,
        cause,
        library,
        journal,
    }
}

//! The whole program, over the files, the library and the sink that it is handed.

ghost use Rattle.std.specs.Prelude.{◌≡◌, map, string_bytes};
ghost use Rattle.batch_runs.specs.Endings.{status_of};
ghost use Rattle.batch_runs.specs.Runs.{Ran};
ghost use Rattle.batch_whole.specs.Worlds.{world};

use crate::with_workers::run_words_with_workers;
use batch_alone::Ended;
use batch_book::OneThread;
use batch_gconv::ManyThreads;
use batch_workers::Gate;
use outside::{Files, Library, Sink, SureLibrary};
use std::sync::Wait;
use std::thread::Threads;

/// Does what the words ask for, with as many workers as they name, and tells how it ended. Without
/// workers the asking thread does all jobs, and passes no gate.
pub fn run<
    R: AllocGlobal + Threads + Wait + Sync,
    F: Files,
    L: Library + Send,
    G: Gate + Sync,
    O: Sink,
>(rt: &R, words: &[String], files: &mut F, library: L, gate: &G, out: &mut O) -> Ended<L>
    ensures status { result.status ≡ status_of result.cause }
    ensures ran { Ran (map string_bytes words.now)
        (world (F.outside files.old) (L.holdings library) (O.written out.old))
        (world (F.outside files.new) (L.holdings result.library) (O.written out.new))
        result.cause result.journal.items }
{
    run_words_with_workers::<
        L,
        OneThread<L>,
        OneThread<SureLibrary>,
        ManyThreads<L>,
        ManyThreads<SureLibrary>,
        F,
        G,
        O,
        R,
    >(rt, rt.alloc(), words, files, library, gate, out)
}

//! From the words to the end of their run.

ghost use Rattle.std.specs.Prelude.{◌≡◌, map, string_bytes};
ghost use Rattle.batch_runs.specs.Endings.{status_of};
ghost use Rattle.batch_runs.specs.Runs.{Ran};
ghost use Rattle.batch_whole.specs.Worlds.{world};

use crate::alone::run_plan;
use crate::ends::{end_memory, end_usage};
use batch_alone::{Ended, Runtime};
use batch_words::{Refusal, words_of};
use outside::{Files, Sink, SureLibrary};
use std::alloc::Global;

/// Does what the words ask for, and tells how it ended. Every number of workers goes in one thread.
pub fn run_words<B: Runtime, M: Runtime<Library = SureLibrary>, F: Files, O: Sink>(
    alloc: Global,
    words: &[String],
    files: &mut F,
    library: B::Library,
    out: &mut O,
) -> Ended<B::Library>
    ensures status { result.status ≡ status_of result.cause }
    ensures ran { Ran (map string_bytes words.now)
        (world (F.outside files.old) (B.Library.holdings library) (O.written out.old))
        (world (F.outside files.new) (B.Library.holdings result.library) (O.written out.new))
        result.cause result.journal.items }
{
    match words_of(alloc, words) {
        Ok(words) => run_plan::<B, M, F, O>(alloc, &words.plan, files, library, out),
        Err(Refusal::Usage) => end_usage(alloc, library, out),
        Err(Refusal::Memory) => end_memory(alloc, library, out),
    }
}

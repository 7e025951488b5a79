//! What words ask for, done with as many workers as they name.

ghost use Rattle.std.specs.Prelude.{◌≡◌, ◌≤◌, map, option_map, string_bytes};
ghost use Rattle.batch_words.specs.Asked.{IsWithin, plan_of, source_of};
ghost use Rattle.batch_runs.specs.Endings.{status_of};
ghost use Rattle.batch_runs.specs.Runs.{Ran, RanFor};
ghost use Rattle.batch_workers.specs.Parts.{most_callers};
ghost use Rattle.batch_whole.specs.Worlds.{world};

use crate::alone::{named, run_plan};
use crate::ends::{end_memory, end_usage};
use crate::made::run_made_with_workers;
use batch_alone::{Ended, Runtime, run_single};
use batch_words::{Plan, PlanSource, Refusal, words_of};
use batch_workers::{Gate, Shared, run_texts_with_workers};
use outside::{Files, Library, Sink, SureLibrary};
use std::alloc::Global;
use std::sync::Wait;
use std::thread::Threads;

/// Does a plan with so many workers, at least one. One job by itself is done by the asking thread.
fn run_shared_plan<
    L: Library + Send,
    B: Runtime<Library = L>,
    M: Runtime<Library = SureLibrary>,
    S: Shared<Library = L> + Sync,
    N: Shared<Library = SureLibrary> + Sync,
    F: Files,
    G: Gate + Sync,
    O: Sink,
    R: Threads + Wait + Sync,
>(
    rt: &R,
    alloc: Global,
    plan: &Plan,
    count: u32,
    gate: &G,
    files: &mut F,
    library: L,
    out: &mut O,
) -> Ended<L>
    requires within { IsWithin (source_of plan.now.source) }
    requires some { 1 ≤ count }
    requires most { count ≤ most_callers }
    ensures status { result.status ≡ status_of result.cause }
    ensures ran { RanFor (plan_of plan.now count)
        (world (F.outside files.old) (L.holdings library) (O.written out.old))
        (world (F.outside files.new) (L.holdings result.library) (O.written out.new))
        result.cause result.journal.items }
{
    let pages = plan.pages;
    let file = named(&plan.journal);
    match &plan.source {
        PlanSource::Texts {
            modules,
            bindings,
            charmaps,
            jobs,
        } => run_texts_with_workers::<L, B, S, G, F, O, R>(
            rt,
            alloc,
            modules.as_str(),
            bindings.as_str(),
            charmaps.as_str(),
            jobs.as_str(),
            pages,
            file,
            count,
            gate,
            files,
            library,
            out,
        ),
        PlanSource::Single {
            from,
            to,
            input,
            output,
        } => run_single::<B, F, O>(
            alloc,
            from.as_slice(),
            to.as_slice(),
            input.as_str(),
            output.as_str(),
            pages,
            file,
            files,
            library,
            out,
        ),
        PlanSource::Generated { number } => run_made_with_workers::<M, N, L, G, O, R>(
            rt, alloc, *number, pages, file, count, gate, library, out,
        ),
    }
}

/// Does what the words ask for, with as many workers as they name, and tells how it ended. Without
/// workers the asking thread does all jobs.
pub fn run_words_with_workers<
    L: Library + Send,
    B: Runtime<Library = L>,
    M: Runtime<Library = SureLibrary>,
    S: Shared<Library = L> + Sync,
    N: Shared<Library = SureLibrary> + Sync,
    F: Files,
    G: Gate + Sync,
    O: Sink,
    R: Threads + Wait + Sync,
>(
    rt: &R,
    alloc: Global,
    words: &[String],
    files: &mut F,
    library: L,
    gate: &G,
    out: &mut O,
) -> Ended<L>
    ensures status { result.status ≡ status_of result.cause }
    ensures ran { Ran (map string_bytes words.now)
        (world (F.outside files.old) (L.holdings library) (O.written out.old))
        (world (F.outside files.new) (L.holdings result.library) (O.written out.new))
        result.cause result.journal.items }
{
    let words = match words_of(alloc, words) {
        Ok(words) => words,
        Err(Refusal::Usage) => return end_usage(alloc, library, out),
        Err(Refusal::Memory) => return end_memory(alloc, library, out),
    };
    if words.workers == 0 {
        return run_plan::<B, M, F, O>(alloc, &words.plan, files, library, out);
    }
    run_shared_plan::<L, B, M, S, N, F, G, O, R>(
        rt,
        alloc,
        &words.plan,
        words.workers,
        gate,
        files,
        library,
        out,
    )
}

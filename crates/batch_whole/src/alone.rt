//! A plan, done in one thread.

ghost use Rattle.std.specs.Prelude.{◌≡◌, ℕ, option_map, string_bytes};
ghost use Rattle.batch_words.specs.Asked.{IsWithin, plan_of, source_of};
ghost use Rattle.batch_runs.specs.Endings.{status_of};
ghost use Rattle.batch_runs.specs.Runs.{RanFor};
ghost use Rattle.batch_whole.specs.Worlds.{world};

use crate::made::run_made;
use batch_alone::{Ended, Runtime, run_single, run_texts};
use batch_words::{Plan, PlanSource};
use outside::{Files, Sink, SureLibrary};
use std::alloc::Global;

/// The name of a file, if there is one.
pub fn named(file: &Option<String>) -> Option<&str>
    ensures { option_map (λ s. s.now) result ≡ option_map string_bytes file.now }
{
    match file {
        Some(name) => Some(name.as_str()),
        None => None,
    }
}

/// Does a plan in one thread. What is done suits any number of workers.
pub fn run_plan<B: Runtime, M: Runtime<Library = SureLibrary>, F: Files, O: Sink>(
    alloc: Global,
    plan: &Plan,
    files: &mut F,
    library: B::Library,
    out: &mut O,
) -> Ended<B::Library>
    requires within { IsWithin (source_of plan.now.source) }
    ensures status { result.status ≡ status_of result.cause }
    ensures ran { (workers : ℕ) → RanFor (plan_of plan.now workers)
        (world (F.outside files.old) (B.Library.holdings library) (O.written out.old))
        (world (F.outside files.new) (B.Library.holdings result.library) (O.written out.new))
        result.cause result.journal.items }
{
    let pages = plan.pages;
    let file = named(&plan.journal);
    match &plan.source {
        PlanSource::Texts {
            modules,
            bindings,
            charmaps,
            jobs,
        } => run_texts::<B, F, O>(
            alloc,
            modules.as_str(),
            bindings.as_str(),
            charmaps.as_str(),
            jobs.as_str(),
            pages,
            file,
            files,
            library,
            out,
        ),
        PlanSource::Single {
            from,
            to,
            input,
            output,
        } => run_single::<B, F, O>(
            alloc,
            from.as_slice(),
            to.as_slice(),
            input.as_str(),
            output.as_str(),
            pages,
            file,
            files,
            library,
            out,
        ),
        PlanSource::Generated { number } => {
            run_made::<M, B::Library, O>(alloc, *number, pages, file, library, out)
        }
    }
}

//! A run of one job by itself.

ghost use Rattle.std.specs.Prelude.{◌≡◌, ◌≤◌, ◌∷◌, ℕ, [], Ok, All, IfOk, length, map, option_map};
ghost use Rattle.text_lines.specs.Limits.{longest_text};
ghost use Rattle.modules_conf.specs.Limits.{AreSound, IsWithinLimits};
ghost use Rattle.modules_conf.specs.Modules.{conf_of};
ghost use Rattle.modules_conf.specs.Bindings.{bindings_of};
ghost use Rattle.batch_jobs.specs.Limits.{most_jobs};
ghost use Rattle.batch_jobs.specs.Jobs.{HasShortNames, line_of};
ghost use Rattle.batch_words.specs.Asked.{Single};
ghost use Rattle.batch_runs.specs.Endings.{status_of};
ghost use Rattle.batch_runs.specs.Preparing.{single_job};
ghost use Rattle.batch_runs.specs.Runs.{RanFor};

use crate::finish::{Ended, status_of};
use crate::run::{Aim, run_prepared, tell_short};
use crate::runtime::Runtime;
use crate::texts::Ready;
use batch_jobs::Job;
use modules_conf::{read_bindings, read_modules};
use outside::{Files, Sink};
use std::alloc::{AllocError, Global};

/// The job of four words.
fn single_list(
    alloc: Global,
    from: &[u8],
    to: &[u8],
    input: &str,
    output: &str,
) -> Result<Vec<Job>, AllocError>
    requires from { length from.now ≤ longest_text }
    requires to { length to.now ≤ longest_text }
    ensures jobs { IfOk result (λ jobs. map line_of jobs.items
        ≡ single_job from.now to.now input.now output.now ∷ []) }
    ensures few { IfOk result (λ jobs. length jobs.items ≤ most_jobs) }
    ensures names { IfOk result (λ jobs. All HasShortNames jobs.items) }
{
    let mut jobs = Vec::new(alloc);
    jobs.push(Job {
        line: 1,
        from: Vec::from_slice(alloc, from)?,
        to: Vec::from_slice(alloc, to)?,
        input: String::from_str(alloc, input)?,
        output: String::from_str(alloc, output)?,
    })?;
    Ok(jobs)
}

/// The job of four words, in the empty configuration.
fn single_ready(
    alloc: Global,
    from: &[u8],
    to: &[u8],
    input: &str,
    output: &str,
) -> Result<Ready, AllocError>
    requires from { length from.now ≤ longest_text }
    requires to { length to.now ≤ longest_text }
    ensures conf { IfOk result (λ r. conf_of [] ≡ Ok r.conf) }
    ensures bindings { IfOk result (λ r. bindings_of [] ≡ Ok r.bindings) }
    ensures jobs { IfOk result (λ r. map line_of r.jobs.items
        ≡ single_job from.now to.now input.now output.now ∷ []) }
    ensures limits { IfOk result (λ r. IsWithinLimits r.conf.edges) }
    ensures sound { IfOk result (λ r. AreSound r.bindings) }
    ensures few { IfOk result (λ r. length r.jobs.items ≤ most_jobs) }
    ensures names { IfOk result (λ r. All HasShortNames r.jobs.items) }
{
    let Ok(conf) = read_modules(alloc, b"".as_slice()) else {
        return Err(AllocError);
    };
    let Ok(bindings) = read_bindings(alloc, b"".as_slice()) else {
        return Err(AllocError);
    };
    Ok(Ready {
        conf,
        bindings,
        jobs: single_list(alloc, from, to, input, output)?,
    })
}

/// Does one job by itself, in the empty configuration.
pub fn run_single<B: Runtime, F: Files, O: Sink>(
    alloc: Global,
    from: &[u8],
    to: &[u8],
    input: &str,
    output: &str,
    pages: u32,
    file: Option<&str>,
    files: &mut F,
    library: B::Library,
    out: &mut O,
) -> Ended<B::Library>
    requires from { length from.now ≤ longest_text }
    requires to { length to.now ≤ longest_text }
    ensures status { result.status ≡ status_of result.cause }
    ensures ran { (workers : ℕ) → RanFor
        (record {
          source = Single from.now to.now input.now output.now;
          pages = pages;
          journal = option_map (λ s. s.now) file.entry;
          workers = workers;
        })
        (record {
          files = F.outside files.old;
          library = B.Library.holdings library;
          sink = O.written out.old;
        })
        (record {
          files = F.outside files.new;
          library = B.Library.holdings result.library;
          sink = O.written out.new;
        })
        result.cause result.journal.items }
{
    let Ok(ready) = single_ready(alloc, from, to, input, output) else {
        let cause = tell_short(out);
        return Ended {
            status: status_of(cause),
            cause,
            library,
            journal: Vec::new(alloc),
        };
    };
    let aim = Aim {
        conf: &ready.conf,
        bindings: &ready.bindings,
        folder: "",
        pages,
        jobs: ready.jobs.as_slice(),
        file,
        sums: false,
    };
    run_prepared::<B, F, O>(alloc, aim, files, library, out)
}

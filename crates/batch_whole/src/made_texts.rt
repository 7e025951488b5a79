//! What the texts of a made input stand for.

ghost use Rattle.std.specs.Prelude.{◌≡◌, ◌≤◌, Ok, All, IfOk, length, map, nat_le};
ghost use Rattle.text_lines.specs.Limits.{longest_text};
ghost use Rattle.modules_conf.specs.Modules.{conf_of};
ghost use Rattle.modules_conf.specs.Bindings.{bindings_of};
ghost use Rattle.modules_conf.specs.Limits.{AreSound, IsWithinLimits};
ghost use Rattle.batch_jobs.specs.Limits.{most_jobs};
ghost use Rattle.batch_jobs.specs.Jobs.{HasShortNames, jobs_of, line_of};

use batch_jobs::{Job, read_jobs};
use modules_conf::{Bindings, Conf, read_bindings, read_modules};
use std::alloc::{AllocError, Global};
use text_lines::LONGEST_TEXT;

/// A configuration, its bindings and jobs.
#[derive(Drop)]
pub struct MadeTexts {
    pub conf: Conf,
    pub bindings: Bindings,
    pub jobs: Vec<Job>,
}

/// Whether a text may be read.
fn is_short(text: &[u8]) -> bool
    ensures { result ≡ nat_le (length text.now) longest_text }
{
    text.len() <= LONGEST_TEXT as usize
}

/// Reads the three texts of a made input. None of them is refused, which isn't stated: a text that
/// were refused would be answered as one that wanted memory.
pub fn read_made(
    alloc: Global,
    modules: &[u8],
    bindings: &[u8],
    jobs: &[u8],
) -> Result<MadeTexts, AllocError>
    ensures conf { IfOk result (λ r. conf_of modules.now ≡ Ok r.conf) }
    ensures bindings { IfOk result (λ r. bindings_of bindings.now ≡ Ok r.bindings) }
    ensures jobs { IfOk result (λ r. jobs_of jobs.now ≡ Ok (map line_of r.jobs.items)) }
    ensures limits { IfOk result (λ r. IsWithinLimits r.conf.edges) }
    ensures sound { IfOk result (λ r. AreSound r.bindings) }
    ensures few { IfOk result (λ r. length r.jobs.items ≤ most_jobs) }
    ensures names { IfOk result (λ r. All HasShortNames r.jobs.items) }
{
    if !is_short(modules) || !is_short(bindings) || !is_short(jobs) {
        return Err(AllocError);
    }
    let Ok(conf) = read_modules(alloc, modules) else {
        return Err(AllocError);
    };
    let Ok(bindings) = read_bindings(alloc, bindings) else {
        return Err(AllocError);
    };
    match read_jobs(alloc, jobs) {
        Ok(jobs) => Ok(MadeTexts {
            conf,
            bindings,
            jobs,
        }),
        Err(_) => Err(AllocError),
    }
}

//! The configuration and the jobs of a large input that the program makes itself.

ghost use Rattle.std.specs.Prelude.{◌≡◌, ◌≤◌, ◌++◌, ◌*◌, ◌+◌, ◌%◌, IfOk, OnOk};
ghost use Rattle.batch_jobs.specs.Limits.{made_jobs};
ghost use Rattle.batch_jobs.specs.Generated.{all_bindings, all_modules, binding_line, bindings_text, job_line, jobs_text, module_lines, modules_text};

use crate::limits::{MADE_CHARMAPS, MADE_JOBS};
use std::alloc::{AllocError, Global};

/// Appends the two module lines of a set.
fn add_set(alloc: Global, text: &mut Vec<u8>, set: u32) -> Result<(), AllocError>
    ensures { OnOk result (text.new.items ≡ text.old.items ++ module_lines set) }
{
    let lines = format!(in alloc;
        "module GEN-{set}// INTERNAL GEN{set} 1\nmodule INTERNAL GEN-{set}// GEN{set} 1\n"
    )?;
    text.extend_from_slice(lines.as_bytes())
}

/// Appends the module lines of all sets.
fn add_modules(alloc: Global, text: &mut Vec<u8>) -> Result<(), AllocError>
    ensures { OnOk result (text.new.items ≡ text.old.items ++ all_modules) }
{
    'sets: for set in 0..MADE_CHARMAPS {
        add_set(alloc, text, set)?;
    }
    Ok(())
}

/// The module lines: two of each set, and a recoding between the first two sets.
pub(crate) fn modules_text(alloc: Global) -> Result<Vec<u8>, AllocError>
    ensures { IfOk result (λ text. text.items ≡ modules_text) }
{
    let mut text = Vec::new(alloc);
    add_modules(alloc, &mut text)?;
    text.extend_from_slice(b"module GEN-0// GEN-1// GENR 1\n")?;
    Ok(text)
}

/// Appends the binding of a set.
fn add_binding(alloc: Global, text: &mut Vec<u8>, set: u32) -> Result<(), AllocError>
    ensures { OnOk result (text.new.items ≡ text.old.items ++ binding_line set) }
{
    let line = format!(in alloc; "GEN{set} table G{set}\n")?;
    text.extend_from_slice(line.as_bytes())
}

/// Appends the bindings of all sets.
fn add_bindings(alloc: Global, text: &mut Vec<u8>) -> Result<(), AllocError>
    ensures { OnOk result (text.new.items ≡ text.old.items ++ all_bindings) }
{
    'sets: for set in 0..MADE_CHARMAPS {
        add_binding(alloc, text, set)?;
    }
    Ok(())
}

/// The bindings: a table of each set, and the recoding.
pub(crate) fn bindings_text(alloc: Global) -> Result<Vec<u8>, AllocError>
    ensures { IfOk result (λ text. text.items ≡ bindings_text) }
{
    let mut text = Vec::new(alloc);
    add_bindings(alloc, &mut text)?;
    text.extend_from_slice(b"GENR recode G0 G1\n")?;
    Ok(text)
}

/// Appends a job between two sets.
fn add_job(alloc: Global, text: &mut Vec<u8>, job: u32) -> Result<(), AllocError>
    requires { job ≤ made_jobs }
    ensures { OnOk result (text.new.items ≡ text.old.items ++ job_line job) }
{
    let from = job % MADE_CHARMAPS;
    let to = (3 * job + 1) % MADE_CHARMAPS;
    let line = format!(in alloc; "GEN-{from} GEN-{to} in-{job} out-{job}\n")?;
    text.extend_from_slice(line.as_bytes())
}

/// The jobs.
#[tactic(auto, unfolding(crate::specs::Generated::jobs_text))]
pub(crate) fn jobs_text(alloc: Global) -> Result<Vec<u8>, AllocError>
    ensures { IfOk result (λ text. text.items ≡ jobs_text) }
{
    let mut text = Vec::new(alloc);
    'jobs: for job in 1..MADE_JOBS + 1 {
        add_job(alloc, &mut text, job)?;
    }
    Ok(text)
}

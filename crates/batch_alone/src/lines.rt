//! The single lines that stand in place of a report.

ghost use Rattle.std.specs.Prelude.{◌≡◌, IfOk, string_bytes};
ghost use Rattle.batch_runs.specs.Lines.{at_line, bind_reason, conf_reason, fault_line, job_reason, reason, refused_line, which_text};

use batch_jobs::JobFault;
use batch_runs::{InputKind, Which};
use modules_conf::{BindFault, ConfFault};
use std::alloc::{AllocError, Global};

/// The name of a text.
fn which_text(which: Which) -> &'static str
    ensures { result.now ≡ which_text which }
{
    match which {
        Which::Modules => "modules",
        Which::Bindings => "bindings",
        Which::Jobs => "jobs",
    }
}

/// What is wrong at a line.
fn at_line(alloc: Global, line: u32, reason: &str) -> Result<String, AllocError>
    ensures { IfOk result (λ text. string_bytes text ≡ at_line line reason.now) }
{
    format!(in alloc; "line {line}: {reason}")
}

/// Why a gconv-modules text is refused.
fn conf_reason(alloc: Global, fault: ConfFault) -> Result<String, AllocError>
    ensures { IfOk result (λ text. string_bytes text ≡ conf_reason fault) }
{
    match fault {
        ConfFault::TooManyLines { line } => at_line(alloc, line, "too many lines"),
        ConfFault::Memory => Ok(String::new(alloc)),
    }
}

/// Why a bindings text is refused.
fn bind_reason(alloc: Global, fault: BindFault) -> Result<String, AllocError>
    ensures { IfOk result (λ text. string_bytes text ≡ bind_reason fault) }
{
    match fault {
        BindFault::BadKind { line } => at_line(alloc, line, "bad kind"),
        BindFault::WordCount { line } => at_line(alloc, line, "word count"),
        BindFault::Twice { line } => at_line(alloc, line, "twice"),
        BindFault::BadWord { line } => at_line(alloc, line, "bad word"),
        BindFault::TooMany { line } => at_line(alloc, line, "too many bindings"),
        BindFault::Memory => Ok(String::new(alloc)),
    }
}

/// Why a text of jobs is refused.
fn job_reason(alloc: Global, fault: JobFault) -> Result<String, AllocError>
    ensures { IfOk result (λ text. string_bytes text ≡ job_reason fault) }
{
    match fault {
        JobFault::WordCount { line } => at_line(alloc, line, "word count"),
        JobFault::TooMany { line } => at_line(alloc, line, "too many jobs"),
        JobFault::NotText { line } => at_line(alloc, line, "not text"),
        JobFault::Memory => Ok(String::new(alloc)),
    }
}

/// Why a text is refused.
fn reason(alloc: Global, kind: InputKind) -> Result<String, AllocError>
    ensures { IfOk result (λ text. string_bytes text ≡ reason kind) }
{
    match kind {
        InputKind::Absent => String::from_str(alloc, "absent"),
        InputKind::TooLarge => String::from_str(alloc, "too large"),
        InputKind::Conf(fault) => conf_reason(alloc, fault),
        InputKind::Bind(fault) => bind_reason(alloc, fault),
        InputKind::Job(fault) => job_reason(alloc, fault),
    }
}

/// What is written where a text is refused.
pub fn refused_line(alloc: Global, which: Which, kind: InputKind) -> Result<String, AllocError>
    ensures { IfOk result (λ text. string_bytes text ≡ refused_line which kind) }
{
    let reason = reason(alloc, kind)?;
    let name = which_text(which);
    format!(in alloc; "refused: {name}: {reason}\n")
}

/// What is written where a text couldn't be taken.
pub fn fault_line(alloc: Global, which: Which) -> Result<String, AllocError>
    ensures { IfOk result (λ text. string_bytes text ≡ fault_line which) }
{
    let name = which_text(which);
    format!(in alloc; "read fault: {name}\n")
}

//! The texts that a run reads before its jobs.

ghost use Rattle.std.specs.Prelude.{◌≡◌, ◌≤◌, ◌+◌, ◌∷◌, [], List, ℕ, Ok, All, IfOk, IfErr, OnOk, length, map, MatchResult};
ghost use Rattle.outside.specs.Faults.{RoseBy};
ghost use Rattle.modules_conf.specs.Modules.{conf_of};
ghost use Rattle.modules_conf.specs.Bindings.{bindings_of};
ghost use Rattle.modules_conf.specs.Limits.{AreSound, IsWithinLimits};
ghost use Rattle.batch_jobs.specs.Limits.{most_jobs};
ghost use Rattle.batch_jobs.specs.Jobs.{jobs_of, line_of, HasShortNames};
ghost use Rattle.batch_runs.specs.Takings.{Got, TakesOne, one_input};
ghost use Rattle.batch_runs.specs.Preparing.{Accepts};
ghost use Rattle.batch_alone.specs.Readings.{HaltsRead, IsReady, bind_halt, conf_halt, halt_fault, job_halt};

use crate::halt::Halt;
use batch_jobs::{Job, JobFault, read_jobs};
use batch_runs::{InputKind, Stop, Which};
use modules_conf::{BindFault, Bindings, Conf, ConfFault, read_bindings, read_modules};
use outside::{Files, Taken};
use std::alloc::Global;
use text_lines::LONGEST_TEXT;

/// What the texts of a run stand for.
#[derive(Drop)]
pub struct Ready {
    pub conf: Conf,
    pub bindings: Bindings,
    pub jobs: Vec<Job>,
}

/// A text is refused.
fn refused(which: Which, fault: InputKind) -> Halt
    ensures { result ≡ Halt.Stopped (Stop.Refused which fault) }
{
    Halt::Stopped(Stop::Refused { which, fault })
}

/// Why reading stopped at a gconv-modules text.
fn conf_halt(fault: ConfFault) -> Halt
    ensures { result ≡ conf_halt fault }
{
    match fault {
        ConfFault::Memory => Halt::Memory,
        _ => refused(Which::Modules, InputKind::Conf(fault)),
    }
}

/// Why reading stopped at a bindings text.
fn bind_halt(fault: BindFault) -> Halt
    ensures { result ≡ bind_halt fault }
{
    match fault {
        BindFault::Memory => Halt::Memory,
        _ => refused(Which::Bindings, InputKind::Bind(fault)),
    }
}

/// Why reading stopped at a text of jobs.
fn job_halt(fault: JobFault) -> Halt
    ensures { result ≡ job_halt fault }
{
    match fault {
        JobFault::Memory => Halt::Memory,
        _ => refused(Which::Jobs, InputKind::Job(fault)),
    }
}

/// Takes a text.
fn take_text<F: Files>(
    alloc: Global,
    files: &mut F,
    which: Which,
    name: &str,
) -> Result<Vec<u8>, Halt>
    ensures taken { MatchResult result
        (λ v. TakesOne (F.outside files.old).told one_input name.now (Got v.items))
        (λ h. HaltsRead (F.outside files.old).told (record { which = which; name = name.now } ∷ []) h) }
    ensures told { (F.outside files.new).told ≡ (F.outside files.old).told }
    ensures puts { (F.outside files.new).puts ≡ (F.outside files.old).puts }
    ensures count { (F.outside files.old).takes ≤ (F.outside files.new).takes }
    ensures failed { IfErr result (λ h. RoseBy (halt_fault h) (F.outside files.old).takes (F.outside files.new).takes) }
{
    match files.take(alloc, name, LONGEST_TEXT) {
        Taken::Bytes(bytes) => Ok(bytes),
        Taken::Absent => Err(refused(which, InputKind::Absent)),
        Taken::TooLarge => Err(refused(which, InputKind::TooLarge)),
        Taken::Failed => Err(Halt::Stopped(Stop::Faulted { which })),
        Taken::Memory => Err(Halt::Memory),
    }
}

/// Reads the modules text.
fn take_modules<F: Files>(alloc: Global, files: &mut F, name: &str) -> Result<Conf, Halt>
    ensures limits { IfOk result (λ conf. IsWithinLimits conf.edges) }
    ensures read { MatchResult result
        (λ conf. (x : List ℕ) × Accepts (F.outside files.old).told (record { which = Which.Modules; name = name.now }) x × (conf_of x ≡ Ok conf))
        (λ h. HaltsRead (F.outside files.old).told (record { which = Which.Modules; name = name.now } ∷ []) h) }
    ensures told { (F.outside files.new).told ≡ (F.outside files.old).told }
    ensures puts { (F.outside files.new).puts ≡ (F.outside files.old).puts }
    ensures count { (F.outside files.old).takes ≤ (F.outside files.new).takes }
    ensures failed { IfErr result (λ h. RoseBy (halt_fault h) (F.outside files.old).takes (F.outside files.new).takes) }
{
    let text = match take_text(alloc, files, Which::Modules, name) {
        Ok(text) => text,
        Err(halt) => return Err(halt),
    };
    match read_modules(alloc, text.as_slice()) {
        Ok(conf) => Ok(conf),
        Err(fault) => Err(conf_halt(fault)),
    }
}

/// Reads the bindings text.
fn take_bindings<F: Files>(alloc: Global, files: &mut F, name: &str) -> Result<Bindings, Halt>
    ensures sound { IfOk result AreSound }
    ensures read { MatchResult result
        (λ bindings. (x : List ℕ) × Accepts (F.outside files.old).told (record { which = Which.Bindings; name = name.now }) x × (bindings_of x ≡ Ok bindings))
        (λ h. HaltsRead (F.outside files.old).told (record { which = Which.Bindings; name = name.now } ∷ []) h) }
    ensures told { (F.outside files.new).told ≡ (F.outside files.old).told }
    ensures puts { (F.outside files.new).puts ≡ (F.outside files.old).puts }
    ensures count { (F.outside files.old).takes ≤ (F.outside files.new).takes }
    ensures failed { IfErr result (λ h. RoseBy (halt_fault h) (F.outside files.old).takes (F.outside files.new).takes) }
{
    let text = match take_text(alloc, files, Which::Bindings, name) {
        Ok(text) => text,
        Err(halt) => return Err(halt),
    };
    match read_bindings(alloc, text.as_slice()) {
        Ok(bindings) => Ok(bindings),
        Err(fault) => Err(bind_halt(fault)),
    }
}

/// Reads the text of jobs.
fn take_jobs<F: Files>(alloc: Global, files: &mut F, name: &str) -> Result<Vec<Job>, Halt>
    ensures read { MatchResult result
        (λ jobs. (x : List ℕ) × Accepts (F.outside files.old).told (record { which = Which.Jobs; name = name.now }) x × (jobs_of x ≡ Ok (map line_of jobs.items)))
        (λ h. HaltsRead (F.outside files.old).told (record { which = Which.Jobs; name = name.now } ∷ []) h) }
    ensures few { IfOk result (λ jobs. length jobs.items ≤ most_jobs) }
    ensures names { IfOk result (λ jobs. All HasShortNames jobs.items) }
    ensures told { (F.outside files.new).told ≡ (F.outside files.old).told }
    ensures puts { (F.outside files.new).puts ≡ (F.outside files.old).puts }
    ensures count { (F.outside files.old).takes ≤ (F.outside files.new).takes }
    ensures failed { IfErr result (λ h. RoseBy (halt_fault h) (F.outside files.old).takes (F.outside files.new).takes) }
{
    let text = match take_text(alloc, files, Which::Jobs, name) {
        Ok(text) => text,
        Err(halt) => return Err(halt),
    };
    match read_jobs(alloc, text.as_slice()) {
        Ok(jobs) => Ok(jobs),
        Err(fault) => Err(job_halt(fault)),
    }
}

/// Reads the three texts of a run, each before the next is taken.
pub fn prepare<F: Files>(
    alloc: Global,
    files: &mut F,
    modules: &str,
    bindings: &str,
    jobs: &str,
) -> Result<Ready, Halt>
    ensures read { MatchResult result
        (λ r. IsReady (F.outside files.old).told modules.now bindings.now jobs.now r)
        (λ h. HaltsRead (F.outside files.old).told (record { which = Which.Modules; name = modules.now }
        ∷ record { which = Which.Bindings; name = bindings.now } ∷ record { which = Which.Jobs; name = jobs.now } ∷ []) h) }
    ensures limits { IfOk result (λ r. IsWithinLimits r.conf.edges) }
    ensures sound { IfOk result (λ r. AreSound r.bindings) }
    ensures few { IfOk result (λ r. length r.jobs.items ≤ most_jobs) }
    ensures names { IfOk result (λ r. All HasShortNames r.jobs.items) }
    ensures told { (F.outside files.new).told ≡ (F.outside files.old).told }
    ensures puts { (F.outside files.new).puts ≡ (F.outside files.old).puts }
    ensures count { (F.outside files.old).takes ≤ (F.outside files.new).takes }
    ensures failed { IfErr result (λ h. RoseBy (halt_fault h) (F.outside files.old).takes (F.outside files.new).takes) }
{
    let conf = match take_modules(alloc, files, modules) {
        Ok(conf) => conf,
        Err(halt) => return Err(halt),
    };
    let bindings = match take_bindings(alloc, files, bindings) {
        Ok(bindings) => bindings,
        Err(halt) => return Err(halt),
    };
    match take_jobs(alloc, files, jobs) {
        Ok(jobs) => Ok(Ready {
            conf,
            bindings,
            jobs,
        }),
        Err(halt) => Err(halt),
    }
}

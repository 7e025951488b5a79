//! The work of one job whose input was taken, by a caller.

ghost use Rattle.std.specs.Prelude.{◌≡◌, ◌≤◌, ◌<◌, ◌+◌, ◌*◌, length, IfOk, IfErr, OnOk, MatchResult};
ghost use Rattle.text_lines.specs.Limits.{longest_text};
ghost use Rattle.chain_steps.specs.Chains.{initial};
ghost use Rattle.step_buffers.specs.Limits.{longest_stream};
ghost use Rattle.conversion_book.specs.Calls.{ConvertsWhole};
ghost use Rattle.gconv_runtime.specs.Openings.{asked, Opens, Refuses};
ghost use Rattle.gconv_runtime.specs.Owning.{Owns, tables_of};
ghost use Rattle.gconv_runtime.specs.Tokens.{Knows, front, number};
ghost use Rattle.batch_jobs.specs.Jobs.{HasShortNames, line_of};
ghost use Rattle.batch_runs.specs.Meanings.{is_entered};
ghost use Rattle.batch_runs.specs.Takings.{Got};
ghost use Rattle.batch_alone.specs.Readings.{length_made, work_of};
ghost use Rattle.batch_workers.specs.Parts.{IsCutOff, Serves};
ghost use Rattle.batch_gconv.specs.Callers.{IsIdle, base_of, part_of};

use crate::whole::convert_whole;
use batch_alone::Worked;
use batch_jobs::Job;
use batch_workers::{Gate, Point};
use gconv_runtime::{Caller, Descriptor, Gconv, Held};
use outside::Library;
use runtime_histories::Refusal;
use std::alloc::{AllocError, Global};
use std::marker::Brand;
use std::sync::Wait;
use std::sync::ledger::{Blank, Ledger};
use step_buffers::{Buffers, Finish};
use work_steps::Steps;

/// Opens the pair of a job, with a counter of steps of its own.
fn opened<L: Library, R: Wait, K: Ledger>(
    ledger: Blank,
    rt: &R,
    alloc: Global,
    gconv: &Gconv<L>,
    caller: &mut Caller<L>,
    job: &Job,
) -> Result<Descriptor, Refusal>
    requires name { ledger.name ≡ K.name }
    requires parts { ledger.parts ≡ K.parts }
    requires some { 0 < ledger.parts }
    requires names { HasShortNames job.now }
    requires knows { Knows gconv.now caller.old }
    ensures knows { Knows gconv.now caller.new }
    ensures number { number caller.new ≡ number caller.old }
    ensures ok { IfOk result (Opens gconv.now caller.old caller.new
        (asked gconv.now caller.old (line_of job.now).from)
        (asked gconv.now caller.old (line_of job.now).to)) }
    ensures owns { IfOk result (Owns gconv.now caller.new) }
    ensures err { IfErr result (Refuses gconv.now caller.old caller.new
        (asked gconv.now caller.old (line_of job.now).from)
        (asked gconv.now caller.old (line_of job.now).to)) }
{
    let mut steps: Steps<K> = Steps::new(ledger);
    gconv.open_pair(
        rt,
        alloc,
        caller,
        job.from.as_slice(),
        job.to.as_slice(),
        &mut steps,
    )
}

/// Converts a whole input by a descriptor whose conversion hasn't begun.
fn converted<L: Library>(
    alloc: Global,
    gconv: &Gconv<L>,
    caller: &mut Caller<L>,
    descriptor: &mut Descriptor,
    buffers: Buffers,
    input: &[u8],
) -> Result<(Buffers, Finish), AllocError>
    requires knows { Knows gconv.now caller.old }
    requires owns { Owns gconv.now caller.old descriptor.old }
    requires fresh { descriptor.old.runner.states ≡ initial }
    requires short { length input.now ≤ longest_stream }
    ensures ok { IfOk result (λ r. ConvertsWhole input.now r.0.output.items r.1
        (tables_of gconv.now caller.old descriptor.old) descriptor.old.runner
        descriptor.new.runner) }
    ensures knows { Knows gconv.now caller.new }
    ensures owns { Owns gconv.now caller.new descriptor.new }
    ensures same { (number caller.new ≡ number caller.old) × (front caller.new ≡ front caller.old)
        × (descriptor.new.number ≡ descriptor.old.number) }
{
    let mut held = Held {
        gconv,
        caller,
        descriptor,
    };
    convert_whole(alloc, &mut held, buffers, input)
}

/// Whether a refusal leaves an entry.
fn is_entered(why: &Refusal) -> bool
    ensures { result ≡ is_entered why.now }
{
    match why {
        Refusal::JournalFull { .. } => false,
        Refusal::Memory => false,
        _ => true,
    }
}

/// Opens the pair of a job, converts the whole input, and closes the pair. A full journal is as want of
/// memory.
pub fn work_on<L: Library, R: Wait, G: Gate>(
    rt: &R,
    alloc: Global,
    gate: &G,
    gconv: &Gconv<L>,
    caller: &mut Caller<L>,
    number: u32,
    job: &Job,
    input: &[u8],
    buffers: Buffers,
) -> Result<(Worked, Buffers), AllocError>
    requires idle { IsIdle gconv.now caller.old }
    requires names { HasShortNames job.now }
    requires short { length input.now ≤ longest_text }
    ensures idle { IsIdle gconv.now caller.new }
    ensures done { MatchResult result
        (λ r. Serves (base_of L.holdings gconv.now).setting (part_of caller.old)
        (part_of caller.new) (line_of job.now) (Got input.now)
        (work_of r.0 r.1.output.items))
        (λ _. IsCutOff (base_of L.holdings gconv.now).setting (part_of caller.old)
        (part_of caller.new) (line_of job.now)) }
    ensures room { IfOk result (λ r. length_made (work_of r.0 r.1.output.items)
        ≤ 8 * length input.now + 8) }
{
    match opened::<L, R, Brand>(Blank::new(1), rt, alloc, gconv, caller, job) {
        Ok(mut descriptor) => {
            gate.pass(number, Point::Opened);
            let made = converted(alloc, gconv, caller, &mut descriptor, buffers, input);
            gconv.close_desc(rt, caller, descriptor);
            match made {
                Ok((buffers, finish)) => Ok((Worked::Converted(finish), buffers)),
                Err(_) => Err(AllocError),
            }
        }
        Err(why) => {
            if is_entered(&why) {
                Ok((Worked::Denied(why), buffers))
            } else {
                Err(AllocError)
            }
        }
    }
}

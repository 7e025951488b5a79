//! How fast a text is converted.

ghost use Rattle.std.specs.Prelude.{◌≡◌};
ghost use Rattle.chain_steps.specs.Sets.{IsInRange};

use crate::direction::Direction;
use crate::pieces::{Counts, convert_once};
use crate::timing::micros_since;
use anyhow::Result;
use chain_steps::{Set, Verdict};
use code_table::Lookup;
use std::io;
use std::time::CpuClock;

const SCRATCH: usize = 131072;

/// What a run gave, and the microseconds that it took.
#[derive(Clone, Copy)]
struct Run {
    counts: Counts,
    micros: u128,
}

/// Converts a text once.
fn run_once<T: Lookup>(
    rt: &HostRuntime,
    tables: &mut T,
    set: Set,
    direction: Direction,
    input: &[u8],
    scratch: &mut [u8],
) -> io::Result<Run>
    requires ready { T.ready tables.old }
    requires range { IsInRange (T.tables tables.old) set }
    ensures same { T.tables tables.new ≡ T.tables tables.old }
    ensures ready { T.ready tables.new }
{
    let start = rt.process_cpu_time()?;
    let counts = convert_once(rt.alloc(), tables, set, direction, input, scratch);
    let micros = micros_since(rt, start)?;
    Ok(Run { counts, micros })
}

/// The fastest of so many runs.
fn best_run<T: Lookup>(
    rt: &HostRuntime,
    tables: &mut T,
    set: Set,
    direction: Direction,
    input: &[u8],
    scratch: &mut [u8],
    times: u32,
) -> io::Result<Run>
    requires ready { T.ready tables.old }
    requires range { IsInRange (T.tables tables.old) set }
{
    let mut best = Run {
        counts: Counts {
            consumed: 0,
            produced: 0,
            verdict: Verdict::Done,
        },
        micros: u128::MAX,
    };
    for _ in 0..times {
        let run = run_once(rt, tables, set, direction, input, scratch)?;
        if run.micros < best.micros {
            best = run;
        }
    }
    Ok(best)
}

/// Converts a text so many times, and writes what the fastest run gave.
pub fn measure<T: Lookup>(
    rt: &HostRuntime,
    tables: &mut T,
    set: Set,
    direction: Direction,
    input: &[u8],
    times: u32,
) -> Result<()>
    requires ready { T.ready tables.old }
    requires range { IsInRange (T.tables tables.old) set }
{
    let mut scratch = vec![in rt.alloc(); 0; SCRATCH]?;
    let best = best_run(
        rt,
        tables,
        set,
        direction,
        input,
        scratch.as_mut_slice(),
        times,
    )?;
    let Counts {
        consumed,
        produced,
        verdict,
    } = best.counts;
    println!(rt; "in {consumed} out {produced} {verdict:?}")?;
    println!(rt; "{} MB/s", consumed as u128 / best.micros.max(1))?;
    Ok(())
}

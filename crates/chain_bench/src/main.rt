//! Converts a file in memory again and again, so that a script can measure it.
//!
//! The words are FROM, TO, FILE and N. Written is how many bytes each conversion consumed and
//! produced, and why it stopped.
#![tactic(auto)]

mod pieces;
mod sets;

ghost use Rattle.std.specs.Prelude.{◌≡◌, ◌≤◌, length};

use crate::pieces::{Counts, convert_pieces};
use crate::sets::set_named;
use chain_steps::{Joints, Recipe, Runner, Set};
use code_table::Owned;
use std::alloc::Global;
use std::process::ExitCode;
use std::{env, fs, io};
use step_unicode::Uni;

const SCRATCH: usize = 131072;

/// Converts all of the input once, from the initial states.
fn convert_once(alloc: Global, reader: Uni, writer: Uni, input: &[u8], scratch: &mut [u8]) -> Counts
    ensures { result.consumed ≤ length input.now }
{
    let mut none = Owned {
        tables: Vec::new(alloc),
    };
    let mut runner = Runner::new(Recipe {
        reader: Set::Unicode(reader),
        joints: Joints::none(alloc),
        writer: Set::Unicode(writer),
    });
    convert_pieces(&mut runner, &mut none, input, scratch)
}

/// Converts the file `times` times, and writes what each conversion gave.
fn measure(rt: &HostRuntime, reader: Uni, writer: Uni, file: &str, times: u32) -> io::Result<()> {
    let alloc = rt.alloc();
    let input = fs::read(rt, file)?;
    let mut scratch = vec![in alloc; 0; SCRATCH]?;
    for _ in 0..times {
        let counts = convert_once(
            alloc,
            reader,
            writer,
            input.as_slice(),
            scratch.as_mut_slice(),
        );
        println!(rt;
            "consumed {} produced {} {:?}",
            counts.consumed, counts.produced, counts.verdict
        )?;
    }
    Ok(())
}

fn main(rt: HostRuntime) -> ExitCode {
    let Ok(mut words) = env::args(&rt) else {
        return ExitCode::from(2);
    };
    let (Some(_), Some(from), Some(to), Some(file), Some(times)) = (
        words.next(),
        words.next(),
        words.next(),
        words.next(),
        words.next(),
    ) else {
        return ExitCode::from(2);
    };
    let (Some(reader), Some(writer), Ok(times)) = (
        set_named(from.as_str()),
        set_named(to.as_str()),
        times.as_str().parse::<u32>(),
    ) else {
        return ExitCode::from(2);
    };
    match measure(&rt, reader, writer, file.as_str(), times) {
        Ok(()) => ExitCode::from(0),
        Err(_) => ExitCode::from(1),
    }
}

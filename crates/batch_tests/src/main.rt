//! Worked examples of whole runs, over files, charmaps and an output in memory: the lines of the standard
//! input are done one after another, and what runs leave is written.
//!
//! ```text
//! # TEXT                     written as it is
//! forget                     no files, and no call that is to fail
//! line NAME WORD..           appends a line to a file; a charmap is a file too
//! lines N NAME WORD..        appends it N times
//! bytes NAME HEX             appends bytes; no bytes are written as -
//! size NAME N                appends letters, so that the file has N bytes
//! fail files|charmaps|output N       the Nth call of these is to fail
//! hold JOB POINT until JOB POINT     in the next run, who comes to a point (taken, opened or ended) with a
//!                            job is held until somebody came to the other one
//! journal whole|letters|count        how journals are written: as they are, with letters for two callers,
//!                            or as the number of entries
//! run WORD..                 runs the program's words: the status and its cause, what was written, the
//!                            entries of the journal, and the charmaps that were asked for
//! show NAME   text NAME      what the files of the last run hold under a name, as bytes or as lines
//! ```
#![tactic(auto)]

mod hex;
mod holds;
mod journals;
mod ran;
mod setup;
mod shown;

use anyhow::{Context, Result};
use outside::ShelfFiles;
use ran::ran;
use setup::Setup;
use shown::shown;
use std::sync::Wait;
use std::thread::Threads;

/// What a script has come to: what the next run is made of, and the files that the last one left.
#[derive(Drop)]
struct State {
    pub setup: Setup,
    pub files: Option<ShelfFiles>,
}

/// Does a line, and writes it with what comes of it.
fn step<R: AllocGlobal + Threads + Wait + Sync>(
    rt: &HostRuntime,
    threads: &R,
    state: &mut State,
    line: &str,
) -> Result<()> {
    let alloc = rt.alloc();
    let words: Vec<&str> = line.split_whitespace().collect(alloc)?;
    if words.is_empty() || line.starts_with('#') {
        println!(rt; "{line}")?;
        return Ok(());
    }
    if state
        .setup
        .takes(alloc, words.as_slice())
        .context(format_args!("{line}"))?
    {
        return Ok(());
    }
    if words[0] == "run" {
        let left = ran(threads, &mut state.setup, &words[1..])?;
        state.files = Some(left.files);
        println!(rt; "{line}{}", left.text)?;
        return Ok(());
    }
    let files = state.files.as_ref().context("nothing was run")?;
    let text = shown(alloc, files, words.as_slice()).context(format_args!("{line}"))?;
    println!(rt; "{line}{text}")?;
    Ok(())
}

fn main(rt: HostRuntime) -> Result<()> {
    let mut state = State {
        setup: Setup::new(rt.alloc()),
        files: None,
    };
    for line in rt.lines(rt.alloc()) {
        step(&rt, &rt, &mut state, line?.as_str())?;
    }
    Ok(())
}

//! Runs, and what they leave.

use crate::holds::Holds;
use crate::journals::add_journal;
use crate::setup::Setup;
use crate::shown::add_lines;
use anyhow::Result;
use batch_alone::Ended;
use batch_whole::run;
use outside::{Files, Library, ShelfFiles, ShelfLibrary, Sink};
use std::alloc::{AllocError, Global};
use std::mem;
use std::sync::Wait;
use std::thread::Threads;

/// An output of more lines isn't written.
const MOST_LINES: usize = 32;

/// The files that a run left, and what it tells.
#[derive(Drop)]
pub struct Left {
    pub files: ShelfFiles,
    pub text: String,
}

/// Runs words. Nothing is said of it here: it is a run like any other.
fn run_words<R: AllocGlobal + Threads + Wait + Sync, F: Files, L: Library + Send, O: Sink>(
    rt: &R,
    words: &[String],
    files: &mut F,
    library: L,
    gate: &Holds,
    out: &mut O,
) -> Ended<L> {
    run(rt, words, files, library, gate, out)
}

/// The words as texts of their own.
fn owned(alloc: Global, words: &[&str]) -> Result<Vec<String>, AllocError> {
    let mut all = Vec::new(alloc);
    for word in words {
        all.push(String::from_str(alloc, word)?)?;
    }
    Ok(all)
}

/// Appends the paths that a library was asked for.
fn add_reads(text: &mut String, library: &ShelfLibrary) -> Result<(), AllocError> {
    text.push_str("\n    asked for")?;
    for path in library.reads() {
        let path = path.as_str();
        write!(text, " {path}")?;
    }
    Ok(())
}

/// Appends what was written, or how many lines it has and the last one where they are many.
fn add_written(text: &mut String, bytes: &[u8]) -> Result<(), AllocError> {
    let lines = str::from_utf8(bytes).unwrap_or("no text").lines();
    let count = lines.count();
    if count <= MOST_LINES {
        text.push_str("\n    written")?;
        return add_lines(text, bytes);
    }
    write!(text, "\n    written {count} lines")?;
    let lines = str::from_utf8(bytes).unwrap_or("no text").lines();
    for line in lines.skip(count - 1) {
        write!(text, "\n        {line}")?;
    }
    Ok(())
}

/// Runs words, and tells what came of it.
pub fn ran<R: AllocGlobal + Threads + Wait + Sync>(
    rt: &R,
    setup: &mut Setup,
    words: &[&str],
) -> Result<Left> {
    let alloc = rt.alloc();
    let words = owned(alloc, words)?;
    let mut files = setup.files(alloc)?;
    let mut out = setup.output(alloc)?;
    let library = setup.library(alloc)?;
    let gate = mem::replace(&mut setup.gate, Holds::new(alloc));
    let Ended {
        status,
        cause,
        library,
        journal,
    } = run_words(rt, words.as_slice(), &mut files, library, &gate, &mut out);
    let mut text = format!(in alloc; "\n    status {status} {cause:?}")?;
    add_written(&mut text, out.written())?;
    add_journal(alloc, &mut text, setup.form, journal.as_slice())?;
    add_reads(&mut text, &library)?;
    if gate.was_in_vain() {
        text.push_str("\n    somebody was held in vain")?;
    }
    Ok(Left { files, text })
}

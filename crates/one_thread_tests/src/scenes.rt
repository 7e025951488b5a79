//! Scenes of a script.

use crate::calls::answer;
use crate::desk::{Desk, desk_of};
use crate::words::{add_number, number, words_of};
use conversion_book::Closed;
use outside::ShelfLibrary;
use std::alloc::{AllocError, Global};

/// Takes the lines of what a runtime is made of, and writes those that only say what is to come.
fn prepare(setup: &mut String, head: &str, text: &mut String) -> Result<(), AllocError> {
    for line in head.lines() {
        if line == "forget" {
            setup.clear();
        } else {
            let told = line.is_empty() || line.starts_with('#');
            add_line(if told { text } else { setup }, line)?;
        }
    }
    Ok(())
}

/// Appends a line.
fn add_line(text: &mut String, line: &str) -> Result<(), AllocError> {
    text.push_str(line)?;
    text.push_str("\n")
}

/// Does the lines of a runtime, and writes each with its answer.
fn do_lines(
    alloc: Global,
    desk: &mut Desk,
    lines: &str,
    text: &mut String,
) -> Result<(), AllocError> {
    for line in lines.lines() {
        text.push_str(line)?;
        text.push_str(": ")?;
        answer(alloc, desk, &words_of(line), text)?;
        text.push_str("\n")?;
    }
    Ok(())
}

/// Writes what is left of a runtime: how many entries there are, and the paths that its library was asked for.
fn add_end(text: &mut String, left: &Closed<ShelfLibrary>) -> Result<(), AllocError> {
    text.push_str("done: ")?;
    add_number(text, left.journal.len() as u64)?;
    text.push_str(" entries, asked for")?;
    for path in left.library.reads() {
        text.push_str(" ")?;
        text.push_str(path.as_str())?;
    }
    text.push_str("\n")
}

/// Ends a runtime.
fn end(desk: Desk, text: &mut String) -> Result<(), AllocError> {
    let Desk { book, modules: _ } = desk;
    add_end(text, &book.done())
}

/// Does the lines of a runtime, and ends it.
fn run(alloc: Global, desk: Desk, lines: &str, text: &mut String) -> Result<(), AllocError> {
    let mut desk = desk;
    let done = do_lines(alloc, &mut desk, lines, text);
    let ended = end(desk, text);
    match done {
        Ok(()) => ended,
        Err(fault) => Err(fault),
    }
}

/// Does the lines behind the word of a runtime: its sizes, and those of its calls.
fn begin(alloc: Global, setup: &str, lines: &str, text: &mut String) -> Result<(), AllocError> {
    let Some((sizes, lines)) = lines.split_once('\n') else {
        return Ok(());
    };
    let Some((pages, limit)) = sizes.split_once(' ') else {
        return Ok(());
    };
    text.push_str("book ")?;
    text.push_str(sizes)?;
    text.push_str(": begun\n")?;
    match desk_of(alloc, setup, number(pages), number(limit)) {
        Ok(desk) => run(alloc, desk, lines, text),
        Err(fault) => Err(fault),
    }
}

/// Does a scene.
fn act(
    alloc: Global,
    setup: &mut String,
    scene: &str,
    text: &mut String,
) -> Result<(), AllocError> {
    match scene.split_once("book ") {
        Some((head, lines)) => {
            prepare(setup, head, text)?;
            begin(alloc, setup.as_str(), lines, text)
        }
        None => Ok(()),
    }
}

/// Does all scenes of a script, and writes what they answer.
pub fn play(alloc: Global, script: &str, text: &mut String) -> Result<(), AllocError> {
    let mut setup = String::new(alloc);
    for scene in script.split("done\n") {
        act(alloc, &mut setup, scene, text)?;
    }
    Ok(())
}

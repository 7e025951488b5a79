//! The lines of a journal.

use crate::shown::add_lines;
use anyhow::Result;
use batch_jobs::journal_text;
use runtime_histories::Entry;
use std::alloc::{AllocError, Global};

/// A journal of more entries isn't written.
const MOST_ENTRIES: usize = 16;

/// How a journal is written.
#[derive(Clone, Copy, Drop)]
pub enum Form {
    /// As it is.
    Whole,
    /// With letters for its two callers, the one of the first entry being A.
    Letters,
    /// As the number of its entries.
    Count,
}

/// The caller of a journal's first line; empty where there is none.
fn first_caller(journal: &str) -> &str {
    let Some((_, rest)) = journal.split_once(' ') else {
        return "";
    };
    match rest.split_once(' ') {
        Some((caller, _)) => caller,
        None => "",
    }
}

/// Appends a line with a letter for its caller.
fn add_lettered(text: &mut String, first: &str, line: &str) -> Result<(), AllocError> {
    let Some((position, rest)) = line.split_once(' ') else {
        return Ok(());
    };
    let Some((caller, event)) = rest.split_once(' ') else {
        return Ok(());
    };
    let letter = if caller == first { "A" } else { "B" };
    write!(text, "\n        {position} {letter} {event}")
}

/// Appends the lines of a journal with letters for its callers.
fn add_letters(text: &mut String, journal: &str) -> Result<(), AllocError> {
    let first = first_caller(journal);
    for line in journal.lines() {
        add_lettered(text, first, line)?;
    }
    Ok(())
}

/// Appends a journal, or how many entries it has where they are many.
pub fn add_journal(
    alloc: Global,
    text: &mut String,
    form: Form,
    entries: &[Entry],
) -> Result<(), AllocError> {
    let count = entries.len();
    let journal = journal_text(alloc, entries)?;
    let journal = str::from_utf8(journal.as_slice()).unwrap_or("no text");
    match form {
        Form::Whole if count <= MOST_ENTRIES => {
            text.push_str("\n    journal")?;
            add_lines(text, journal.as_bytes())
        }
        Form::Letters => {
            text.push_str("\n    journal")?;
            add_letters(text, journal)
        }
        _ => write!(text, "\n    journal of {count}"),
    }
}

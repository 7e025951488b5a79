//! What is written for a line.

use crate::words::{say, say_number, text_of};
use batch_jobs::{Outcome, journal_text, report_line};
use chain_steps::Progress;
use gconv_runtime::{Closed, Known};
use outside::ShelfLibrary;
use runtime_histories::{Entry, Refusal};
use std::alloc::Global;

/// A journal with more entries isn't written.
const MANY: usize = 100;

/// Appends the module at which an opening failed.
fn say_module(text: &mut String, why: &Refusal) {
    match why {
        Refusal::LibraryFault { module, .. }
        | Refusal::NoCharmap { module, .. }
        | Refusal::BadCharmap { module, .. } => {
            say(text, "module ");
            say_number(text, *module as u64);
            say(text, " ");
        }
        _ => {}
    }
}

/// Appends why a pair isn't opened.
pub fn say_refusal(alloc: Global, text: &mut String, why: Refusal) {
    say_module(text, &why);
    if let Ok(line) = report_line(alloc, 0, &Outcome::Refused(why)) {
        let line = text_of(line.as_slice());
        say(text, line.trim_start_matches("0: ").trim_end());
    }
}

/// Appends ordinals.
fn say_ordinals(text: &mut String, ordinals: &[u32], count: usize) {
    for ordinal in ordinals.iter().take(count) {
        say(text, " ");
        say_number(text, *ordinal as u64);
    }
}

/// Appends what a caller knows of a pair.
pub fn say_known(text: &mut String, known: Known, ordinals: &[u32]) {
    match known {
        Known::Found(found) => {
            say(text, "cost ");
            say_number(text, found.cost);
            say(text, " length ");
            say_number(text, found.length as u64);
            say(text, ":");
            say_ordinals(text, ordinals, found.length as usize);
        }
        Known::Unknown => say(text, "unknown"),
        Known::BadName { which, fault } => {
            let _ = write!(text, "bad name {which:?} {fault:?}");
        }
    }
}

/// Appends how many descriptors a caller has.
pub fn say_holding(text: &mut String, count: u32) {
    say(text, "holds ");
    say_number(text, count as u64);
}

/// Appends the answer of a call.
pub fn say_progress(text: &mut String, progress: &Progress, output: &[u8]) {
    say(text, "took ");
    say_number(text, progress.consumed as u64);
    say(text, " made ");
    say(
        text,
        text_of(output.get(..progress.produced).unwrap_or(&[])),
    );
    let verdict = progress.verdict;
    let _ = write!(text, " {verdict:?}");
}

/// Appends the entries of a journal, each in a line.
fn say_entries(alloc: Global, text: &mut String, journal: &[Entry]) {
    if let Ok(lines) = journal_text(alloc, journal) {
        say(text, text_of(lines.as_slice()));
    }
}

/// Appends the paths that were asked for, and the journal, or only how many entries it has.
pub fn say_end(alloc: Global, text: &mut String, closed: &Closed<ShelfLibrary>) {
    say(text, "done:");
    let journal = closed.journal.as_slice();
    if journal.len() > MANY {
        say(text, " ");
        say_number(text, journal.len() as u64);
        say(text, " entries\n");
        return;
    }
    for path in closed.library.reads() {
        say(text, " ");
        say(text, path.as_str());
    }
    say(text, "\n");
    say_entries(alloc, text, journal);
}

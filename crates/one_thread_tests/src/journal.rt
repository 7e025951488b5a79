//! Entries as lines.

use crate::refusals::{add_refusal, name_text};
use crate::words::add_number;
use runtime_histories::{Asked, Entry, Event, Load, Reply};
use std::alloc::AllocError;

/// A name as it was asked for; one that names nothing as ?.
fn asked_text(asked: &Asked) -> &str {
    match asked {
        Asked::Good(name) => name_text(name),
        Asked::Bad(_) => "?",
    }
}

/// Appends the ordinals of a chain, and what it costs.
fn add_chain(text: &mut String, cost: u64, ordinals: &[u32]) -> Result<(), AllocError> {
    text.push_str("cost ")?;
    add_number(text, cost)?;
    text.push_str(" chain")?;
    for ordinal in ordinals {
        text.push_str(" ")?;
        add_number(text, *ordinal as u64)?;
    }
    Ok(())
}

/// Appends modules that were loaded, each with its pages.
fn add_loads(text: &mut String, loads: &[Load]) -> Result<(), AllocError> {
    text.push_str(" loaded")?;
    for load in loads {
        text.push_str(" ")?;
        add_number(text, load.module as u64)?;
        text.push_str(":")?;
        add_number(text, load.pages as u64)?;
    }
    Ok(())
}

/// Appends what an opening was answered.
fn add_reply(text: &mut String, reply: &Reply) -> Result<(), AllocError> {
    match reply {
        Reply::Opened {
            chain,
            cost,
            loaded,
            ..
        } => {
            add_chain(text, *cost, chain.as_slice())?;
            add_loads(text, loaded.as_slice())
        }
        Reply::Refused(why) => add_refusal(text, why),
    }
}

/// Appends the names that an opening asked for.
fn add_names(text: &mut String, from: &str, to: &str) -> Result<(), AllocError> {
    text.push_str("opens ")?;
    text.push_str(from)?;
    text.push_str(" ")?;
    text.push_str(to)?;
    text.push_str(": ")
}

/// Appends what came to pass.
fn add_event(text: &mut String, event: &Event) -> Result<(), AllocError> {
    match event {
        Event::Opening { from, to, reply } => {
            add_names(text, asked_text(from), asked_text(to))?;
            add_reply(text, reply)
        }
        Event::Closing { number } => {
            text.push_str("closes ")?;
            add_number(text, *number)
        }
    }
}

/// Appends the head of an entry's line.
fn add_head(text: &mut String, position: u64, caller: u32) -> Result<(), AllocError> {
    text.push_str("\n    ")?;
    add_number(text, position)?;
    text.push_str(" caller ")?;
    add_number(text, caller as u64)?;
    text.push_str(" ")
}

/// Appends all entries, each as a line of its own.
pub fn add_journal(text: &mut String, entries: &[Entry]) -> Result<(), AllocError> {
    for (position, entry) in entries.iter().enumerate() {
        add_head(text, position as u64, entry.caller)?;
        add_event(text, &entry.event)?;
    }
    Ok(())
}

//! The text of a journal.

ghost use Rattle.std.specs.Prelude.{◌≡◌, ◌++◌, IfOk, OnOk};
ghost use Rattle.std.specs.Fmt.{decimal};
ghost use Rattle.batch_jobs.specs.Journals.{entry_line, event_text, journal_text, joined, load_text, loads_text, more_of, name_text, reply_text};

use crate::numbers::{add_at, add_number};
use crate::refusal_texts::add_refusal;
use runtime_histories::{Asked, Entry, Event, Load, Reply};
use std::alloc::{AllocError, Global};

/// Appends numbers, each behind a comma.
fn add_more_numbers(alloc: Global, text: &mut Vec<u8>, numbers: &[u32]) -> Result<(), AllocError>
    ensures { OnOk result (text.new.items ≡ text.old.items ++ more_of decimal numbers.now) }
{
    'numbers: for number in numbers {
        add_at(alloc, text, b",", *number as u64)?;
    }
    Ok(())
}

/// Appends numbers with commas between them.
fn add_numbers(alloc: Global, text: &mut Vec<u8>, numbers: &[u32]) -> Result<(), AllocError>
    ensures { OnOk result (text.new.items ≡ text.old.items ++ joined decimal numbers.now) }
{
    let [first, rest @ ..] = numbers else {
        return Ok(());
    };
    add_number(alloc, text, *first as u64)?;
    add_more_numbers(alloc, text, rest)
}

/// Appends a module that was loaded, and its pages.
fn add_load(alloc: Global, text: &mut Vec<u8>, load: &Load) -> Result<(), AllocError>
    ensures { OnOk result (text.new.items ≡ text.old.items ++ load_text load.now) }
{
    add_number(alloc, text, load.module as u64)?;
    add_at(alloc, text, b":", load.pages as u64)
}

/// Appends loads, each behind a comma.
fn add_more_loads(alloc: Global, text: &mut Vec<u8>, loads: &[Load]) -> Result<(), AllocError>
    ensures { OnOk result (text.new.items ≡ text.old.items ++ more_of load_text loads.now) }
{
    'loads: for load in loads {
        text.extend_from_slice(b",")?;
        add_load(alloc, text, load)?;
    }
    Ok(())
}

/// Appends what was loaded.
fn add_loads(alloc: Global, text: &mut Vec<u8>, loads: &[Load]) -> Result<(), AllocError>
    ensures { OnOk result (text.new.items ≡ text.old.items ++ loads_text loads.now) }
{
    let [first, rest @ ..] = loads else {
        return text.extend_from_slice(b"-");
    };
    add_load(alloc, text, first)?;
    add_more_loads(alloc, text, rest)
}

/// Appends a name as it was asked for.
fn add_name(text: &mut Vec<u8>, asked: &Asked) -> Result<(), AllocError>
    ensures { OnOk result (text.new.items ≡ text.old.items ++ name_text asked.now) }
{
    match asked {
        Asked::Good(name) => text.extend_from_slice(name.as_bytes()),
        Asked::Bad(_) => text.extend_from_slice(b"?"),
    }
}

/// Appends what an opening was answered.
fn add_reply(alloc: Global, text: &mut Vec<u8>, reply: &Reply) -> Result<(), AllocError>
    ensures { OnOk result (text.new.items ≡ text.old.items ++ reply_text reply.now) }
{
    match reply {
        Reply::Opened {
            chain,
            cost,
            loaded,
            ..
        } => {
            add_at(alloc, text, b"ok cost ", *cost)?;
            text.extend_from_slice(b" chain ")?;
            add_numbers(alloc, text, chain.as_slice())?;
            text.extend_from_slice(b" loaded ")?;
            add_loads(alloc, text, loaded.as_slice())
        }
        Reply::Refused(refusal) => {
            text.extend_from_slice(b"refused ")?;
            add_refusal(alloc, text, refusal)
        }
    }
}

/// Appends an opening or a closing.
fn add_event(alloc: Global, text: &mut Vec<u8>, event: &Event) -> Result<(), AllocError>
    ensures { OnOk result (text.new.items ≡ text.old.items ++ event_text event.now) }
{
    match event {
        Event::Opening { from, to, reply } => {
            text.extend_from_slice(b"open ")?;
            add_name(text, from)?;
            text.extend_from_slice(b" ")?;
            add_name(text, to)?;
            text.extend_from_slice(b" ")?;
            add_reply(alloc, text, reply)
        }
        Event::Closing { number } => add_at(alloc, text, b"close ", *number),
    }
}

/// Appends the line of the entry at this position.
fn add_entry(
    alloc: Global,
    text: &mut Vec<u8>,
    position: u64,
    entry: &Entry,
) -> Result<(), AllocError>
    ensures { OnOk result (text.new.items ≡ text.old.items ++ entry_line position entry.now) }
{
    add_number(alloc, text, position)?;
    add_at(alloc, text, b" ", entry.caller as u64)?;
    text.extend_from_slice(b" ")?;
    add_event(alloc, text, &entry.event)?;
    text.extend_from_slice(b"\n")
}

/// The text of a journal: a line for each entry, in order. A refusal for want of memory has no text,
/// and stands in no journal.
pub fn journal_text(alloc: Global, entries: &[Entry]) -> Result<Vec<u8>, AllocError>
    ensures { IfOk result (λ text. text.items ≡ journal_text entries.now) }
{
    let mut text = Vec::new(alloc);
    let mut position = 0u64;
    'entries: for entry in entries {
        add_entry(alloc, &mut text, position, entry)?;
        position += 1;
    }
    Ok(text)
}

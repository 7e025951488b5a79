//! Why a pair isn't opened.

use crate::words::add_number;
use names_alias::{Name, NameFault, Word};
use runtime_histories::{End, Refusal, TextFault};
use std::alloc::AllocError;

/// The text of bytes that are one.
fn text_of(bytes: &[u8]) -> &str {
    match str::from_utf8(bytes) {
        Ok(text) => text,
        Err(_) => "?",
    }
}

/// A name.
pub fn name_text(name: &Name) -> &str {
    text_of(name.as_bytes())
}

/// Appends what is wrong with a charmap of a module.
fn add_place(text: &mut String, what: &str, charmap: &Word, module: u32) -> Result<(), AllocError> {
    text.push_str(what)?;
    text.push_str(text_of(charmap.as_bytes()))?;
    text.push_str(" of module ")?;
    add_number(text, module as u64)
}

/// Appends two numbers, each behind a word.
fn add_two(text: &mut String, what: &str, one: u64, and: &str, two: u64) -> Result<(), AllocError> {
    text.push_str(what)?;
    add_number(text, one)?;
    text.push_str(and)?;
    add_number(text, two)
}

/// Appends what is wrong with a name.
fn add_name_fault(text: &mut String, which: End, fault: NameFault) -> Result<(), AllocError> {
    write!(text, "bad name {which:?} {fault:?}")
}

/// Appends what is wrong with the text of a charmap.
fn add_text_fault(text: &mut String, fault: TextFault) -> Result<(), AllocError> {
    write!(text, " {fault:?}")
}

/// Appends why a module's charmap gives no table.
fn add_charmap_fault(text: &mut String, why: &Refusal) -> Result<(), AllocError> {
    match why {
        Refusal::LibraryFault { module, charmap } => {
            add_place(text, "the library failed at ", charmap, *module)
        }
        Refusal::NoCharmap { module, charmap } => {
            add_place(text, "no charmap ", charmap, *module)
        }
        Refusal::BadCharmap {
            module,
            charmap,
            fault,
        } => {
            add_place(text, "bad charmap ", charmap, *module)?;
            add_text_fault(text, *fault)
        }
        _ => text.push_str("out of memory"),
    }
}

/// Appends what a refusal says.
pub fn add_refusal(text: &mut String, why: &Refusal) -> Result<(), AllocError> {
    match why {
        Refusal::BadName { which, fault } => add_name_fault(text, *which, *fault),
        Refusal::NoConversion => text.push_str("no conversion"),
        Refusal::StoreFull { need, free } => {
            add_two(text, "store full need ", *need, " free ", *free as u64)
        }
        Refusal::JournalFull { length } => {
            text.push_str("journal full at ")?;
            add_number(text, *length)
        }
        _ => add_charmap_fault(text, why),
    }
}

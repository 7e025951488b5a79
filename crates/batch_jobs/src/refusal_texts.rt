//! The text of a refusal.

ghost use Rattle.std.specs.Prelude.{◌≡◌, ◌<◌, ◌++◌, OnOk, codes};
ghost use Rattle.std.specs.Fmt.{decimal};
ghost use Rattle.batch_jobs.specs.Refusals.{end_text, hex_digit, hex_text, name_fault_text, refusal_text, text_fault_text};

use crate::numbers::{add_at, add_number};
use code_pairs::Code;
use names_alias::{NameFault, Word};
use runtime_histories::{End, Refusal, TextFault};
use std::alloc::{AllocError, Global};

/// Appends some bytes and the word of a charmap.
fn add_charmap(text: &mut Vec<u8>, front: &[u8], charmap: &Word) -> Result<(), AllocError>
    ensures { OnOk result (text.new.items ≡ text.old.items ++ (front.now ++ charmap.now)) }
{
    text.extend_from_slice(front)?;
    text.extend_from_slice(charmap.as_bytes())
}

/// Appends which name of a pair is bad.
fn add_end(text: &mut Vec<u8>, end: End) -> Result<(), AllocError>
    ensures { OnOk result (text.new.items ≡ text.old.items ++ end_text end) }
{
    match end {
        End::From => text.extend_from_slice(b"bad name from: "),
        End::To => text.extend_from_slice(b"bad name to: "),
    }
}

/// Appends what is wrong with a name.
fn add_name_fault(alloc: Global, text: &mut Vec<u8>, fault: NameFault) -> Result<(), AllocError>
    ensures { OnOk result (text.new.items ≡ text.old.items ++ name_fault_text fault) }
{
    match fault {
        NameFault::Suffix { at } => add_at(alloc, text, b"suffix at ", at as u64),
        NameFault::Empty => text.extend_from_slice(b"empty"),
        NameFault::LongName { len } => add_at(alloc, text, b"too long ", len as u64),
        NameFault::Reserved => text.extend_from_slice(b"reserved"),
    }
}

/// Appends which name of a pair is bad, and why.
fn add_bad_name(
    alloc: Global,
    text: &mut Vec<u8>,
    which: End,
    fault: NameFault,
) -> Result<(), AllocError>
    ensures { OnOk result
        (text.new.items ≡ text.old.items ++ (end_text which ++ name_fault_text fault)) }
{
    add_end(text, which)?;
    add_name_fault(alloc, text, fault)
}

/// A hexadecimal digit, in upper case.
pub(crate) fn hex_digit(value: u8) -> u8
    requires { value < 16 }
    ensures { result ≡ hex_digit value }
{
    if value < 10 {
        b'0' + value
    } else {
        b'A' + (value - 10)
    }
}

/// Appends the bytes of a code, two hexadecimal digits each.
fn add_hex(text: &mut Vec<u8>, code: &Code) -> Result<(), AllocError>
    ensures { OnOk result (text.new.items ≡ text.old.items ++ hex_text code.now) }
{
    'bytes: for place in 0..code.len() {
        let byte = code.byte(place);
        text.extend_from_slice(&[hex_digit(byte / 16), hex_digit(byte % 16)])?;
    }
    Ok(())
}

/// Appends what is wrong with the text of a charmap.
fn add_text_fault(alloc: Global, text: &mut Vec<u8>, fault: &TextFault) -> Result<(), AllocError>
    ensures { OnOk result (text.new.items ≡ text.old.items ++ text_fault_text fault.now) }
{
    match fault {
        TextFault::Map(fault) => {
            text.extend_from_slice(b"M")?;
            add_number(alloc, text, fault.kind.number() as u64)?;
            add_at(alloc, text, b" line ", fault.line as u64)
        }
        TextFault::Overlap { first, second } => {
            text.extend_from_slice(b"M10 ")?;
            add_hex(text, first)?;
            text.extend_from_slice(b" ")?;
            add_hex(text, second)
        }
    }
}

/// Appends what is wrong with the text of a charmap, behind a colon.
fn add_reason(alloc: Global, text: &mut Vec<u8>, fault: &TextFault) -> Result<(), AllocError>
    ensures { OnOk result
        (text.new.items ≡ text.old.items ++ (codes ": " ++ text_fault_text fault.now)) }
{
    text.extend_from_slice(b": ")?;
    add_text_fault(alloc, text, fault)
}

/// Appends a charmap and what is wrong with its text.
fn add_bad_charmap(
    alloc: Global,
    text: &mut Vec<u8>,
    charmap: &Word,
    fault: &TextFault,
) -> Result<(), AllocError>
    ensures { OnOk result (text.new.items ≡ text.old.items
        ++ (codes "bad charmap " ++ (charmap.now ++ (codes ": " ++ text_fault_text fault.now)))) }
{
    add_charmap(text, b"bad charmap ", charmap)?;
    add_reason(alloc, text, fault)
}

/// Appends how many pages were needed, and how many there are.
fn add_store(alloc: Global, text: &mut Vec<u8>, need: u64, free: u32) -> Result<(), AllocError>
    ensures { OnOk result (text.new.items ≡ text.old.items
        ++ (codes "store full need " ++ (decimal need ++ (codes " free " ++ decimal free)))) }
{
    add_at(alloc, text, b"store full need ", need)?;
    add_at(alloc, text, b" free ", free as u64)
}

/// Appends why a pair isn't opened. Want of memory has no text.
pub(crate) fn add_refusal(
    alloc: Global,
    text: &mut Vec<u8>,
    refusal: &Refusal,
) -> Result<(), AllocError>
    ensures { OnOk result (text.new.items ≡ text.old.items ++ refusal_text refusal.now) }
{
    match refusal {
        Refusal::BadName { which, fault } => add_bad_name(alloc, text, *which, *fault),
        Refusal::NoConversion => text.extend_from_slice(b"no conversion"),
        Refusal::LibraryFault { charmap, .. } => add_charmap(text, b"charmap fault ", charmap),
        Refusal::NoCharmap { charmap, .. } => add_charmap(text, b"no charmap ", charmap),
        Refusal::BadCharmap { charmap, fault, .. } => add_bad_charmap(alloc, text, charmap, fault),
        Refusal::StoreFull { need, free } => add_store(alloc, text, *need, *free),
        Refusal::JournalFull { length } => add_at(alloc, text, b"journal full at ", *length),
        Refusal::Memory => Ok(()),
    }
}

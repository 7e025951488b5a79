//! Texts: what is asked, what is answered, and whether that is what it should be.

ghost use Rattle.std.specs.Prelude.{◌≤◌, length};
ghost use Rattle.text_lines.specs.Limits.{longest_text};

use names_alias::{Name, NameFault, internal, normal};
use std::alloc::{AllocError, Global};
use std::process::Abort;
use text_lines::LONGEST_TEXT;

/// A test's answers are what they should be.
pub fn check(rt: &impl Abort, answers: Result<String, AllocError>, want: &str) {
    match answers {
        Ok(text) => assert!(rt; text.as_str() == want, "{text}"),
        Err(_) => assert!(rt; false),
    }
}

/// The bytes of a text that a reader takes; none where it is too long.
pub fn short(text: &str) -> &[u8]
    ensures { length result.now ≤ longest_text }
{
    bytes_of(text.as_bytes())
}

/// The same of bytes.
pub fn bytes_of(bytes: &[u8]) -> &[u8]
    ensures { length result.now ≤ longest_text }
{
    if bytes.len() <= LONGEST_TEXT as usize {
        bytes
    } else {
        b""
    }
}

/// The name of a text, or that of the set between all others.
pub fn name(text: &str) -> Name {
    match normal(short(text)) {
        Ok(name) => name,
        Err(_) => internal(),
    }
}

/// Appends bytes that spell a text, and a space.
pub fn add_bytes(text: &mut String, bytes: &[u8]) -> Result<(), AllocError> {
    match str::from_utf8(bytes) {
        Ok(bytes) => text.push_str(bytes)?,
        Err(_) => text.push_str("?")?,
    }
    text.push_str(" ")
}

/// Appends a number, and a space.
pub fn add_number(text: &mut String, number: u64) -> Result<(), AllocError> {
    write!(text, "{number} ")
}

/// Appends a number, or - where there is none.
pub fn add_option(text: &mut String, number: Option<u32>) -> Result<(), AllocError> {
    match number {
        Some(number) => add_number(text, number as u64),
        None => text.push_str("- "),
    }
}

/// Appends why a text is no name.
pub fn add_name_fault(text: &mut String, fault: NameFault) -> Result<(), AllocError> {
    write!(text, "{fault:?} ")
}

/// The same line, so many times.
pub fn repeated(alloc: Global, line: &str, count: usize) -> Result<String, AllocError> {
    let mut text = String::new(alloc);
    for _ in 0..count {
        text.push_str(line)?;
    }
    Ok(text)
}

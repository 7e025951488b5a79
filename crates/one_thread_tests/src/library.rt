//! A library of the charmaps that lines give.

use crate::words::{number, words_of};
use outside::ShelfLibrary;
use std::alloc::{AllocError, Global};

/// The lines before the mapping lines of a charmap; so the first of these is line 4.
const HEAD: &str = "<escape_char> /\n<comment_char> %\nCHARMAP\n";

/// The line behind them.
const TAIL: &str = "END CHARMAP\n";

/// A piece of a comment.
const COMMENT: &str = "%%%%%%%%%%%%%%%%%%%%%%%%%%%%%%%%%%%%%%%%%%%%%%%%%%%%%%%%%%%%%%%%";

/// Appends a comment, so that the text has so many bytes with its last line.
fn fill(text: &mut String, size: usize) -> Result<(), AllocError> {
    let there = text.len().saturating_add(TAIL.len() + 1);
    let more = size.saturating_sub(there);
    for _ in 0..more / 64 {
        text.push_str(COMMENT)?;
    }
    for _ in 0..more % 64 {
        text.push_str("%")?;
    }
    text.push_str("\n")
}

/// Appends mapping lines, each but the last of which ends in a semicolon.
fn add_mappings(text: &mut String, symbol: &str, rest: &str) -> Result<(), AllocError> {
    text.push_str(symbol)?;
    text.push_str(" ")?;
    for line in rest.split(';') {
        text.push_str(line)?;
        text.push_str("\n")?;
    }
    Ok(())
}

/// Writes a charmap.
fn write_charmap(text: &mut String, words: &[&str; 5]) -> Result<(), AllocError> {
    text.push_str(HEAD)?;
    if !words[3].is_empty() {
        add_mappings(text, words[3], words[4])?;
    }
    let size = number(words[2]);
    if size > 0 {
        fill(text, size as usize)?;
    }
    text.push_str(TAIL)
}

/// Appends the charmap of a line, if it is the line of one.
fn add_charmap(
    alloc: Global,
    texts: &mut Vec<(String, Vec<u8>)>,
    line: &str,
) -> Result<(), AllocError> {
    let words = words_of(line);
    if words[0] != "charmap" {
        return Ok(());
    }
    let mut text = String::new(alloc);
    write_charmap(&mut text, &words)?;
    texts.push((String::from_str(alloc, words[1])?, text.into_bytes()))?;
    Ok(())
}

/// Which fetches are to fail.
fn failing(alloc: Global, setup: &str) -> Result<Vec<u32>, AllocError> {
    let mut failing = Vec::new(alloc);
    for line in setup.lines() {
        let words = words_of(line);
        if words[0] == "fail" {
            failing.push(number(words[1]))?;
        }
    }
    Ok(failing)
}

/// A library of the charmaps.
pub fn library(alloc: Global, setup: &str) -> Result<ShelfLibrary, AllocError> {
    let failing = failing(alloc, setup)?;
    let mut texts = Vec::new(alloc);
    for line in setup.lines() {
        add_charmap(alloc, &mut texts, line)?;
    }
    Ok(ShelfLibrary::new(alloc, texts, failing))
}

//! A library of the charmaps that lines give.

use crate::words::{number, words_of};
use outside::ShelfLibrary;
use std::alloc::{AllocError, Global};

/// The lines before the mapping line of a charmap; so this is line 4.
const HEAD: &str = "<escape_char> /\n<comment_char> %\nCHARMAP\n";

/// The lines behind it.
const TAIL: &str = "\nEND CHARMAP\n";

/// The charmap of a mapping line, which has two words.
fn charmap(alloc: Global, symbol: &str, code: &str) -> Result<Vec<u8>, AllocError> {
    let mut text = String::new(alloc);
    text.push_str(HEAD)?;
    text.push_str(symbol)?;
    text.push_str(" ")?;
    text.push_str(code)?;
    text.push_str(TAIL)?;
    Ok(text.into_bytes())
}

/// The charmaps by their paths.
fn charmaps(alloc: Global, lines: &str) -> Result<Vec<(String, Vec<u8>)>, AllocError> {
    let mut texts = Vec::new(alloc);
    for line in lines.lines() {
        let words = words_of(line);
        if words[0] == "charmap" {
            let path = String::from_str(alloc, words[1])?;
            texts.push((path, charmap(alloc, words[2], words[3])?))?;
        }
    }
    Ok(texts)
}

/// Which fetches are to fail.
fn failing(alloc: Global, lines: &str) -> Result<Vec<u32>, AllocError> {
    let mut failing = Vec::new(alloc);
    for line in lines.lines() {
        let words = words_of(line);
        if words[0] == "fail" {
            failing.push(number(words[1]))?;
        }
    }
    Ok(failing)
}

/// A library of the charmaps.
pub fn library(alloc: Global, lines: &str) -> Result<ShelfLibrary, AllocError> {
    let failing = failing(alloc, lines)?;
    Ok(ShelfLibrary::new(alloc, charmaps(alloc, lines)?, failing))
}

//! A configuration that is made: sets with a module each, and the charmaps of these.

use outside::ShelfLibrary;
use std::alloc::{AllocError, Global};

/// The configuration of so many sets.
pub fn modules(alloc: Global, sets: u32) -> Result<String, AllocError> {
    let mut text = String::new(alloc);
    for set in 0..sets {
        write!(text, "module N{set}// INTERNAL M{set} 1\n")?;
        write!(text, "module INTERNAL N{set}// M{set} 1\n")?;
    }
    Ok(text)
}

/// Its bindings: a table for each set.
pub fn bindings(alloc: Global, sets: u32) -> Result<String, AllocError> {
    let mut text = String::new(alloc);
    for set in 0..sets {
        write!(text, "M{set} table C{set}\n")?;
    }
    Ok(text)
}

/// A charmap of one code.
const CHARMAP: &[u8] = b"<escape_char> /\n<comment_char> %\nCHARMAP\n<U0041> /x41\nEND CHARMAP\n";

/// A library of the charmaps.
pub fn library(alloc: Global, sets: u32) -> Result<ShelfLibrary, AllocError> {
    let mut texts = Vec::new(alloc);
    for set in 0..sets {
        let mut text = Vec::new(alloc);
        text.extend_from_slice(CHARMAP)?;
        texts.push((format!(in alloc; "d/C{set}")?, text))?;
    }
    Ok(ShelfLibrary::new(alloc, texts, Vec::new(alloc)))
}

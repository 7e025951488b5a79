//! What files hold.

use crate::hex::hex_of;
use anyhow::{Result, bail};
use outside::ShelfFiles;
use std::alloc::{AllocError, Global};

/// Appends the lines of a text.
pub fn add_lines(text: &mut String, bytes: &[u8]) -> Result<(), AllocError> {
    match str::from_utf8(bytes) {
        Ok(lines) => {
            for line in lines.lines() {
                write!(text, "\n        {line}")?;
            }
            Ok(())
        }
        Err(_) => text.push_str(" which is no text"),
    }
}

/// What the files hold under the name of a line.
pub fn shown(alloc: Global, files: &ShelfFiles, words: &[&str]) -> Result<String> {
    match *words {
        ["show", name] => match files.content(name) {
            Some(bytes) => {
                let hex = hex_of(alloc, bytes)?;
                Ok(format!(in alloc; ": {hex}")?)
            }
            None => Ok(String::from_str(alloc, ": absent")?),
        },
        ["text", name] => {
            let mut text = String::new(alloc);
            match files.content(name) {
                Some(bytes) => add_lines(&mut text, bytes)?,
                None => text.push_str(": absent")?,
            }
            Ok(text)
        }
        _ => bail!("this is no line"),
    }
}

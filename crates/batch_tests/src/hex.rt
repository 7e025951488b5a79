//! Bytes as hexadecimal digits; - stands for no bytes.

use anyhow::{Result, bail};
use std::alloc::{AllocError, Global};

/// The value of a hexadecimal digit.
fn digit(byte: u8) -> Option<u8> {
    match byte {
        b'0'..=b'9' => Some(byte - b'0'),
        b'A'..=b'F' => Some(byte - b'A' + 10),
        _ => None,
    }
}

/// The bytes that a word spells.
pub fn bytes_of(alloc: Global, word: &str) -> Result<Vec<u8>> {
    let mut bytes = Vec::new(alloc);
    if word == "-" {
        return Ok(bytes);
    }
    for pair in word.as_bytes().chunks(2) {
        match *pair {
            [high, low] => match (digit(high), digit(low)) {
                (Some(high), Some(low)) => bytes.push(high.wrapping_mul(16).wrapping_add(low))?,
                _ => bail!("{word:?} spells no bytes"),
            },
            _ => bail!("{word:?} spells no bytes"),
        }
    }
    Ok(bytes)
}

/// The spelling of some bytes.
pub fn hex_of(alloc: Global, bytes: &[u8]) -> Result<String, AllocError> {
    if bytes.is_empty() {
        return String::from_str(alloc, "-");
    }
    let mut text = String::new(alloc);
    for byte in bytes {
        write!(text, "{byte:02X}")?;
    }
    Ok(text)
}

//! Words, numbers and bytes of a line, and how they are written.

ghost use Rattle.std.specs.Prelude.{◌≤◌, length};
ghost use Rattle.text_lines.specs.Limits.{longest_text};

use std::alloc::AllocError;
use text_lines::LONGEST_TEXT;

/// An input or an output has at most so many bytes.
pub const MOST: usize = 32;

/// The first five words of a line; the fifth one goes on to its end.
pub fn words_of(line: &str) -> [&str; 5] {
    let mut words = [""; 5];
    for (at, word) in line.splitn(5, ' ').enumerate() {
        if at < 5 {
            words[at] = word;
        }
    }
    words
}

/// The number that a word spells; 0 where it spells none.
pub fn number(word: &str) -> u32 {
    match word.parse::<u32>() {
        Ok(number) => number,
        Err(_) => 0,
    }
}

/// The bytes of a text that a reader takes; none where it is too long.
pub fn short(text: &str) -> &[u8]
    ensures { length result.now ≤ longest_text }
{
    let bytes = text.as_bytes();
    if bytes.len() <= LONGEST_TEXT as usize {
        bytes
    } else {
        b""
    }
}

/// The value of a hexadecimal digit.
fn digit(byte: u8) -> u8 {
    if byte <= b'9' {
        byte.wrapping_sub(b'0')
    } else {
        byte.wrapping_sub(b'A' - 10)
    }
}

/// Bytes that stand on the stack.
#[derive(Clone, Copy)]
pub struct Few {
    bytes: [u8; MOST],
    length: usize,
}

impl Few {
    /// Those that a word spells; - spells none.
    pub fn of(word: &str) -> Few {
        let mut bytes = [0; MOST];
        for (place, pair) in bytes.iter_mut().zip(word.as_bytes().chunks(2)) {
            if let [high, low] = *pair {
                *place = digit(high).wrapping_mul(16).wrapping_add(digit(low));
            }
        }
        Few {
            bytes,
            length: word.len() / 2,
        }
    }

    /// The bytes.
    pub fn as_slice(&self) -> &[u8]
        ensures { length result.now ≤ 32 }
    {
        &self.bytes[..self.length.min(MOST)]
    }
}

/// Appends the spelling of the first bytes of some.
pub fn add_hex(text: &mut String, bytes: &[u8], count: usize) -> Result<(), AllocError> {
    if count == 0 {
        return text.push_str("-");
    }
    for byte in bytes.iter().take(count) {
        write!(text, "{byte:02X}")?;
    }
    Ok(())
}

/// Appends a number.
pub fn add_number(text: &mut String, number: u64) -> Result<(), AllocError> {
    write!(text, "{number}")
}

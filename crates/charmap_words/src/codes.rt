//! The second word of a mapping line: a code.

ghost use Rattle.std.specs.Prelude.{◌≡◌, ◌+◌, ◌*◌, ◌<◌, ◌≤◌, ◌^◌, length, drop, nat_lt, if◌then◌else◌};
ghost use Rattle.charmap_words.specs.Spelling.{code_spelled};

use crate::spelled::byte_in;
use code_pairs::Code;

/// Why a word is no code.
#[derive(Clone, Copy, Debug, PartialEq, Eq)]
pub enum CodeFault {
    /// It isn't one spelled byte after another.
    BadCode,
    /// It spells more than four bytes.
    CodeLength,
}

/// What stands behind so many bytes.
fn behind(text: &[u8], count: usize) -> &[u8]
    requires { count ≤ length text.now }
    ensures { result.now ≡ drop count text.now }
{
    &text[count..]
}

/// A value with one byte more, where it has fewer than four.
fn value_with(count: usize, value: u32, byte: u8) -> u32
    requires { count < 4 → value < 2 ^ 24 }
    ensures { result ≡ (if nat_lt count 4 then 256 * value + byte else value) }
{
    if count < 4 {
        value * 256 + byte as u32
    } else {
        value
    }
}

/// Reads a second word such as `/x81/xfe`, in which `escape` stands before each byte: behind it
/// are `x` and two hexadecimal digits, `d` and two or three decimal ones, or two or three octal
/// ones. Where three digits stand, all three are taken.
pub fn read_code(escape: u8, word: &[u8]) -> Result<Code, CodeFault>
    ensures { result ≡ code_spelled escape word.now }
{
    let mut rest = word;
    let mut count: usize = 0;
    let mut value: u32 = 0;
    while !rest.is_empty() {
        let Some((byte, taken)) = byte_in(escape, rest) else {
            return Err(CodeFault::BadCode);
        };
        value = value_with(count, value, byte);
        count += 1;
        rest = behind(rest, taken);
    }
    if count == 0 {
        return Err(CodeFault::BadCode);
    }
    if count > 4 {
        return Err(CodeFault::CodeLength);
    }
    Ok(Code::new(count, value))
}

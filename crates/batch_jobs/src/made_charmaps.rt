//! The charmaps of a large input that the program makes itself.

ghost use Rattle.std.specs.Prelude.{◌≡◌, ◌<◌, ◌≤◌, ◌++◌, IfOk, OnOk};
ghost use Rattle.batch_jobs.specs.Limits.{made_charmaps, made_lines, most_number};
ghost use Rattle.batch_jobs.specs.Generated.{all_mappings, charmap_text, low_digit, mapping_line, mapping_text};

use crate::limits::MADE_LINES;
use crate::refusal_texts::hex_digit;
use std::alloc::{AllocError, Global};

/// A hexadecimal digit, in lower case.
fn low_digit(value: u8) -> u8
    requires { value < 16 }
    ensures { result ≡ low_digit value }
{
    if value < 10 {
        b'0' + value
    } else {
        b'a' + (value - 10)
    }
}

/// Appends the line of a point and its code of two bytes.
fn add_mapping(text: &mut Vec<u8>, point: u16, first: u8, second: u8) -> Result<(), AllocError>
    ensures { OnOk result (text.new.items ≡ text.old.items ++ mapping_text point first second) }
{
    let high = (point / 256) as u8;
    let low = (point % 256) as u8;
    text.extend_from_slice(&[
        b'<',
        b'U',
        hex_digit(high / 16),
        hex_digit(high % 16),
        hex_digit(low / 16),
        hex_digit(low % 16),
        b'>',
        b' ',
        b'/',
        b'x',
        low_digit(first / 16),
        low_digit(first % 16),
        b'/',
        b'x',
        low_digit(second / 16),
        low_digit(second % 16),
        b'\n',
    ])
}

/// Appends a mapping line of a charmap.
#[tactic(auto, using(crate::proofs::MadeLines::line_product))]
fn add_line(text: &mut Vec<u8>, number: u32, charmap: u32, line: u32) -> Result<(), AllocError>
    requires number { number ≤ most_number }
    requires charmap { charmap ≤ made_charmaps }
    requires line { line < made_lines }
    ensures { OnOk result (text.new.items ≡ text.old.items ++ mapping_line number charmap line) }
{
    let above = (line * (2 * charmap + 1) + number) % MADE_LINES;
    add_mapping(
        text,
        (0x4E00 + above) as u16,
        (0x81 + line / 64) as u8,
        (0x40 + line % 64) as u8,
    )
}

/// Appends the mapping lines of a charmap.
fn add_lines(text: &mut Vec<u8>, number: u32, charmap: u32) -> Result<(), AllocError>
    requires number { number ≤ most_number }
    requires charmap { charmap ≤ made_charmaps }
    ensures { OnOk result (text.new.items ≡ text.old.items ++ all_mappings number charmap) }
{
    'lines: for line in 0..MADE_LINES {
        add_line(text, number, charmap, line)?;
    }
    Ok(())
}

/// The text of a charmap: ASCII in one byte, and 1,024 points in two.
pub(crate) fn charmap_text(alloc: Global, number: u32, charmap: u32) -> Result<Vec<u8>, AllocError>
    requires number { number ≤ most_number }
    requires charmap { charmap ≤ made_charmaps }
    ensures { IfOk result (λ text. text.items ≡ charmap_text number charmap) }
{
    let mut text = Vec::new(alloc);
    text.extend_from_slice(b"<escape_char> /\n<comment_char> %\nCHARMAP\n<U0000>..<U007F> /x00\n")?;
    add_lines(&mut text, number, charmap)?;
    text.extend_from_slice(b"END CHARMAP\n")?;
    Ok(text)
}

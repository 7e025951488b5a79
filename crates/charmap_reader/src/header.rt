//! The lines before the mapping lines.

ghost use Rattle.std.specs.Prelude.{◌≡◌, ◌+◌, ◌<◌, ◌^◌, length, slice_index, true, false, IfSome, IfNone, IfOk, IfErr, Err};
ghost use Rattle.text_lines.specs.Lines.{lines};
ghost use Rattle.charmap_reader.specs.Rows.{row_of};
ghost use Rattle.charmap_reader.specs.Header.{is_sign};
ghost use Rattle.charmap_reader.specs.Scan.{scan_text, scan_rest, IsHeaderLine};

use crate::fault::{MapFault, MapKind};
use crate::row::{is_skipped, two_words};
use crate::signs::Signs;
use text_lines::next_line;

/// What a header line is.
#[derive(Drop)]
pub(crate) enum HeaderLine {
    /// The line that ends the header.
    Start,
    /// A line behind which these characters are in force.
    More(Signs),
    /// A line that isn't read.
    Bad,
}

/// What stands behind a header.
#[derive(Drop)]
pub(crate) struct Header<'a> {
    pub(crate) signs: Signs,
    pub(crate) rest: &'a [u8],
    /// The number of the first line of the rest.
    pub(crate) line: u32,
}

/// The character that a word names.
fn sign_of(word: &[u8]) -> Option<u8>
    ensures some { IfSome result (λ sign.
        (is_sign word.now ≡ true) × (sign ≡ slice_index word.now 0)) }
    ensures none { IfNone result (is_sign word.now ≡ false) }
{
    if word.len() == 1 && word[0] >= 0x21 && word[0] <= 0x7e && word[0] != b'<' {
        Some(word[0])
    } else {
        None
    }
}

/// Reads a header line where these characters are in force.
fn read_header_line(signs: Signs, line: &[u8]) -> HeaderLine
    ensures { IsHeaderLine signs (row_of line.now) result }
{
    let (first, second) = two_words(line);
    if is_skipped(signs.comment, first) {
        return HeaderLine::More(signs);
    }
    if first == b"CHARMAP".as_slice() {
        return HeaderLine::Start;
    }
    if first == b"<include>".as_slice() || first == b"<addset>".as_slice() {
        return HeaderLine::Bad;
    }
    if first == b"<escape_char>".as_slice() {
        return match sign_of(second) {
            None => HeaderLine::Bad,
            Some(escape) => HeaderLine::More(Signs {
                escape,
                comment: signs.comment,
            }),
        };
    }
    if first == b"<comment_char>".as_slice() {
        return match sign_of(second) {
            None => HeaderLine::Bad,
            Some(comment) => HeaderLine::More(Signs {
                escape: signs.escape,
                comment,
            }),
        };
    }
    HeaderLine::More(signs)
}

/// Reads the lines up to the one that ends the header.
pub(crate) fn read_header(text: &[u8]) -> Result<Header<'_>, MapFault>
    requires { length (lines text.now) + 1 < 2 ^ 32 }
    ensures ok { IfOk result (λ header.
        scan_text text.now ≡ scan_rest header.signs header.line header.rest.now) }
    ensures number { IfOk result (λ header. 0 < header.line) }
    ensures count { IfOk result (λ header.
        header.line + length (lines header.rest.now) ≡ length (lines text.now) + 1) }
    ensures err { IfErr result (λ fault. scan_text text.now ≡ Err fault) }
{
    let mut signs = Signs {
        escape: b'\\',
        comment: b'#',
    };
    let mut rest = text;
    let mut number: u32 = 1;
    while let Some((line, behind)) = next_line(rest) {
        match read_header_line(signs, line) {
            HeaderLine::Start => {
                return Ok(Header {
                    signs,
                    rest: behind,
                    line: number + 1,
                });
            }
            HeaderLine::Bad => {
                return Err(MapFault {
                    kind: MapKind::BadLine,
                    line: number,
                });
            }
            HeaderLine::More(after) => {
                signs = after;
                rest = behind;
                number += 1;
            }
        }
    }
    Err(MapFault {
        kind: MapKind::NoStart,
        line: number - 1,
    })
}

//! The mapping lines.

ghost use Rattle.std.specs.Prelude.{◌≡◌, ◌+◌, ◌-◌, ◌<◌, ◌≤◌, ◌^◌, ◌++◌, ◌||◌, length, IfOk, IfErr, MatchResult, Ok, Err};
ghost use Rattle.text_lines.specs.Lines.{lines};
ghost use Rattle.code_pairs.specs.Bytes.{value_of};
ghost use Rattle.code_pairs.specs.Tables.{HasPoints};
ghost use Rattle.charmap_words.specs.Symbols.{span_of};
ghost use Rattle.charmap_reader.specs.Rows.{row, row_of, is_skipped};
ghost use Rattle.charmap_reader.specs.Mapping.{mapped, members, is_end, is_marked};
ghost use Rattle.charmap_reader.specs.Faults.{Fails};
ghost use Rattle.charmap_reader.specs.Limits.{most_pairs};
ghost use Rattle.charmap_reader.specs.Scan.{scan_rest, IsMappingLine};

use crate::fault::{MapFault, MapKind, ReadFault};
use crate::members::{is_range, push_members};
use crate::row::{is_skipped, two_words};
use crate::signs::Signs;
use charmap_words::{CodeFault, read_code, read_span};
use code_pairs::{Code, Pair};
use std::alloc::{AllocError, Global};
use text_lines::next_line;

/// What a mapping line is.
#[derive(Clone, Copy)]
pub(crate) enum MappingLine {
    /// The line that ends the mapping lines.
    End,
    /// A line whose pairs, if any, were appended.
    More,
    /// A line with this fault.
    Bad(MapKind),
}

/// The pairs of a line: so many from a point and a code on.
#[derive(Clone, Copy)]
struct Members {
    point: u32,
    code: Code,
    count: u32,
}

/// The pairs of a line that is neither passed over nor marked.
fn members_of(escape: u8, first: &[u8], second: &[u8]) -> Result<Members, MapKind>
    ensures pairs { IfOk result (λ m.
        mapped escape (span_of first.now) second.now ≡ Ok (members m.point m.code m.count)) }
    ensures points { IfOk result (λ m. m.point + m.count ≤ 1114112) }
    ensures codes { IfOk result (λ m. value_of m.code + m.count ≤ 256 ^ length m.code) }
    ensures fault { IfErr result (λ kind. mapped escape (span_of first.now) second.now ≡ Err kind) }
{
    let Some(span) = read_span(first) else {
        return Err(MapKind::Symbol);
    };
    if second.is_empty() {
        return Err(MapKind::BadLine);
    }
    let code = match read_code(escape, second) {
        Err(CodeFault::BadCode) => return Err(MapKind::BadCode),
        Err(CodeFault::CodeLength) => return Err(MapKind::CodeLength),
        Ok(code) => code,
    };
    if !is_range(span, code) {
        return Err(MapKind::BadRange);
    }
    Ok(Members {
        point: span.first,
        code,
        count: span.last - span.first + 1,
    })
}

/// Whether a line with these words ends the mapping lines.
fn is_end(signs: Signs, first: &[u8], second: &[u8]) -> bool
    ensures { result ≡ is_end signs (row first.now second.now) }
{
    !is_skipped(signs.comment, first)
        && first == b"END".as_slice()
        && second == b"CHARMAP".as_slice()
}

/// Whether a line with this first word gives no pairs.
fn is_passed(comment: u8, first: &[u8]) -> bool
    ensures { result ≡ (is_marked first.now || is_skipped comment first.now) }
{
    first.starts_with(b"%IRREVERSIBLE%") || is_skipped(comment, first)
}

/// Reads a mapping line, and appends its pairs.
fn read_mapping_line(
    signs: Signs,
    line: &[u8],
    pairs: &mut Vec<Pair>,
) -> Result<MappingLine, AllocError>
    requires { length pairs.old.items ≤ most_pairs }
    ensures { IfOk result (λ read.
        IsMappingLine signs (row_of line.now) pairs.old.items read pairs.new.items) }
{
    let (first, second) = two_words(line);
    if is_end(signs, first, second) {
        return Ok(MappingLine::End);
    }
    if is_passed(signs.comment, first) {
        return Ok(MappingLine::More);
    }
    match members_of(signs.escape, first, second) {
        Err(kind) => Ok(MappingLine::Bad(kind)),
        Ok(members) => {
            if pairs.len() + members.count as usize > 2_097_152 {
                return Ok(MappingLine::Bad(MapKind::TooManyPairs));
            }
            push_members(pairs, members.point, members.code, members.count)?;
            Ok(MappingLine::More)
        }
    }
}

/// Reads the lines up to the one that ends the mapping lines, of which the first has the number
/// `first`.
pub(crate) fn read_mapping(
    alloc: Global,
    signs: Signs,
    text: &[u8],
    first: u32,
) -> Result<Vec<Pair>, ReadFault>
    requires number { 0 < first }
    requires count { first + length (lines text.now) ≤ 2 ^ 32 - 1 }
    ensures ok { IfOk result (λ pairs. scan_rest signs first text.now ≡ Ok pairs.items) }
    ensures points { IfOk result (λ pairs. HasPoints pairs.items) }
    ensures few { IfOk result (λ pairs. length pairs.items ≤ most_pairs) }
    ensures err { IfErr result (λ fault. Fails fault (scan_rest signs first text.now)) }
{
    let mut pairs = Vec::new(alloc);
    let mut rest = text;
    let mut number = first;
    while let Some((line, behind)) = next_line(rest) {
        match read_mapping_line(signs, line, &mut pairs) {
            Err(_) => return Err(ReadFault::Memory),
            Ok(MappingLine::Bad(kind)) => {
                return Err(ReadFault::Text(MapFault { kind, line: number }));
            }
            Ok(MappingLine::End) => return Ok(pairs),
            Ok(MappingLine::More) => {
                rest = behind;
                number += 1;
            }
        }
    }
    Err(ReadFault::Text(MapFault {
        kind: MapKind::NoEnd,
        line: number - 1,
    }))
}

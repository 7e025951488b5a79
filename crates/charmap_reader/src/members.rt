//! The pairs of a range.

ghost use Rattle.std.specs.Prelude.{◌≡◌, ◌+◌, ◌<◌, ◌≤◌, ◌^◌, ◌++◌, length, IsTrue, OnOk};
ghost use Rattle.code_pairs.specs.Bytes.{value_of};
ghost use Rattle.code_pairs.specs.Tables.{is_point};
ghost use Rattle.charmap_reader.specs.Mapping.{members, is_range};

use charmap_words::Span;
use code_pairs::{Code, Pair};
use std::alloc::AllocError;

/// Whether a span with the code of its first point is a range.
pub(crate) fn is_range(span: Span, code: Code) -> bool
    requires first { IsTrue (is_point span.first) }
    requires last { IsTrue (is_point span.last) }
    ensures { result ≡ is_range span code }
{
    if span.last < span.first {
        return false;
    }
    if span.first < 0xd800 && span.last >= 0xe000 {
        return false;
    }
    let last = code.value() as u64 + (span.last - span.first) as u64;
    last < 1 << (code.len() * 8)
}

/// Appends the pairs from a point and a code on, so many.
pub(crate) fn push_members(
    pairs: &mut Vec<Pair>,
    point: u32,
    code: Code,
    count: u32,
) -> Result<(), AllocError>
    requires points { point + count < 2 ^ 32 }
    requires codes { value_of code + count ≤ 256 ^ length code }
    ensures { OnOk result (pairs.new.items ≡ pairs.old.items ++ members point code count) }
{
    pairs.reserve(count as usize)?;
    for k in 0..count {
        pairs.push(Pair {
            point: point + k,
            code: code.plus(k),
        })?;
    }
    Ok(())
}

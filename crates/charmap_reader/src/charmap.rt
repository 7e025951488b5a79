//! A whole charmap text.

ghost use Rattle.std.specs.Prelude.{◌≡◌, ◌≤◌, length, IfOk, IfErr, Ok};
ghost use Rattle.charmap_reader.specs.declared.fault.ReadFault.TheVariants.{Text};
ghost use Rattle.code_pairs.specs.Tables.{HasPoints};
ghost use Rattle.charmap_reader.specs.Charmap.{charmap_of};
ghost use Rattle.charmap_reader.specs.Faults.{Fails};
ghost use Rattle.charmap_reader.specs.Limits.{most_pairs};

use crate::fault::{MapFault, MapKind, ReadFault};
use crate::header::read_header;
use crate::mapping::read_mapping;
use code_pairs::Charmap;
use std::alloc::Global;
use text_lines::LONGEST_TEXT;

/// A fault of a text as a whole.
fn whole_fault(kind: MapKind) -> ReadFault
    ensures { result ≡ Text (record { kind = kind; line = 0 }) }
{
    ReadFault::Text(MapFault { kind, line: 0 })
}

/// Reads a charmap text, or tells its first fault.
pub fn read_charmap(alloc: Global, text: &[u8]) -> Result<Charmap, ReadFault>
    ensures ok { IfOk result (λ map. charmap_of text.now ≡ Ok map.pairs.items) }
    ensures points { IfOk result (λ map. HasPoints map.pairs.items) }
    ensures few { IfOk result (λ map. length map.pairs.items ≤ most_pairs) }
    ensures err { IfErr result (λ fault. Fails fault (charmap_of text.now)) }
{
    if text.len() > LONGEST_TEXT as usize {
        return Err(whole_fault(MapKind::TooLong));
    }
    if text.starts_with(&[0x1f, 0x8b]) {
        return Err(whole_fault(MapKind::Compressed));
    }
    match read_header(text) {
        Err(fault) => Err(ReadFault::Text(fault)),
        Ok(header) => match read_mapping(alloc, header.signs, header.rest, header.line) {
            Err(fault) => Err(fault),
            Ok(pairs) => Ok(Charmap { pairs }),
        },
    }
}

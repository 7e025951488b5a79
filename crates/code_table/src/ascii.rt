//! Whether the lower half of a table is ASCII.

ghost use Rattle.std.specs.Prelude.{◌≡◌, ◌∷◌, []};
ghost use Rattle.code_pairs.specs.Tables.{Table, point_of};
ghost use Rattle.code_table.specs.Ascii.{is_ascii, is_found, is_own, is_single};
ghost use Rattle.code_table.specs.Images.{IsImage, IsImageOf, IsPlane};
ghost use Rattle.code_table.specs.Looks.{look_of};

use crate::image::{bytes_in, code_in};
use crate::layout::Layout;
use crate::lookup::Look;
use code_pairs::Code;
use trie::Flat;

/// Whether what a byte stands for is its own number.
fn is_point(look: Look, byte: u8) -> bool
    ensures { (table : Table) → look ≡ look_of table (byte ∷ []) →
        result ≡ is_found (point_of table (byte ∷ [])) byte }
{
    match look {
        Look::Point { point, used: _ } => point == byte as u32,
        Look::Prefix => false,
        Look::Nothing => false,
    }
}

/// Whether a code is the byte alone.
fn is_byte(code: Option<Code>, byte: u8) -> bool
    ensures { result ≡ is_single code byte }
{
    match code {
        Some(code) => code.len() == 1 && code.byte(0) == byte,
        None => false,
    }
}

/// Whether a byte stands for its own number, and is the code of that point.
fn is_own(words: &[u64], layout: Layout, byte: u8) -> bool
    requires image { IsImage layout.root layout.pages words.now }
    requires plane { IsPlane layout.root layout.plane words.now }
    ensures { (table : Table) → IsImageOf table layout.root layout.pages words.now →
        result ≡ is_own table byte }
{
    let look = code_in(&mut Flat { words }, layout, &[byte]);
    let code = bytes_in(&mut Flat { words }, layout, byte as u32);
    is_point(look, byte) && is_byte(code, byte)
}

/// Whether each byte below 80 hex does and is, in the table whose page image the words are. It stops at
/// the first one that doesn't.
pub fn is_ascii(words: &[u64], layout: Layout) -> bool
    requires image { IsImage layout.root layout.pages words.now }
    requires plane { IsPlane layout.root layout.plane words.now }
    ensures { (table : Table) → IsImageOf table layout.root layout.pages words.now →
        result ≡ is_ascii table }
{
    let mut byte = 0;
    while byte < 0x80 {
        if !is_own(words, layout, byte) {
            return false;
        }
        byte += 1;
    }
    true
}

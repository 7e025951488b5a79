//! The texts in which the charmaps of a large input spell points, each packed into one number.

ghost use Rattle.std.specs.Prelude.{◌≡◌, ◌⊎◌, ◌<◌, ◌≤◌, ◌+◌, ◌*◌, ◌%◌, IfOk};
ghost use Rattle.batch_jobs.specs.Limits.{made_charmaps, made_lines, most_number};
ghost use Rattle.batch_jobs.specs.Inverses.{inverse_of};
ghost use Rattle.batch_jobs.specs.Generated.{code_at, line_with, point_at, spelled};
ghost use Rattle.batch_jobs.specs.Packed.{ArePacked, packed_text, text_at, made_places};

use crate::limits::{MADE_LINES, MADE_PLACES};
use std::alloc::{AllocError, Global};

/// The point that a seed stands for.
fn point_at(seed: u64) -> u32
    requires { seed < 2147483648 }
    ensures value { result ≡ point_at seed }
    ensures range { (result < 128) ⊎ ((0x4E00 ≤ result) × (result < 0x4E00 + made_lines)) }
{
    let high = seed / 262_144;
    if seed / 65_536 % 4 == 0 {
        32 + (high % 95) as u32
    } else {
        0x4E00 + (high % 1_024) as u32
    }
}

/// What the odd number of a charmap is multiplied by for a product of 1 modulo 1,024.
fn inverse_of(charmap: u32) -> u32
    requires { charmap < made_charmaps }
    ensures { result ≡ inverse_of charmap }
{
    let inverses: [u32; 8] = [1, 683, 205, 439, 569, 931, 709, 751];
    inverses[charmap as usize]
}

/// The line of a charmap whose point is so far above 4E00.
#[tactic(auto, using(crate::proofs::MadeLines::line_with_inverse, crate::proofs::MadeLines::inverse_product))]
fn line_with(number: u32, charmap: u32, above: u32) -> u32
    requires number { number ≤ most_number }
    requires charmap { charmap < made_charmaps }
    requires above { above < made_lines }
    ensures value { result ≡ line_with number charmap above }
    ensures range { result < made_lines }
{
    let ahead = above + MADE_LINES - number;
    ahead * inverse_of(charmap) % MADE_LINES
}

/// The code of a line, packed.
fn pack_line(line: u32) -> u16
    requires { line < made_lines }
    ensures { packed_text result ≡ code_at line }
{
    (0x81 + line / 64 + 256 * (0x40 + line % 64)) as u16
}

/// How a charmap spells a point, packed.
fn pack(number: u32, charmap: u32, point: u32) -> u16
    requires number { number ≤ most_number }
    requires charmap { charmap < made_charmaps }
    requires point { (point < 128) ⊎ ((0x4E00 ≤ point) × (point < 0x4E00 + made_lines)) }
    ensures { packed_text result ≡ spelled number charmap point }
{
    if point < 128 {
        point as u16
    } else {
        pack_line(line_with(number, charmap, point - 0x4E00))
    }
}

/// How the charmap of a place spells its point, packed.
fn pack_at(number: u32, place: u32) -> u16
    requires number { number ≤ most_number }
    requires place { place < made_places }
    ensures { packed_text result ≡ text_at number place }
{
    let point = point_at(65_536 * (place % 32_768) as u64);
    pack(number, place / 32_768, point)
}

/// How all charmaps spell all points, packed.
pub(crate) fn packed_texts(alloc: Global, number: u32) -> Result<Vec<u16>, AllocError>
    requires { number ≤ most_number }
    ensures { IfOk result (λ words. ArePacked number words.items) }
{
    let mut words = Vec::new(alloc);
    'places: for place in 0..MADE_PLACES {
        words.push(pack_at(number, place))?;
    }
    Ok(words)
}

/// How a charmap spells the point of a seed, packed.
#[inline(always)]
#[tactic(auto, using(crate::proofs::MadeWords::words_long, crate::proofs::MadeWords::word_spells))]
pub(crate) fn word_of(words: &[u16], number: u32, charmap: u32, seed: u64) -> u16
    requires words { ArePacked number words.now }
    requires charmap { charmap < made_charmaps }
    requires seed { seed < 2147483648 }
    ensures { packed_text result ≡ spelled number charmap (point_at seed) }
{
    words[(32_768 * charmap) as usize + (seed / 65_536) as usize]
}

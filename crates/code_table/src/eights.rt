//! Eight codes read or looked up at once, so that whatever holds the words is asked for once.

ghost use Rattle.std.specs.Prelude.{◌≡◌, ◌<◌, ◌≤◌, ◌+◌, length, take, drop, IfSome};
ghost use Rattle.code_pairs.specs.Tables.{Table};
ghost use Rattle.code_table.specs.Eights.{IsOneAt, AreEight, GivesCodes};
ghost use Rattle.code_table.specs.Images.{IsImage, IsImageOf, IsPlane};

use crate::image::{bytes_in, code_in};
use crate::laws::looks_tell;
use crate::layout::Layout;
use crate::lookup::Look;
use code_pairs::Code;
use trie::Words;

/// A point below 10000 hex, and how many bytes its code has.
#[derive(Clone, Copy)]
pub struct One {
    pub point: u16,
    pub used: usize,
}

/// Eight points below 10000 hex, and how many bytes their codes have.
#[derive(Clone, Copy)]
pub struct Eight {
    pub points: [u16; 8],
    pub used: usize,
}

/// The codes of eight points.
#[derive(Clone, Copy)]
pub struct Codes {
    pub list: [Code; 8],
}

/// Four bytes at a place.
#[inline(always)]
fn four_at(bytes: &[u8], at: usize) -> &[u8]
    requires { at + 4 ≤ length bytes.now }
    ensures { result.now ≡ take 4 (drop at bytes.now) }
{
    &bytes[at..at + 4]
}

/// The code at a place of some bytes, where its point is below 10000 hex.
#[inline(always)]
fn one_at<W: Words>(words: &mut W, layout: Layout, input: &[u8], at: usize) -> Option<One>
    requires ready { W.ready words.old }
    requires image { IsImage layout.root layout.pages (W.words words.old) }
    requires room { at + 4 ≤ length input.now }
    ensures one { IfSome result (λ one. (table : Table) →
        IsImageOf table layout.root layout.pages (W.words words.old) → IsOneAt table input.now at one) }
    ensures same { W.words words.new ≡ W.words words.old }
    ensures ready { W.ready words.new }
    ensures kept { W.kept words.old words.new }
{
    looks_tell();
    match code_in(words, layout, four_at(input, at)) {
        Look::Point { point, used } if point <= 0xFFFF => Some(One {
            point: point as u16,
            used: used as usize,
        }),
        _ => None,
    }
}

/// The points of the eight codes at the front of some bytes, where each is below 10000 hex.
#[inline(always)]
pub fn eight_in<W: Words>(words: &mut W, layout: Layout, input: &[u8]) -> Option<Eight>
    requires ready { W.ready words.old }
    requires image { IsImage layout.root layout.pages (W.words words.old) }
    requires some { 32 ≤ length input.now }
    ensures eight { IfSome result (λ eight. (table : Table) →
        IsImageOf table layout.root layout.pages (W.words words.old) → AreEight table input.now eight) }
    ensures same { W.words words.new ≡ W.words words.old }
    ensures ready { W.ready words.new }
    ensures kept { W.kept words.old words.new }
{
    let mut points = [0; 8];
    let mut used = 0;
    let mut i = 0;
    while i < 8 {
        let one = one_at(words, layout, input, used)?;
        points[i] = one.point;
        used += one.used;
        i += 1;
    }
    Some(Eight { points, used })
}

/// The codes of eight points; `None` exactly where the table lacks one of them.
#[inline(always)]
pub fn codes_in<W: Words>(words: &mut W, layout: Layout, points: &[u16]) -> Option<Codes>
    requires ready { W.ready words.old }
    requires image { IsImage layout.root layout.pages (W.words words.old) }
    requires plane { IsPlane layout.root layout.plane (W.words words.old) }
    requires eight { length points.now ≡ 8 }
    ensures codes { (table : Table) → IsImageOf table layout.root layout.pages (W.words words.old) →
        GivesCodes table points.now result }
    ensures same { W.words words.new ≡ W.words words.old }
    ensures ready { W.ready words.new }
    ensures kept { W.kept words.old words.new }
{
    let mut list = [Code::new(1, 0); 8];
    let mut i = 0;
    while i < 8 {
        let code = bytes_in(words, layout, points[i] as u32)?;
        list[i] = code;
        i += 1;
    }
    Some(Codes { list })
}

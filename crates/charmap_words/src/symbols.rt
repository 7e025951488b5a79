//! The first word of a mapping line: a symbol, or two with dots between them.

ghost use Rattle.std.specs.Prelude.{◌≡◌, ◌+◌, ◌<◌, ◌≤◌, IfSome, length};
ghost use Rattle.code_pairs.specs.Tables.{is_point, IsPoint};
ghost use Rattle.charmap_words.specs.Places.{four, number_in};
ghost use Rattle.charmap_words.specs.Symbols.{symbol, behind_dots, dotted, span_of};

use crate::digits::{digit, is_hex};

/// The points that a mapping line speaks of, from the first to the last.
#[derive(Clone, Copy, Debug, PartialEq, Eq)]
pub struct Span {
    pub first: u32,
    pub last: u32,
}

/// The number of four hexadecimal digits from a place on.
#[tactic(auto, unfolding(crate::specs::Places::four))]
fn four(text: &[u8], place: usize) -> Option<u32>
    requires { place + 4 ≤ length text.now }
    ensures value { result ≡ four text.now place }
    ensures small { IfSome result (λ n. n < 65536) }
{
    let (a, b, c, d) = (
        text[place],
        text[place + 1],
        text[place + 2],
        text[place + 3],
    );
    if is_hex(a) && is_hex(b) && is_hex(c) && is_hex(d) {
        let high = digit(a) as u32 * 4096 + digit(b) as u32 * 256;
        Some(high + digit(c) as u32 * 16 + digit(d) as u32)
    } else {
        None
    }
}

/// The number that a symbol of 7 or 11 bytes spells.
#[tactic(auto, unfolding(crate::specs::Places::number_in))]
fn number_in(text: &[u8]) -> Option<u32>
    ensures { result ≡ number_in text.now }
{
    if text.len() == 7 && text[0] == b'<' && text[1] == b'U' && text[6] == b'>' {
        four(text, 2)
    } else if text.len() == 11 && text[0] == b'<' && text[1] == b'U' && text[10] == b'>' {
        let high = four(text, 2)?;
        let low = four(text, 6)?;
        Some(high * 65536 + low)
    } else {
        None
    }
}

/// Whether a number is a Unicode scalar value.
fn is_point(number: u32) -> bool
    ensures { result ≡ is_point number }
{
    number < 0xd800 || (number >= 0xe000 && number <= 0x10ffff)
}

/// The point of a word that is one symbol.
#[tactic(auto, using(crate::proofs::SymbolPlaces::symbol_places))]
fn symbol(word: &[u8]) -> Option<u32>
    ensures value { result ≡ symbol word.now }
    ensures point { IfSome result (λ point. IsPoint point) }
{
    let number = number_in(word)?;
    if is_point(number) { Some(number) } else { None }
}

/// What stands behind two or three dots.
fn behind_dots(word: &[u8]) -> &[u8]
    ensures { result.now ≡ behind_dots word.now }
{
    match word {
        [b'.', b'.', b'.', rest @ ..] => rest,
        [b'.', b'.', rest @ ..] => rest,
        _ => &[],
    }
}

/// The span of a word whose first symbol has `count` bytes.
#[tactic(auto, using(crate::proofs::SymbolPlaces::dotted_short))]
fn dotted(count: usize, word: &[u8]) -> Option<Span>
    ensures value { result ≡ dotted count word.now }
    ensures points { IfSome result (λ span. IsPoint span.first × IsPoint span.last) }
{
    if word.len() < count {
        return None;
    }
    let first = symbol(&word[..count])?;
    let last = symbol(behind_dots(&word[count..]))?;
    Some(Span { first, last })
}

/// Reads a first word such as `<U0041>` or `<U0041>..<U005A>`: symbols have 4 or 8 hexadecimal
/// digits of either case, and two or three dots part the ends of a span. Anything else is None.
pub fn read_span(word: &[u8]) -> Option<Span>
    ensures value { result ≡ span_of word.now }
    ensures points { IfSome result (λ span. IsPoint span.first × IsPoint span.last) }
{
    if let Some(point) = symbol(word) {
        return Some(Span {
            first: point,
            last: point,
        });
    }
    if let Some(span) = dotted(7, word) {
        return Some(span);
    }
    dotted(11, word)
}

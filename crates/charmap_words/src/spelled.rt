//! One spelled byte of a code.

ghost use Rattle.std.specs.Prelude.{◌≡◌, ◌<◌, ◌≤◌, IfSome, length};
ghost use Rattle.charmap_words.specs.Places.{hex_byte, decimal_byte, octal_byte, byte_in};

use crate::digits::{digit, is_decimal, is_hex, is_octal};

/// A byte of two hexadecimal digits behind two bytes.
#[tactic(auto, unfolding(crate::specs::Places::hex_byte))]
fn hex_byte(text: &[u8]) -> Option<(u8, usize)>
    ensures value { result ≡ hex_byte text.now }
    ensures taken { IfSome result (λ p. (0 < p.1) × (p.1 ≤ length text.now)) }
    ensures small { IfSome result (λ p. p.0 < 256) }
{
    if text.len() >= 4 && is_hex(text[2]) && is_hex(text[3]) {
        Some((digit(text[2]) * 16 + digit(text[3]), 4))
    } else {
        None
    }
}

/// A byte of two or three decimal digits behind two bytes.
#[tactic(auto, unfolding(crate::specs::Places::decimal_byte))]
fn decimal_byte(text: &[u8]) -> Option<(u8, usize)>
    ensures value { result ≡ decimal_byte text.now }
    ensures taken { IfSome result (λ p. (0 < p.1) × (p.1 ≤ length text.now)) }
    ensures small { IfSome result (λ p. p.0 < 256) }
{
    if text.len() >= 5 && is_decimal(text[2]) && is_decimal(text[3]) && is_decimal(text[4]) {
        let high = digit(text[2]) as u16 * 10 + digit(text[3]) as u16;
        let value = high * 10 + digit(text[4]) as u16;
        if value < 256 {
            Some((value as u8, 5))
        } else {
            None
        }
    } else if text.len() >= 4 && is_decimal(text[2]) && is_decimal(text[3]) {
        Some((digit(text[2]) * 10 + digit(text[3]), 4))
    } else {
        None
    }
}

/// A byte of two or three octal digits behind one byte.
#[tactic(auto, unfolding(crate::specs::Places::octal_byte))]
fn octal_byte(text: &[u8]) -> Option<(u8, usize)>
    ensures value { result ≡ octal_byte text.now }
    ensures taken { IfSome result (λ p. (0 < p.1) × (p.1 ≤ length text.now)) }
    ensures small { IfSome result (λ p. p.0 < 256) }
{
    if text.len() >= 4 && is_octal(text[1]) && is_octal(text[2]) && is_octal(text[3]) {
        let high = digit(text[1]) as u16 * 8 + digit(text[2]) as u16;
        let value = high * 8 + digit(text[3]) as u16;
        if value < 256 {
            Some((value as u8, 4))
        } else {
            None
        }
    } else if text.len() >= 3 && is_octal(text[1]) && is_octal(text[2]) {
        Some((digit(text[1]) * 8 + digit(text[2]), 3))
    } else {
        None
    }
}

/// The byte that is spelled at the front, and how many bytes spell it.
#[tactic(auto, unfolding(crate::specs::Places::byte_in))]
pub(crate) fn byte_in(escape: u8, text: &[u8]) -> Option<(u8, usize)>
    ensures value { result ≡ byte_in escape text.now }
    ensures taken { IfSome result (λ p. (0 < p.1) × (p.1 ≤ length text.now)) }
    ensures small { IfSome result (λ p. p.0 < 256) }
{
    if text.len() >= 2 && text[0] == escape {
        match text[1] {
            b'x' => hex_byte(text),
            b'd' => decimal_byte(text),
            _ => octal_byte(text),
        }
    } else {
        None
    }
}

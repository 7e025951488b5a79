//! Digits of the three bases.

ghost use Rattle.std.specs.Prelude.{◌≡◌, ◌<◌, IsTrue};
ghost use Rattle.charmap_words.specs.Digits.{is_decimal, is_octal, is_hex, digit};

pub(crate) fn is_octal(byte: u8) -> bool
    ensures { result ≡ is_octal byte }
{
    byte >= b'0' && byte <= b'7'
}

pub(crate) fn is_decimal(byte: u8) -> bool
    ensures { result ≡ is_decimal byte }
{
    byte >= b'0' && byte <= b'9'
}

pub(crate) fn is_hex(byte: u8) -> bool
    ensures { result ≡ is_hex byte }
{
    is_decimal(byte) || (byte >= b'A' && byte <= b'F') || (byte >= b'a' && byte <= b'f')
}

/// The value of a hexadecimal digit.
#[tactic(auto, unfolding(crate::specs::Digits::digit))]
pub(crate) fn digit(byte: u8) -> u8
    requires { IsTrue (is_hex byte) }
    ensures value { result ≡ digit byte }
    ensures small { result < 16 }
{
    if byte <= b'9' {
        byte - b'0'
    } else if byte <= b'F' {
        byte - b'A' + 10
    } else {
        byte - b'a' + 10
    }
}

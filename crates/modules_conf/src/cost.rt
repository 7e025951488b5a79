//! The cost of a module line.

ghost use Rattle.std.specs.Prelude.{◌≡◌, map};
ghost use Rattle.modules_conf.specs.Cost.{cost_number, cost_of, is_digit};

use crate::limits::MOST_COST;

/// Whether a byte is a decimal digit.
fn is_digit(byte: u8) -> bool
    ensures { result ≡ is_digit byte }
{
    byte.is_ascii_digit()
}

/// The number that a word is, where it has digits alone and is in range.
fn cost_number(word: &[u8]) -> Option<u32>
    ensures { result ≡ cost_number word.now }
{
    let mut value: u64 = 0;
    for byte in word {
        if !is_digit(*byte) {
            return None;
        }
        value = (value * 10 + u64::from(*byte - b'0')).min(2147483648);
    }
    if value >= 1 && value <= u64::from(MOST_COST) {
        Some(value as u32)
    } else {
        None
    }
}

/// The cost that the words behind the module's give: 1, unless the first of them is a cost.
pub(crate) fn cost(more: &[&[u8]]) -> u32
    ensures { result ≡ cost_of (map (λ word. word.now) more.now) }
{
    let Some(word) = more.first() else {
        return 1;
    };
    match cost_number(word) {
        Some(value) => value,
        None => 1,
    }
}

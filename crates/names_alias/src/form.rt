//! The normal form of a text, by one scan from left to right.

ghost use Rattle.std.specs.Prelude.{◌≡◌, ◌≤◌, ◌<◌, ◌+◌, ℕ, List, [], ◌∷◌, ◌++◌, length};
ghost use Rattle.text_lines.specs.Limits.{longest_text};
ghost use Rattle.names_alias.specs.NameForm.{to_upper, is_kept, normal_of, checked_name};
ghost use Rattle.names_alias.specs.Scan.{so_far, tail_at};
ghost use Rattle.names_alias.specs.Front.{IsFrontOf};

use crate::fault::NameFault;
use crate::front::Front;
use crate::name::Name;

/// Whether a name keeps a byte, which is no small letter.
fn keeps(byte: u8) -> bool
    ensures { result ≡ is_kept byte }
{
    byte.is_ascii_uppercase()
        || byte.is_ascii_digit()
        || byte == b'_'
        || byte == b'-'
        || byte == b'.'
        || byte == b','
        || byte == b':'
        || byte == b'/'
}

/// A letter in upper case.
fn upper(byte: u8) -> u8
    ensures { result ≡ to_upper byte }
{
    if byte >= b'a' && byte <= b'z' {
        byte - 32
    } else {
        byte
    }
}

/// The list with the slashes that it lacks.
fn padded(mut front: Front, slashes: u32) -> Front
    requires few { slashes ≤ 2 }
    requires room { front.len ≤ longest_text }
    ensures { (head tail : List ℕ) → IsFrontOf front (so_far slashes head tail)
        → IsFrontOf result (so_far 2 head (tail_at slashes tail)) }
{
    match slashes {
        0 => {
            front.push(b'/');
            front.push(b'/');
            front
        }
        1 => {
            front.push(b'/');
            front
        }
        _ => front,
    }
}

/// The name that the list makes, where it has a first part and room.
fn finish(front: Front, first: u32) -> Result<Name, NameFault>
    ensures { (head tail : List ℕ) → IsFrontOf front (so_far 2 head tail) → first ≡ length head
        → result ≡ checked_name head tail }
{
    if first == 0 {
        return Err(NameFault::Empty);
    }
    if front.len > 64 {
        return Err(NameFault::LongName { len: front.len });
    }
    Ok(Name::from_buffer(front.bytes))
}

/// The normal form of a text: its letters in upper case, and of all its bytes the letters, the
/// digits and `_`, `-`, `.`, `,`, `:` and `/`. It is cut before its third slash, and ends with the
/// slashes that it lacks of two. A suffix is told before a missing first part, and that before a
/// name that is too long.
pub fn normal(text: &[u8]) -> Result<Name, NameFault>
    requires { length text.now ≤ longest_text }
    ensures { result ≡ normal_of text.now }
{
    let mut front = Front::new();
    let mut first: u32 = 0;
    let mut slashes: u32 = 0;
    for (at, byte) in text.iter().enumerate() {
        let byte = upper(*byte);
        if !keeps(byte) {
            continue;
        }
        if byte == b'/' {
            if slashes == 2 {
                return finish(padded(front, slashes), first);
            }
            slashes += 1;
        } else if slashes == 2 {
            return Err(NameFault::Suffix { at: at as u32 });
        } else if slashes == 0 {
            first += 1;
        }
        front.push(byte);
    }
    finish(padded(front, slashes), first)
}

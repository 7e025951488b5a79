//! The words that name charmaps.

ghost use Rattle.std.specs.Prelude.{◌≡◌, None, Some, if◌then◌else◌};
ghost use Rattle.std.specs.List.{list_all};
ghost use Rattle.modules_conf.specs.Charmaps.{is_charmap_byte, is_charmap_word};

use names_alias::Word;

/// Whether a byte may stand in a charmap word.
fn is_charmap_byte(byte: u8) -> bool
    ensures { result ≡ is_charmap_byte byte }
{
    byte.is_ascii_uppercase()
        || byte.is_ascii_lowercase()
        || byte.is_ascii_digit()
        || byte == b'_'
        || byte == b'-'
        || byte == b'.'
        || byte == b','
        || byte == b':'
        || byte == b'+'
        || byte == b'('
        || byte == b')'
}

/// Whether all bytes may stand in a charmap word.
fn has_charmap_bytes(bytes: &[u8]) -> bool
    ensures { result ≡ list_all is_charmap_byte bytes.now }
{
    bytes.iter().all(|byte| is_charmap_byte(*byte))
}

/// The charmap word of these bytes, if they are one.
pub(crate) fn charmap_word(bytes: &[u8]) -> Option<Word>
    ensures { result ≡ (if is_charmap_word bytes.now then Some bytes.now else None) }
{
    if !has_charmap_bytes(bytes) {
        return None;
    }
    let word = Word::new(bytes)?;
    if bytes[0] == b'.' {
        return None;
    }
    Some(word)
}

//! The words of a line that have an effect.

ghost use Rattle.std.specs.Prelude.{◌≡◌};
ghost use Rattle.charmap_reader.specs.Rows.{row_of, is_skipped};

use text_lines::next_word;

/// The first two words of a line. An empty one stands for a word that isn't there.
pub(crate) fn two_words(line: &[u8]) -> (&[u8], &[u8])
    ensures first { result.0.now ≡ (row_of line.now).first }
    ensures second { result.1.now ≡ (row_of line.now).second }
{
    let Some((first, behind)) = next_word(line) else {
        return (&[], &[]);
    };
    match next_word(behind) {
        None => (first, &[]),
        Some((second, _)) => (first, second),
    }
}

/// Whether a line with this first word is passed over.
pub(crate) fn is_skipped(comment: u8, first: &[u8]) -> bool
    ensures { result ≡ is_skipped comment first.now }
{
    first.is_empty() || first[0] == comment
}

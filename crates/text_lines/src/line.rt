//! The lines of a text, one after another.

ghost use Rattle.std.specs.Prelude.{◌≡◌, ◌+◌, ◌<◌, ◌≤◌, ◌∷◌, [], length, IfSome, MatchOption};
ghost use Rattle.text_lines.specs.Lines.{lines};

use memchr::memchr;

/// The first line of `text`, without its newline, and what stands behind the newline.
pub fn next_line(text: &[u8]) -> Option<(&[u8], &[u8])>
    ensures found { MatchOption result (text.now ≡ []) (λ r. lines text.now ≡ r.0.now ∷ lines r.1.now) }
    ensures sized { IfSome result (λ r. length r.0.now + length r.1.now ≤ length text.now) }
    ensures shorter { IfSome result (λ r. length r.1.now < length text.now) }
{
    if text.is_empty() {
        return None;
    }
    match memchr(b'\n', text) {
        None => Some((text, &[])),
        Some(at) => Some((&text[..at], &text[at + 1..])),
    }
}

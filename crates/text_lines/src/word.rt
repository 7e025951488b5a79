//! The words of a line, one after another.

ghost use Rattle.std.specs.Prelude.{◌≡◌, ◌<◌, ◌≤◌, ◌∷◌, [], ℕ, true, false, length, map, take, drop, slice_index, All, IfSome, MatchOption};
ghost use Rattle.text_lines.specs.Words.{is_blank, words};

use arrayvec::ArrayVec;

/// Whether a byte parts words.
fn is_blank(byte: u8) -> bool
    ensures { result ≡ is_blank byte }
{
    byte <= b' ' && (byte == b' ' || (byte >= 9 && byte <= 13 && byte != 10))
}

/// Where the first word starts; the length where there is none.
fn word_start(line: &[u8]) -> usize
    ensures within { result ≤ length line.now }
    ensures same { words (drop result line.now) ≡ words line.now }
    ensures stops { result < length line.now → is_blank (slice_index line.now result) ≡ false }
{
    let mut at = 0;
    while at < line.len() && is_blank(line[at]) {
        at += 1;
    }
    at
}

/// Where the first blank stands; the length where there is none.
fn word_end(line: &[u8]) -> usize
    ensures within { result ≤ length line.now }
    ensures each { (k : ℕ) → k < result → is_blank (slice_index line.now k) ≡ false }
    ensures stops { result < length line.now → is_blank (slice_index line.now result) ≡ true }
{
    let mut at = 0;
    while at < line.len() && !is_blank(line[at]) {
        at += 1;
    }
    at
}

/// The first word of `line`, and what stands behind it.
pub fn next_word(line: &[u8]) -> Option<(&[u8], &[u8])>
    ensures found { MatchOption result (words line.now ≡ []) (λ r. words line.now ≡ r.0.now ∷ words r.1.now) }
    ensures sized { IfSome result (λ r. (0 < length r.0.now) × (length r.0.now ≤ length line.now)) }
    ensures shorter { IfSome result (λ r. length r.1.now < length line.now) }
{
    let rest = &line[word_start(line)..];
    if rest.is_empty() {
        return None;
    }
    let end = word_end(rest);
    Some((&rest[..end], &rest[end..]))
}

/// The first words of `line`, at most `N`.
pub fn first_words<const N: usize>(line: &[u8]) -> ArrayVec<&[u8], N>
    ensures value { map (λ word. word.now) result.items ≡ take N (words line.now) }
    ensures sized { All (λ word. (0 < length word.now) × (length word.now ≤ length line.now)) result.items }
{
    let mut found = ArrayVec::new();
    let mut rest = line;
    for _ in 0..N {
        match next_word(rest) {
            None => return found,
            Some((word, behind)) => {
                found.push(word);
                rest = behind;
            }
        }
    }
    found
}

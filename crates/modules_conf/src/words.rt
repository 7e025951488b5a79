//! What the words of one line of a gconv-modules text stand for.

ghost use Rattle.std.specs.Prelude.{◌≡◌, ◌==◌, ◌<◌, ◌≤◌, length, map, take, All};
ghost use Rattle.std.specs.List.{before_first, position};
ghost use Rattle.text_lines.specs.Limits.{longest_text};
ghost use Rattle.modules_conf.specs.Modules.{conf_words, edge_line, alias_line};

use crate::cost::cost;
use crate::lines::{AliasLine, EdgeLine};
use arrayvec::ArrayVec;
use names_alias::{Word, normal};
use text_lines::first_words;

/// The place of the first `#`.
fn comment_at(line: &[u8]) -> Option<usize>
    ensures { result ≡ position (λ byte. byte == 35) line.now }
{
    line.iter().position(|byte| *byte == b'#')
}

/// A line up to its first `#`.
fn before_comment(line: &[u8]) -> &[u8]
    ensures value { result.now ≡ before_first (λ byte. byte == 35) line.now }
    ensures within { length result.now ≤ length line.now }
{
    match comment_at(line) {
        None => line,
        Some(at) => &line[..at],
    }
}

/// The first five words of a line, on which its meaning hangs.
pub(crate) fn front_words(line: &[u8]) -> ArrayVec<&[u8], 5>
    requires { length line.now ≤ longest_text }
    ensures value { map (λ word. word.now) result.items ≡ take 5 (conf_words line.now) }
    ensures sized { All (λ word. (0 < length word.now) × (length word.now ≤ longest_text)) result.items }
{
    first_words::<5>(before_comment(line))
}

/// The module line that words are, if they are one.
pub(crate) fn read_edge(line: u32, words: &[&[u8]]) -> Option<EdgeLine>
    requires { All (λ word. (0 < length word.now) × (length word.now ≤ longest_text)) words.now }
    ensures { result ≡ edge_line line (map (λ word. word.now) words.now) }
{
    let [key, source, target, bound, more @ ..] = words else {
        return None;
    };
    if *key != b"module".as_slice() {
        return None;
    }
    let Ok(source) = normal(source) else {
        return None;
    };
    let Ok(target) = normal(target) else {
        return None;
    };
    let module = Word::new(bound)?;
    Some(EdgeLine {
        line,
        source,
        target,
        module,
        cost: cost(more),
    })
}

/// The alias line that words are, if they are one.
pub(crate) fn read_alias(line: u32, words: &[&[u8]]) -> Option<AliasLine>
    requires { All (λ word. (0 < length word.now) × (length word.now ≤ longest_text)) words.now }
    ensures { result ≡ alias_line line (map (λ word. word.now) words.now) }
{
    let [key, alias, original, ..] = words else {
        return None;
    };
    if *key != b"alias".as_slice() {
        return None;
    }
    let Ok(alias) = normal(alias) else {
        return None;
    };
    let Ok(original) = normal(original) else {
        return None;
    };
    Some(AliasLine {
        line,
        alias,
        original,
    })
}

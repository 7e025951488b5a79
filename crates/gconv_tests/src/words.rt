//! Words and numbers of a line, and how answers are written.

ghost use Rattle.std.specs.Prelude.{◌≤◌, length};
ghost use Rattle.text_lines.specs.Limits.{longest_text};

use text_lines::LONGEST_TEXT;

/// The first four words of a line; the fourth one goes on to its end.
pub fn words_of(line: &str) -> [&str; 4] {
    let mut words = [""; 4];
    for (at, word) in line.splitn(4, ' ').enumerate() {
        if at < 4 {
            words[at] = word;
        }
    }
    words
}

/// The number that a word spells; 0 where it spells none.
pub fn number(word: &str) -> u32 {
    match word.parse::<u32>() {
        Ok(number) => number,
        Err(_) => 0,
    }
}

/// The bytes of a text that a reader takes; none where it is too long.
pub fn short(text: &str) -> &[u8]
    ensures { length result.now ≤ longest_text }
{
    let bytes = text.as_bytes();
    if bytes.len() <= LONGEST_TEXT as usize {
        bytes
    } else {
        b""
    }
}

/// The text of bytes that are one.
pub fn text_of(bytes: &[u8]) -> &str {
    match str::from_utf8(bytes) {
        Ok(text) => text,
        Err(_) => "?",
    }
}

/// Appends words, where there is memory for them.
pub fn say(text: &mut String, words: &str) {
    let _ = text.push_str(words);
}

/// Appends a number.
pub fn say_number(text: &mut String, number: u64) {
    let _ = write!(text, "{number}");
}

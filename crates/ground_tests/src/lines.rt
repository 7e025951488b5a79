//! Each call once on its happy path, with the line ends and blanks that files have.

use text_lines::{first_words, next_line, next_word};

#[test]
fn parts_lines(rt: HostRuntime) {
    let text = b"ab\r\n\nc".as_slice();
    let mut lengths = [0; 4];
    let mut rest = text;
    for length in &mut lengths {
        if let Some((line, behind)) = next_line(rest) {
            *length = line.len() + 1;
            rest = behind;
        }
    }
    assert_eq!(rt; lengths, [4, 1, 2, 0]);
    assert!(rt; next_line(b"").is_none());
}

#[test]
fn parts_words(rt: HostRuntime) {
    let line = b"\tmodule  SA//\x0B\x0CINTERNAL TA 1 \r".as_slice();
    let words = first_words::<4>(line);
    assert_eq!(rt; words.len(), 4);
    assert!(rt; words.as_slice() == [b"module".as_slice(), b"SA//", b"INTERNAL", b"TA"].as_slice());
    assert_eq!(rt; first_words::<9>(line).len(), 5);
    let (word, behind) = next_word(b" a b").unwrap_or((b"", b""));
    assert!(rt; word == b"a".as_slice() && behind == b" b".as_slice());
    assert!(rt; next_word(b" \t\r").is_none());
}

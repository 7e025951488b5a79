//! Look-ups along words.

ghost use Rattle.std.specs.Prelude.{◌≡◌, ◌<◌, ◌+◌, ◌^◌, List, length, ◌∷◌, Some};
ghost use Rattle.trie.specs.Leaf.{Leaf};
ghost use Rattle.trie.specs.Look.{look_of};
ghost use Rattle.trie.specs.Trie.{IsTrieAt};
ghost use Rattle.trie.specs.Pages.{IsPageIn};
ghost use Rattle.trie.specs.Words.{page_in, word_in, walk_words};

use crate::words::{HIT, REF, Words};

/// What is found along a string of bytes.
#[derive(Clone, Copy, Debug, PartialEq, Eq)]
pub enum Walk {
    /// The first `used` bytes are a path, with this word.
    Word { word: u64, used: usize },
    /// A path goes on from the bytes.
    Inside,
    /// No path begins with the bytes, and they begin with none.
    Outside,
}

/// The page that a word refers to.
#[inline(always)]
pub fn page_in(word: u64) -> Option<u32>
    ensures { result ≡ page_in word }
{
    if word / (1 << 32) == REF / (1 << 32) {
        Some((word % (1 << 32)) as u32)
    } else {
        None
    }
}

/// Walks along bytes from a page, behind so many bytes that led there.
#[inline(always)]
fn along<W: Words>(words: &mut W, first: u32, behind: usize, bytes: &[u8]) -> Walk
    requires ready { W.ready words.old }
    requires page { IsPageIn (W.words words.old) first }
    requires few { behind + length bytes.now < 2 ^ 64 }
    ensures value { result ≡ walk_words (W.words words.old) first behind bytes.now }
    ensures same { W.words words.new ≡ W.words words.old }
    ensures ready { W.ready words.new }
    ensures kept { W.kept words.old words.new }
{
    let mut page = first;
    let mut used = behind;
    for byte in bytes {
        let word = words.word(page, *byte);
        used += 1;
        if word >= HIT {
            return Walk::Word {
                word: word - HIT,
                used,
            };
        }
        match page_in(word) {
            Some(next) => page = next,
            None => return Walk::Outside,
        }
    }
    Walk::Inside
}

/// What some bytes lead to, where the pages of a trie stand among the words from page `first` on.
/// It reads one word for each byte of the path, and at most four.
#[inline(always)]
pub fn look<W: Words>(words: &mut W, first: u32, bytes: &[u8]) -> Walk
    requires ready { W.ready words.old }
    requires trie { (leaves : List Leaf) × IsTrieAt leaves first (W.words words.old) }
    requires some { 0 < length bytes.now }
    // Whichever trie stands there.
    ensures value { (leaves : List Leaf) → IsTrieAt leaves first (W.words words.old) →
        result ≡ look_of leaves bytes.now }
    ensures same { W.words words.new ≡ W.words words.old }
    ensures ready { W.ready words.new }
    ensures kept { W.kept words.old words.new }
{
    along(words, first, 0, bytes)
}

/// What a byte and those behind it lead to, where the word at the byte is known to refer to page
/// `next`: it reads one word less than [`look`].
#[inline(always)]
pub fn look_on<W: Words>(words: &mut W, first: u32, byte: u8, next: u32, rest: &[u8]) -> Walk
    requires ready { W.ready words.old }
    requires trie { (leaves : List Leaf) × IsTrieAt leaves first (W.words words.old) }
    requires leads { page_in (word_in (W.words words.old) first byte) ≡ Some next }
    requires few { 1 + length rest.now < 2 ^ 64 }
    // Whichever trie stands there.
    ensures value { (leaves : List Leaf) → IsTrieAt leaves first (W.words words.old) →
        result ≡ look_of leaves (byte ∷ rest.now) }
    ensures same { W.words words.new ≡ W.words words.old }
    ensures ready { W.ready words.new }
    ensures kept { W.kept words.old words.new }
{
    let _ = (first, byte);
    along(words, next, 1, rest)
}

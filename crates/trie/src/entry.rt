//! What a trie is made from.

use std::marker::Model;

/// A string of 1 to 4 bytes and the word that it leads to, which is below 2^62.
#[derive(Drop)]
pub struct Entry {
    pub(crate) bytes: [u8; 4],
    pub(crate) count: u8,
    pub(crate) word: u64,
}

impl Model for Entry {
    ghost use Rattle.std.specs.Prelude.{take, ◌≤◌, ◌<◌, ◌^◌, length};
    ghost use Rattle.trie.specs.Leaf.{Leaf};

    ghost Value = { Leaf };

    ghost view = { λ e. record { path = take e.count e.bytes; word = e.word } };

    ghost invariant = { λ e. (0 < e.count) × (e.count ≤ 4) × (e.word < 2 ^ 62) };
}

impl Entry {
    ghost use Rattle.std.specs.Prelude.{◌≡◌, take, ◌≤◌, ◌<◌, ◌^◌, length};

    /// The first `count` of the bytes, with their word.
    #[inline(always)]
    pub fn new(bytes: [u8; 4], count: usize, word: u64) -> Entry
        requires some { 0 < count }
        requires few { count ≤ 4 }
        requires small { word < 2 ^ 62 }
        ensures { result ≡ record { path = take count bytes; word = word } }
    {
        Entry {
            bytes,
            count: count as u8,
            word,
        }
    }

    /// The string.
    #[inline(always)]
    pub fn path(&self) -> &[u8]
        ensures value { result.now ≡ self.now.path }
        ensures some { 0 < length result.now }
        ensures few { length result.now ≤ 4 }
    {
        &self.bytes[..self.count as usize]
    }

    /// The word.
    #[inline(always)]
    pub fn word(&self) -> u64
        ensures value { result ≡ self.now.word }
        ensures small { result < 2 ^ 62 }
    {
        self.word
    }
}

/// Leaves in some order, each made when it is asked for.
pub trait Leaves {
    ghost use Rattle.std.specs.Prelude.{◌≡◌, ◌<◌, List, length, slice_get, Some};
    ghost use Rattle.trie.specs.Leaf.{Leaf};

    /// All leaves. The first one with a path gives the path's word.
    ghost leaves: { Self → List Leaf };

    /// How many there are.
    fn count(&self) -> usize
        ensures { result ≡ length (leaves self.now) };

    /// The leaf at a place, counted from 0.
    fn leaf(&self, place: usize) -> Entry
        requires { place < length (leaves self.now) }
        ensures { slice_get (leaves self.now) place ≡ Some result };
}

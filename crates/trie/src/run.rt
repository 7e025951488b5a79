//! Leaves one behind the other.

use crate::entry::Entry;
use std::marker::Model;

/// A leaf, and how many more follow it: from each to the next the last byte of the path and the word
/// grow by one.
#[derive(Drop)]
pub struct Run {
    bytes: [u8; 4],
    count: u8,
    more: u8,
    word: u64,
}

impl Model for Run {
    ghost use Rattle.std.specs.Prelude.{take, ◌+◌, ◌-◌, ◌≤◌, ◌<◌, ◌^◌, length, get_or};
    ghost use Rattle.trie.specs.Runs.{Run};

    ghost Value = { Run };

    ghost view = { λ r. record { head = record { path = take r.count r.bytes; word = r.word }; more = r.more } };

    ghost invariant = { λ r. (0 < r.count) × (r.count ≤ 4) × (r.word < 2 ^ 62)
        × (get_or (take r.count r.bytes) (length (take r.count r.bytes) - 1) 0 + r.more < 256) };
}

impl Run {
    ghost use Rattle.std.specs.Prelude.{◌≡◌, ◌+◌, ◌-◌, ◌<◌, ◌≤◌, ◌^◌, take, length, get_or};

    /// A leaf with `more` that follow it: its last byte leaves room for them.
    #[inline(always)]
    pub fn new(head: Entry, more: u8) -> Run
        requires { get_or head.path (length head.path - 1) 0 + more < 256 }
        ensures { result ≡ record { head = head; more = more } }
    {
        let Entry { bytes, count, word } = head;
        Run {
            bytes,
            count,
            more,
            word,
        }
    }

    /// The first leaf's path.
    #[inline(always)]
    pub fn path(&self) -> &[u8]
        ensures value { result.now ≡ self.now.head.path }
        ensures some { 0 < length result.now }
        ensures few { length result.now ≤ 4 }
        ensures room { get_or result.now (length result.now - 1) 0 + self.now.more < 256 }
    {
        &self.bytes[..self.count as usize]
    }

    /// The first leaf's word.
    #[inline(always)]
    pub fn word(&self) -> u64
        ensures value { result ≡ self.now.head.word }
        ensures small { result < 2 ^ 62 }
    {
        self.word
    }

    /// How many leaves follow the first one.
    #[inline(always)]
    pub fn more(&self) -> u8
        ensures { result ≡ self.now.more }
    {
        self.more
    }

    /// How many leaves there are.
    #[inline(always)]
    pub fn count(&self) -> usize
        ensures { result ≡ self.now.more + 1 }
    {
        self.more as usize + 1
    }
}

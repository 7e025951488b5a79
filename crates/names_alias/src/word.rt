//! A word of a configuration.

ghost use Rattle.std.specs.Prelude.{◌≡◌, ◌<◌, ◌≤◌, length};
ghost use Rattle.std.specs.Option.{SomeIff};

use arrayvec::ArrayVec;
use std::marker::Model;

/// A word of 1 to 64 bytes: the name of a module or of a charmap. Words are ordered by their bytes.
#[derive(Debug, PartialEq, Eq, PartialOrd, Ord, Hash, Drop)]
pub struct Word {
    bytes: ArrayVec<u8, 64>,
}

impl Model for Word {
    ghost use Rattle.std.specs.Prelude.{List, ℕ, ◌<◌, length};

    ghost Value = { List ℕ };

    ghost view = { λ word. word.bytes.items };

    ghost invariant = { λ word. 0 < length word.bytes.items };

    ghost inverse = { λ bytes. record { bytes = record { items = bytes } } };
}

impl Word {
    /// The word of these bytes, where they are 1 to 64.
    pub fn new(from: &[u8]) -> Option<Word>
        ensures { SomeIff result ((0 < length from.now) × (length from.now ≤ 64)) from.now }
    {
        if from.is_empty() {
            return None;
        }
        let mut bytes = ArrayVec::<u8, 64>::new();
        bytes.try_extend_from_slice(from).ok()?;
        Some(Word { bytes })
    }

    /// The bytes of the word.
    pub fn as_bytes(&self) -> &[u8]
        ensures value { result.now ≡ self.now }
        ensures some { 0 < length result.now }
        ensures within { length result.now ≤ 64 }
    {
        self.bytes.as_slice()
    }

    /// The same word, without an allocation.
    pub fn copied(&self) -> Word
        ensures { result ≡ self.now }
    {
        let mut bytes = ArrayVec::<u8, 64>::new();
        let from = self.bytes.as_slice();
        let _ = bytes.try_extend_from_slice(from);
        Word { bytes }
    }
}

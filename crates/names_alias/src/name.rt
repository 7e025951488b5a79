//! A name of a character set.

ghost use Rattle.std.specs.Prelude.{◌≡◌, ◌≤◌, length};

use arrayvec::ArrayVec;
use std::marker::Model;

/// A name in its normal form, of at most 64 bytes. Names are ordered by their bytes.
#[derive(Debug, PartialEq, Eq, PartialOrd, Ord, Hash, Drop)]
pub struct Name {
    bytes: ArrayVec<u8, 64>,
}

impl Model for Name {
    ghost use Rattle.std.specs.Prelude.{List, ℕ};

    ghost Value = { List ℕ };

    ghost view = { λ name. name.bytes.items };

    ghost inverse = { λ bytes. record { bytes = record { items = bytes } } };
}

impl Name {
    /// The bytes of the name.
    pub fn as_bytes(&self) -> &[u8]
        ensures value { result.now ≡ self.now }
        ensures within { length result.now ≤ 64 }
    {
        self.bytes.as_slice()
    }

    /// The same name, without an allocation.
    pub fn copied(&self) -> Name
        ensures { result ≡ self.now }
    {
        let mut bytes = ArrayVec::<u8, 64>::new();
        let from = self.bytes.as_slice();
        let _ = bytes.try_extend_from_slice(from);
        Name { bytes }
    }

    /// The name of these bytes, which have their normal form already.
    pub(crate) fn from_bytes(from: &[u8]) -> Name
        requires { length from.now ≤ 64 }
        ensures { result ≡ from.now }
    {
        let mut bytes = ArrayVec::<u8, 64>::new();
        let _ = bytes.try_extend_from_slice(from);
        Name { bytes }
    }

    /// The name of a buffer, whose bytes have their normal form already.
    pub(crate) fn from_buffer(bytes: ArrayVec<u8, 64>) -> Name
        ensures { result ≡ bytes.items }
    {
        Name { bytes }
    }
}

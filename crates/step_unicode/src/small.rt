//! A short string of bytes.

ghost use Rattle.std.specs.Prelude.{◌≡◌, ℕ, ◌≤◌, [], List, length, take};

use std::marker::Model;

/// At most 8 bytes, kept in place.
#[derive(Drop)]
pub struct Small {
    bytes: [u8; 8],
    len: usize,
}

impl Model for Small {
    ghost Value = { List ℕ };

    ghost view = { λ s. take s.len s.bytes };

    ghost invariant = { λ s. s.len ≤ 8 };
}

impl Small {
    /// No bytes.
    pub fn none() -> Self
        ensures { result ≡ [] }
    {
        Small {
            bytes: [0; 8],
            len: 0,
        }
    }

    /// The first `len` of 8 bytes.
    pub fn front(bytes: [u8; 8], len: usize) -> Self
        requires { len ≤ 8 }
        ensures { result ≡ take len bytes }
    {
        Small { bytes, len }
    }

    /// How many bytes there are.
    pub fn len(&self) -> usize
        ensures is { result ≡ length self.now }
        ensures short { result ≤ 8 }
    {
        self.len
    }

    /// The bytes.
    pub fn as_slice(&self) -> &[u8]
        ensures is { result.now ≡ self.now }
        ensures short { length self.now ≤ 8 }
    {
        &self.bytes[..self.len]
    }
}

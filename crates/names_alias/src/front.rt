//! The first bytes of a list that is counted whole.

use arrayvec::ArrayVec;

/// The first 64 bytes of a list of bytes, and how many it has.
#[derive(Drop)]
pub(crate) struct Front {
    pub(crate) bytes: ArrayVec<u8, 64>,
    pub(crate) len: u32,
}

impl Front {
    ghost use Rattle.std.specs.Prelude.{◌≡◌, ◌<◌, ◌+◌, ℕ, List, [], ◌∷◌, ◌++◌};
    ghost use Rattle.names_alias.specs.Front.{IsFrontOf};

    /// The front of no bytes.
    pub(crate) fn new() -> Self
        ensures { IsFrontOf result [] }
    {
        Front {
            bytes: ArrayVec::new(),
            len: 0,
        }
    }

    /// Appends a byte to the list.
    pub(crate) fn push(&mut self, byte: u8)
        requires { self.old.len < 4294967295 }
        ensures len { self.new.len ≡ self.old.len + 1 }
        ensures front { (all : List ℕ) → IsFrontOf self.old all → IsFrontOf self.new (all ++ byte ∷ []) }
    {
        let _ = self.bytes.try_push(byte);
        self.len += 1;
    }
}

//! A set of files: what is taken from it and what is put into it.

use std::alloc::Global;

/// What came of taking a file, or of fetching a text.
#[derive(Debug, PartialEq, Eq, Drop)]
pub enum Taken {
    /// All its bytes.
    Bytes(Vec<u8>),
    /// There is none of that name.
    Absent,
    /// It has more bytes than were wanted.
    TooLarge,
    /// It couldn't be opened or read.
    Failed,
    /// Memory was wanting.
    Memory,
}

/// What came of putting a file.
#[derive(Clone, Copy, Debug, PartialEq, Eq)]
pub enum Put {
    /// The file holds the bytes.
    Done,
    /// The file couldn't be written; it may hold some first bytes of what was put.
    Failed,
    /// Memory was wanting, and nothing was written.
    Memory,
}

/// A set of files by name.
///
/// Two counts say how often each of the calls has failed. A file set in memory tells what it holds;
/// a real one doesn't.
pub trait Files {
    ghost use Rattle.std.specs.Prelude.{◌≡◌, ◌≤◌, IfSome};
    ghost use Rattle.outside.specs.Faults.{Rose};
    ghost use Rattle.outside.specs.Moments.{Outside};
    ghost use Rattle.outside.specs.Shelves.{content_of};
    ghost use Rattle.outside.specs.Takes.{Takes, FitsLimit};
    ghost use Rattle.outside.specs.Puts.{PutsWhereTold};

    /// What the files hold, where it is told, and how often `take` and `put` have failed.
    ghost outside: { Self → Outside };

    /// Takes all bytes of a file, of which at most `limit` are wanted.
    fn take(&mut self, alloc: Global, name: &str, limit: u32) -> Taken
        ensures taken { IfSome (outside self.old).told
            (λ shelf. Takes (content_of shelf name.now) limit result) }
        ensures fits { FitsLimit limit result }
        ensures told { (outside self.new).told ≡ (outside self.old).told }

        ensures count { (outside self.old).takes ≤ (outside self.new).takes }
        ensures failed { result ≡ Taken.Failed →
            Rose (outside self.old).takes (outside self.new).takes }
        ensures puts { (outside self.new).puts ≡ (outside self.old).puts };

    /// Puts bytes to a file, which is made where there is none and otherwise written over.
    fn put(&mut self, alloc: Global, name: &str, bytes: &[u8]) -> Put
        ensures put { PutsWhereTold (outside self.old).told (outside self.new).told
            name.now bytes.now result }

        ensures count { (outside self.old).puts ≤ (outside self.new).puts }
        ensures failed { result ≡ Put.Failed →
            Rose (outside self.old).puts (outside self.new).puts }
        ensures takes { (outside self.new).takes ≡ (outside self.old).takes };
}

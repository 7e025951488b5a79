//! What can be wrong with a charmap text.

ghost use Rattle.std.specs.Prelude.{◌≡◌};
ghost use Rattle.charmap_reader.specs.Faults.{number_of};

use std::alloc::AllocError;

/// The kinds of faults.
#[derive(Clone, Copy, Debug, PartialEq, Eq)]
pub enum MapKind {
    /// No line begins with `CHARMAP`.
    NoStart,
    /// No line is `END CHARMAP`.
    NoEnd,
    /// A header line that isn't read, or a mapping line without a code.
    BadLine,
    /// A first word that isn't a symbol or two with dots between them.
    Symbol,
    /// A second word that isn't one spelled byte after another.
    BadCode,
    /// A code of more than four bytes.
    CodeLength,
    /// A range that ends before it begins, has a surrogate, or whose codes grow longer.
    BadRange,
    /// A text of more than 16,777,216 bytes.
    TooLong,
    /// A text that was compressed by gzip.
    Compressed,
    /// More than 2,097,152 pairs.
    TooManyPairs,
}

impl MapKind {
    /// The number that a report names the kind by. The number 10 is that of overlapping codes,
    /// which are found when a table is built.
    pub fn number(self) -> u32
        ensures { result ≡ number_of self }
    {
        match self {
            MapKind::NoStart => 1,
            MapKind::NoEnd => 2,
            MapKind::BadLine => 3,
            MapKind::Symbol => 4,
            MapKind::BadCode => 5,
            MapKind::CodeLength => 6,
            MapKind::BadRange => 7,
            MapKind::TooLong => 8,
            MapKind::Compressed => 9,
            MapKind::TooManyPairs => 11,
        }
    }
}

/// The first fault of a text.
#[derive(Clone, Copy, Debug, PartialEq, Eq)]
pub struct MapFault {
    pub kind: MapKind,
    /// The number of the line, from 1. It is 0 for a fault of the text as a whole, and the number
    /// of all lines where one is missing.
    pub line: u32,
}

/// Why a text gives no charmap.
#[derive(Clone, Copy, Debug, PartialEq, Eq)]
pub enum ReadFault {
    Text(MapFault),
    /// There was no memory for the pairs.
    Memory,
}

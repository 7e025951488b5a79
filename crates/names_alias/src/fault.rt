//! Why a text names no set.

/// Why a text has no name, or none that a caller may use.
#[derive(Debug, Drop, Clone, Copy, PartialEq, Eq)]
pub enum NameFault {
    /// Something stands behind the second slash; `at` is the place in the text of the first such
    /// byte that a name keeps, from 0.
    Suffix { at: u32 },
    /// Nothing that a name keeps stands before the first slash.
    Empty,
    /// The normal form has `len` bytes, more than 64.
    LongName { len: u32 },
    /// The name is INTERNAL, which no caller may use.
    Reserved,
}

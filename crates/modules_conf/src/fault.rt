//! Why a text is refused.

use std::alloc::AllocError;

/// Why a gconv-modules text is refused.
#[derive(Debug, Drop, Clone, Copy, PartialEq, Eq)]
pub enum ConfFault {
    /// The line is one module line, or one alias line, more than the limit.
    TooManyLines { line: u32 },
    /// An allocation was refused.
    Memory,
}

/// Why a bindings text is refused.
#[derive(Debug, Drop, Clone, Copy, PartialEq, Eq)]
pub enum BindFault {
    /// The second word is no kind of module.
    BadKind { line: u32 },
    /// The line lacks a word, or has one too many for its kind.
    WordCount { line: u32 },
    /// An earlier line binds the same name.
    Twice { line: u32 },
    /// The name is too long, or a charmap word isn't one.
    BadWord { line: u32 },
    /// The line is one more than the limit.
    TooMany { line: u32 },
    /// An allocation was refused.
    Memory,
}

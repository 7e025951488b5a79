//! How long a text may be.

/// The most bytes that a text of a configuration, a charmap, a list of jobs or an input may have.
pub const LONGEST_TEXT: u32 = 16_777_216;

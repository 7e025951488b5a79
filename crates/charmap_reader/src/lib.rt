//! Charmap texts, as POSIX describes them: the pairs of a text, or its first fault.
//!
//! A text has a header up to the line `CHARMAP`, and mapping lines up to the line `END CHARMAP`. It
//! is read in one pass, line by line, and nothing is allocated but the pairs.
#![tactic(auto)]

mod charmap;
mod fault;
mod header;
mod mapping;
mod members;
mod row;
mod signs;

pub use charmap::read_charmap;
pub use code_pairs::{Charmap, Code, Pair};
pub use fault::{MapFault, MapKind, ReadFault};

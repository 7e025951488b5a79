//! Codes, pairs of a code and a point, charmaps, and what a table of such pairs means.
//!
//! A table is the list of its pairs. `specs/Tables.antt` says which point a code has in it, which
//! code a point has, and which tables are well formed.
#![tactic(auto)]

mod charmap;
mod code;
mod pair;

pub use charmap::Charmap;
pub use code::Code;
pub use pair::Pair;

//! Words that strings of one to four bytes lead to, kept in pages of 256 words.
//!
//! A page stands for a front: a string of bytes that some path goes on from. The word behind a front
//! with one byte more is the word of a path, or the number of the page of a longer front, or 0. So a
//! look-up reads one word a byte. `specs/Trie.antt` says which words the pages have, and
//! `specs/Look.antt` what a look-up finds, by the paths alone.
#![tactic(auto)]

mod entry;
mod fill;
mod lengths;
mod levels;
mod marks;
mod overlap;
mod run;
mod trie;
mod walk;
mod words;

pub use entry::{Entry, Leaves};
pub use run::Run;
pub use trie::{Fault, with_trie};
pub use walk::{Walk, look, look_on, page_in};
pub use words::{Flat, Words};

//! Eight points below 10000 hex at once, none a surrogate, in one vector of numbers of 16 bits.
#![tactic(auto)]

mod ends;
mod fours;
mod pick;
mod read;
mod rows;
mod short;
mod stores;
mod units;
mod utf8;
mod words;

pub use ends::{Ends, ReadEnds, load_ends};
pub use fours::put_ends_in_fours;
pub use pick::{put_ends_high_first, put_ends_low_first};
pub use read::{Read, load_utf8};
pub use units::{
    Wide, load_high_first, load_in_fours, load_low_first, put_high_first, put_in_fours,
    put_low_first,
};
pub use utf8::put_utf8;

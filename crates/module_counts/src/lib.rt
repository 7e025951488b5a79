//! The bookkeeping of one thread: a journal of openings and closings, the modules that they keep, and
//! the pages of these modules' tables. It has no tables.
#![tactic(auto)]

mod ages;
mod counts;
mod homes;
mod lives;
mod stock;
mod store;

pub use counts::Counts;

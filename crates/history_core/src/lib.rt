//! One history for all threads: a turn that one caller at most has, a value that stands for the
//! history, passes that have seen a beginning of it, and side words that stand while a number has
//! them pinned.
#![tactic(auto)]

mod hall;
mod plays;
mod rule;
mod story;
mod tokens;
mod turn;

pub use story::Story;
pub use tokens::{Hall, Lead, NoHall, Pass, Turn};

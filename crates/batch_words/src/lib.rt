//! What the words of the program ask for: the short form is read by hand, the long form by `clap`.
#![tactic(auto)]

mod command;
mod limits;
mod requests;
mod words;

pub use limits::{LONGEST_NAME, MOST_NUMBER, MOST_PAGES, MOST_WORKERS};
pub use requests::{Plan, PlanSource, Refusal, Words};
pub use words::words_of;

//! A whole batch: what the words ask for is run, over the files, the library and the sink that are
//! handed in.
//!
//! The runtime is a parameter of all but `run`, once over the library that is handed in, and once over
//! the charmaps of an input that the run makes itself.
#![tactic(auto)]

mod alone;
mod ends;
mod made;
mod made_texts;
mod program;
mod with_workers;
mod words;

pub use alone::run_plan;
pub use ends::{end_memory, end_usage};
pub use program::run;
pub use with_workers::run_words_with_workers;
pub use words::run_words;

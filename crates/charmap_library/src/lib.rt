//! Charmap texts from a library, and the tables of modules that they give.
#![tactic(auto)]

mod fetch;
mod texts;

pub use fetch::fetch_missing;
pub use texts::{BuildFault, build_table};

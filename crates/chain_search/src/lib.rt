//! The least chain of conversions from one node of the graph to another.
#![tactic(auto)]

mod chain;
mod frontier;
mod laws;
mod relax;
mod search;
mod step;
mod table;
mod trace;

pub use chain::{Chain, Ordinals};
pub use laws::least_chains_are_short;
pub use search::least;

//! Histories of openings and closings of conversions: what the entries of a journal do, which modules
//! they keep resident, in which pages the tables of these stand, and which histories are legal.
#![tactic(auto)]

mod entries;
mod laws;
mod loads;
mod module_tables;
mod refusals;

pub use entries::{Entry, Event, Reply};
pub use laws::pinned_stays;
pub use loads::{Load, Loads};
pub use module_tables::ModuleTables;
pub use refusals::{Asked, End, Refusal, TextFault};

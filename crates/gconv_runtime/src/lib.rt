//! A runtime of conversions: callers open, convert and close over one history, with the tables in
//! shared pages.
//!
//! `specs/Tokens.antt` says what a runtime knows of its callers, and which descriptors they own.
#![tactic(auto)]

mod calls;
mod closing;
mod converting;
mod fields;
mod hearing;
mod held;
mod knowing;
mod making;
mod opening;
mod tokens;

pub use held::Held;
pub use tokens::{Caller, Closed, Descriptor, Front, Gconv, Holding, Known, Lead, NoMemory};

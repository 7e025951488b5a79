//! What a run of a batch of conversions does: which inputs it takes, what comes of each job, what it
//! puts and writes, and for which cause it ends. Each fault of the outside has its place in it.
//!
//! The crate has definitions and laws. `specs/Runs.antt` says what a run has done, by the cause of
//! its end; `specs/Plain.antt` what a batch means that meets no fault.
#![tactic(auto)]

mod cause;
mod laws;
mod misses;

pub use cause::{Cause, InputKind, Output, Stop, Which};
pub use laws::{fair_runs_complete, one_batch, shared_jobs_are_all};
pub use misses::Miss;

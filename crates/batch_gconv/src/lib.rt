//! The runtime of many callers as a batch with workers runs over it: a job's pair is opened, its
//! input converted, and the pair closed.
#![tactic(auto)]

mod many_threads;
mod starting;
mod whole;
mod work;

pub use many_threads::ManyThreads;

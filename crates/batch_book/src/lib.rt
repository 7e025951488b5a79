//! The runtime of one thread as a batch runs over it: a job's pair is opened, its input converted, and
//! the pair closed.
#![tactic(auto)]

mod one_thread;
mod work;

pub use one_thread::OneThread;

//! Numbers of jobs, which threads draw from one queue, each number once.
#![tactic(auto)]

mod board;
mod hand;
mod rule;

pub use board::{Board, Drawer};

//! A count of steps that contracts see and that costs nothing when the program runs.
#![tactic(auto)]

mod steps;

pub use steps::Steps;

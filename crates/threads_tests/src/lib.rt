//! Tests of the floor threads: each with two threads, bounded in what they do.
#![tactic(auto)]

#[cfg(test)]
mod boards;

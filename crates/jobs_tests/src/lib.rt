//! Tests of the texts around a batch: worked examples, each fault of a list of jobs, and how many jobs
//! there may be.
#![tactic(auto)]

#[cfg(test)]
mod texts;

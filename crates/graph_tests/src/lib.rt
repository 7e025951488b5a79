//! Tests of the floor graph: worked examples of names, configurations and least chains, and their limits.
#![tactic(auto)]

#[cfg(test)]
mod chains;
#[cfg(test)]
mod configurations;
#[cfg(test)]
mod graphs;
#[cfg(test)]
mod names;
#[cfg(test)]
mod small;
#[cfg(test)]
mod texts;

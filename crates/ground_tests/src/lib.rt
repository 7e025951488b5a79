//! Tests of the floor ground: each call once on its happy path, and what no clause says.
#![tactic(auto)]

#[cfg(test)]
mod codes;
#[cfg(test)]
mod counter;
#[cfg(test)]
mod lines;
#[cfg(test)]
mod places;

//! Tests of the floor tables: worked examples, and sizes that real charmaps have.
#![tactic(auto)]

#[cfg(test)]
mod looks;
#[cfg(test)]
mod spelled;
#[cfg(test)]
mod texts;

//! Tests of the floor sets: units and spellings as the standards show them.
#![tactic(auto)]

#[cfg(test)]
mod iso2022jp;
#[cfg(test)]
mod pairs;
#[cfg(test)]
mod tables;
#[cfg(test)]
mod unicode;

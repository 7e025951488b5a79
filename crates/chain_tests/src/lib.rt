//! Tests of the floor chains: calls with room, kernels at each place where they may end, and streams in
//! every cut.
#![tactic(auto)]

#[cfg(test)]
mod calls;
#[cfg(test)]
mod kernels;
#[cfg(test)]
mod runs;
#[cfg(test)]
mod small_tables;
#[cfg(test)]
mod streams;

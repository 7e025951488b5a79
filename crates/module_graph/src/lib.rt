//! The graph of conversions that a configuration and its bindings stand for.
//!
//! Its nodes are names of sets, its edges conversions between them. Six sets are built in, each
//! with an edge to `INTERNAL//` and one from it; the module lines of the configuration give the
//! others.
#![tactic(auto)]

mod bound;
mod build;
mod by_target;
mod draft;
mod edge;
mod graph;
mod laws;

pub use edge::Edge;
pub use graph::Graph;
pub use laws::{edges_are_found, modules_name_charmaps};

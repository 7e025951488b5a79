//! Edges of the graph.

/// A conversion from the node `source` to the node `target`.
///
/// Nodes and modules are numbers from 0. A built-in conversion has no module. The cost is 1 to
/// 2,147,483,647.
#[derive(Clone, Copy, Debug)]
pub struct Edge {
    pub ordinal: u32,
    pub source: u32,
    pub target: u32,
    pub cost: u32,
    pub module: Option<u32>,
}

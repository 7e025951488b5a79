//! What was counted.

use std::fmt;

/// Counts of a configuration, of its graph, and of the chains that were found in it.
#[derive(Clone, Copy, Debug)]
pub struct Report {
    pub lines: usize,
    pub aliases: usize,
    pub passed: u32,
    pub nodes: u32,
    pub edges: usize,
    pub modules: u32,
    pub skipped: u32,
    pub searches: u32,
    pub found: u32,
    pub longest: usize,
}

impl fmt::Display for Report {
    fn fmt<W: fmt::Write>(&self, f: &mut fmt::Formatter<W>) -> fmt::Result {
        write!(
            f,
            "module lines {} aliases {} passed over {}",
            self.lines, self.aliases, self.passed
        )?;
        write!(
            f,
            "\nnodes {} edges {} modules {} skipped {}",
            self.nodes, self.edges, self.modules, self.skipped
        )?;
        write!(
            f,
            "\nsearches {} found {} longest {} looks at most {} each",
            self.searches, self.found, self.longest, self.edges
        )
    }
}

//! What words ask for.

/// Where the jobs come from.
#[derive(Drop)]
pub enum PlanSource {
    /// Three texts by the names of their files, and the directory of the charmaps.
    Texts {
        modules: String,
        bindings: String,
        charmaps: String,
        jobs: String,
    },
    /// One job in the empty configuration.
    Single {
        from: Vec<u8>,
        to: Vec<u8>,
        input: String,
        output: String,
    },
    /// The jobs that are made for a number, from 1 to 1,000.
    Generated {
        number: u32,
    },
}

/// A run: its jobs, the pages of its store, and the file that its journal is put to, if one is named.
#[derive(Drop)]
pub struct Plan {
    pub source: PlanSource,
    pub pages: u32,
    pub journal: Option<String>,
}

/// A plan, and how many workers it goes to; without workers the asking thread does all jobs.
#[derive(Drop)]
pub struct Words {
    pub plan: Plan,
    pub workers: u32,
}

/// Why words give no plan.
#[derive(Clone, Copy, Debug, PartialEq, Eq)]
pub enum Refusal {
    /// They are no command.
    Usage,
    /// Memory was wanting.
    Memory,
}

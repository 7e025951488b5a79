//! A job, and what can be wrong with a text of jobs.

/// One job: the file IN is converted from one set to another and put to the file OUT. The names of
/// the sets are judged when the job opens its pair. Lines count from 1.
#[derive(Drop)]
pub struct Job {
    pub line: u32,
    pub from: Vec<u8>,
    pub to: Vec<u8>,
    pub input: String,
    pub output: String,
}

/// Why a text of jobs is refused.
#[derive(Debug, Drop, Clone, Copy, PartialEq, Eq)]
pub enum JobFault {
    /// The line hasn't four words.
    WordCount { line: u32 },
    /// The line is one job more than the limit.
    TooMany { line: u32 },
    /// IN or OUT is no text, or holds a byte 00.
    NotText { line: u32 },
    /// An allocation was refused.
    Memory,
}

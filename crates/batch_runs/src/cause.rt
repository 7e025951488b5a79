//! Why a run ended.

use batch_jobs::JobFault;
use modules_conf::{BindFault, ConfFault};

/// A text that a run reads before its jobs.
#[derive(Clone, Copy, Debug, PartialEq, Eq)]
pub enum Which {
    Modules,
    Bindings,
    Jobs,
}

/// What is written behind the outputs.
#[derive(Clone, Copy, Debug, PartialEq, Eq)]
pub enum Output {
    Journal,
    Report,
}

/// Why a text is refused. No fault in it is want of memory.
#[derive(Clone, Copy, Debug, PartialEq, Eq)]
pub enum InputKind {
    Absent,
    TooLarge,
    Conf(ConfFault),
    Bind(BindFault),
    Job(JobFault),
}

/// Why a run ends at one of its texts: it is refused, or taking it failed.
#[derive(Clone, Copy, Debug, PartialEq, Eq)]
pub enum Stop {
    Refused { which: Which, fault: InputKind },
    Faulted { which: Which },
}

/// Why a run ended.
#[derive(Clone, Copy, Debug, PartialEq, Eq)]
pub enum Cause {
    /// Every outcome is good, and everything was written.
    Done,
    /// Some outcome isn't good; journal and report were written.
    Jobs,
    /// The words are no command.
    Usage,
    /// A text is absent, too large or refused.
    Input { which: Which, fault: InputKind },
    /// A text couldn't be taken.
    InputFault { which: Which },
    /// The journal or the report couldn't be written.
    OutFault { which: Output },
    /// Memory was wanting.
    Memory,
}

//! What came of writing one point.

use crate::set::State;

/// What came of writing one point into an output.
#[derive(Clone, Copy, Debug, PartialEq, Eq)]
pub enum Wrote {
    /// So many bytes were written, and the set is in this state.
    Bytes { count: usize, state: State },
    /// The output has less room than the point's bytes; nothing was written.
    Full,
    /// The set hasn't the point; nothing was written.
    Lacks,
}

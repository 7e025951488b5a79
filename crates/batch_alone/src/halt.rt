//! Why the reading of texts ended.

use batch_runs::Stop;

/// Why reading the texts ended.
#[derive(Clone, Copy, Debug, PartialEq, Eq)]
pub enum Halt {
    Stopped(Stop),
    Memory,
}

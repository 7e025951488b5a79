//! Why the input of a job wasn't taken.

/// Why a file wasn't taken.
#[derive(Clone, Copy, Debug, PartialEq, Eq)]
pub enum Miss {
    /// There is no such file.
    NoFile,
    /// It has more bytes than are wanted of it.
    Large,
    /// It couldn't be read.
    Fault,
}

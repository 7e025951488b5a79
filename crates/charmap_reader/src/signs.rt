//! The two characters that a header may change.

/// The characters in force at a line: the one that stands before each spelled byte, and the one
/// that begins a comment line.
#[derive(Clone, Copy, Debug, PartialEq, Eq)]
pub(crate) struct Signs {
    pub(crate) escape: u8,
    pub(crate) comment: u8,
}

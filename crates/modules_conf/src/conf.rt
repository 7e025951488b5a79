//! A configuration.

use crate::lines::{AliasLines, EdgeLines};

/// What a gconv-modules text says: its module lines and its alias lines in order, and how many
/// lines have words and are neither.
#[derive(Drop)]
pub struct Conf {
    pub edges: EdgeLines,
    pub aliases: AliasLines,
    pub passed: u32,
}

//! Which way a text is converted.

use anyhow::{Result, bail};

/// Which way a text is converted.
#[derive(Clone, Copy, Debug, PartialEq, Eq)]
pub enum Direction {
    /// From UTF-8 to the set.
    To,
    /// From the set to UTF-8.
    From,
}

/// The direction that a word names.
pub fn direction_named(word: &str) -> Result<Direction> {
    match word {
        "TO" => Ok(Direction::To),
        "FROM" => Ok(Direction::From),
        _ => bail!("{word:?} is neither TO nor FROM"),
    }
}

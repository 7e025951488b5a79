//! The pairs of a charmap.

use crate::pair::Pair;

/// The pairs of a charmap text in the order of the text, each range as the list of its members.
#[derive(Drop)]
pub struct Charmap {
    pub pairs: Vec<Pair>,
}

//! What stands in the queue, and what is known of those who draw from it.

use std::collections::LinkedList;

/// What stands in the queue: a number, or the mark behind which no number stands.
#[derive(Drop)]
pub enum Ticket {
    Number(u32),
    Stop,
}

/// What contracts know of a drawer. No value of it is made.
///
/// It `leads` where it is the one that `Board::new` gave, is `fresh` while it alone can put numbers
/// in, is `out` from its split to its join, and is `drained` where it knows that no number is left.
/// `all` are the numbers that a leader put in, `away` counts the drawers that it split and hasn't
/// joined.
pub struct Hand {
    pub leads: bool,
    pub fresh: bool,
    pub out: bool,
    pub drained: bool,
    pub away: u64,
    pub all: LinkedList<u32>,
    pub drawn: LinkedList<u32>,
}

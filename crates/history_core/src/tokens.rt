//! The hall, its lead, its passes and its turns.
ghost use Rattle.std.specs.Prelude.{◌≡◌, ◌+◌, ◌<◌, ◌≤◌, ◌^◌, length};

use crate::rule::{HallSeat, HallTable};
use crate::story::Story;

/// What callers share: a value, its one history, and side words.
///
/// The words are a figure of speech. In a hall one caller at a time is served; a pass lets a caller
/// in, and the lead gives passes out and takes them back.
pub struct Hall<S: Story> {
    pub(crate) table: HallTable<S>,
    pub ghost few: { table.shared.key.words < 2 ^ 32 },
    ghost wide: { table.shared.table_id.words ≡ table.shared.key.words + 2 },
}

/// The right of one caller to take turns, and to read what its number has pinned.
///
/// Its *front* is the beginning of the history that it has seen; its *mine* is the positions of its
/// own entries, all of which lie in its front. A pass that is dropped stays away for good.
#[derive(Drop)]
pub struct Pass<S: Story> {
    pub(crate) seat: HallSeat<S>,
    pub(crate) number: u32,
    pub(crate) seen: u64,
    ghost number_is: { number ≡ seat.me.0.number },
    ghost seen_is: { seen ≡ length seat.me.0.front },
    ghost is_pass: { 0 < number },
}

/// The right to split passes off, to join them again, and to close the hall. It has a front too.
///
/// A pass is *away* from its splitting to its join.
#[derive(Drop)]
pub struct Lead<S: Story> {
    pub(crate) seat: HallSeat<S>,
    pub(crate) away: u32,
    pub(crate) given: u64,
    pub(crate) seen: u64,
    ghost leads: { seat.me.0.number ≡ 0 },
    ghost away_is: { away ≡ seat.me.0.count },
    ghost away_all: { seat.me.0.count ≡ length seat.me.0.away },
    ghost given_is: { given ≡ seat.me.0.given },
    ghost few: { away < given },
    ghost most: { given ≤ 2 ^ 32 },
    ghost seen_is: { seen ≡ length seat.me.0.front },
}

/// There was no memory for a hall.
#[derive(Drop)]
pub struct NoHall<V> {
    pub value: V,
}

/// What one caller at most has at a time. It is ended by `commit` or `leave`, and can't be dropped.
pub struct Turn<'a, S: Story> {
    pub(crate) hall: &'a Hall<S>,
    pub(crate) pass: &'a mut Pass<S>,
    pub(crate) value: S::Value,
}

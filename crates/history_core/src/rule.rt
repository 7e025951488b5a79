//! What the table of a hall holds, what a seat at it knows, and the rule.
use crate::story::Story;
use atomic_table::{Seat, Table, TableRule};
use std::alloc::Global;
use std::collections::LinkedList;
use std::marker::PhantomData;
use std::snapshot::Snapshot;

/// What the one slot has: the value at home; while a turn has the value, an entry that it is about
/// to commit, or nothing.
pub enum Held<V, E> {
    Home(V),
    Committing(E),
    Out,
}

/// What a seat knows. No value of it is made. A spent view, of a pass that was joined, has no
/// setting.
pub struct View<E, T> {
    pub setting: Option<T>,
    pub number: u64,
    /// Whether it has the turn.
    pub served: bool,
    pub front: LinkedList<(u64, E)>,
    /// The side words that were written in this turn, each with its place, the last first.
    pub filled: LinkedList<(u64, u64)>,
    /// Of the lead alone: how many numbers were given, and those that are away.
    pub given: u64,
    pub away: LinkedList<u64>,
    pub count: u64,
    /// Before the last join: the lead's front, and the numbers that were away.
    pub was_front: LinkedList<(u64, E)>,
    pub was_away: LinkedList<u64>,
    /// The passes that were joined, each with its front, the last first.
    pub ended: LinkedList<(u64, LinkedList<(u64, E)>)>,
}

/// What the table is told once: the first value, and how many side words there are.
#[derive(Drop)]
pub struct HallKey<V> {
    pub value: Snapshot<V>,
    pub words: u32,
}

/// The rule that each step keeps.
pub struct HallRule<S> {
    story: PhantomData<S>,
}

impl<S: Story> TableRule<Held<S::Value, S::Entry>, View<S::Entry, S::Setting>, HallKey<S::Value>>
    for HallRule<S> {
    ghost use Rattle.history_core.specs.Rule.{Kept, new_lead};

    ghost holds = { λ key.
        Kept S.setting S.legal S.stands S.pinned key.words (S.setting key.value.value) };

    ghost first = { λ key. new_lead (S.setting key.value.value) };
}

pub type HallTable<S> = Table<
    Held<<S as Story>::Value, <S as Story>::Entry>,
    View<<S as Story>::Entry, <S as Story>::Setting>,
    HallKey<<S as Story>::Value>,
    HallRule<S>,
    Global,
>;

pub type HallSeat<S> = Seat<
    Held<<S as Story>::Value, <S as Story>::Entry>,
    View<<S as Story>::Entry, <S as Story>::Setting>,
>;

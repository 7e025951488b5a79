//! The runtime, its lead, its callers and their descriptors.

use chain_steps::Runner;
use derivation_cache::{Found, Told, View};
use history_core::{Hall, Pass, Story};
use names_alias::{Aliases, NameFault};
use outside::Library;
use page_store::Pin;
use runtime_histories::{End, Entry};
use runtime_room::Room;

/// A runtime.
pub struct Gconv<L: Library> {
    pub(crate) hall: Hall<Room<L>>,
    pub(crate) aliases: Aliases,
}

/// The right to make callers, to end them and to close the runtime. It has the views of the callers
/// that aren't made yet, and all that was published at its front.
pub struct Lead<L: Library>
where
    Room<L>: Story,
{
    pub(crate) lead: history_core::Lead<Room<L>>,
    pub(crate) views: Vec<View>,
    pub(crate) told: Told,
}

/// One who opens descriptors. It knows the chains that were published at its front.
#[derive(Drop)]
pub struct Caller<L: Library>
where
    Room<L>: Story,
{
    pub(crate) pass: Pass<Room<L>>,
    pub(crate) view: View,
    pub(crate) told: Told,
    pub(crate) live: u32,
}

/// A conversion that is open. It has no table, but says in which pages its tables lie.
#[derive(Drop)]
pub struct Descriptor {
    pub(crate) number: u64,
    pub(crate) runner: Runner,
    pub(crate) pins: Vec<Pin>,
}

/// What a caller knows of a pair.
#[derive(Clone, Copy, Debug)]
pub enum Known {
    Found(Found),
    Unknown,
    /// A name can't be used; that of the source is judged first.
    BadName { which: End, fault: NameFault },
}

/// How much an ended caller had seen.
#[derive(Clone, Copy, Debug, PartialEq, Eq)]
pub struct Front {
    pub length: u64,
}

/// A caller that has live descriptors.
pub struct Holding<L: Library>
where
    Room<L>: Story,
{
    pub count: u32,
    pub caller: Caller<L>,
}

/// What is left of a runtime: its library, and its journal.
#[derive(Drop)]
pub struct Closed<L> {
    pub library: L,
    pub journal: Vec<Entry>,
}

/// There was no memory for a runtime.
#[derive(Drop)]
pub struct NoMemory<L> {
    pub library: L,
}

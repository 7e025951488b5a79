//! The runtime's story.

use crate::basis::Basis;
use crate::desk::{Desk, Noted};
use history_core::Story;
use outside::Library;
use page_store::PagedStory;
use std::marker::PhantomData;

/// The story of a runtime over a library.
///
/// A number from 1 is a caller's. It holds the tables of the modules of its live descriptors; the
/// number 0 holds those of all resident modules.
pub struct Room<L> {
    library: PhantomData<L>,
}

impl<L: Library> Story for Room<L> {
    ghost use Rattle.runtime_room.specs.Rooms.{IsHistory, pinned};
    ghost use Rattle.runtime_room.specs.Desks.{IsDeskOf, ground_of};
    ghost use Rattle.runtime_room.specs.RoomLaws.{pinned_stays};

    type Value = Desk<L>;

    type Entry = Noted;

    type Setting = Basis<L>;

    ghost setting = { ground_of L.holdings };

    ghost legal = { IsHistory };

    ghost stands = { IsDeskOf L.holdings };

    ghost pinned = { λ ground log n place. pinned ground log n place };

    ghost stays = { pinned_stays };
}

impl<L: Library> PagedStory for Room<L> {
    ghost use Rattle.runtime_room.specs.Rooms.{holdings};
    ghost use Rattle.runtime_room.specs.RoomLaws.{held_is, held_pinned};

    ghost holds = { holdings };

    ghost are_holdings = { held_is };

    ghost are_pinned = { held_pinned };
}

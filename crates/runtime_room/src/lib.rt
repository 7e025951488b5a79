//! The story of a runtime: one history of openings and closings, and the tables of resident modules
//! in pages of side words.
//!
//! `specs/Rooms.antt` says what a history holds and what it has pinned.
#![tactic(auto)]

mod basis;
mod desk;
mod filling;
mod laws;
mod story;

pub use basis::Basis;
pub use desk::{Desk, Noted};
pub use filling::put_modules;
pub use laws::{opened_pairs_are_published, published_grows};
pub use story::Room;

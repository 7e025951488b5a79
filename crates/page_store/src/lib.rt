//! Tables in the shared pages of a hall: filled in during a turn, and looked up by the passes that
//! hold them, with no turn.
//!
//! Page k is the side words 256 k to 256 k + 255. `specs/Holdings.antt` says what it means that a
//! number holds a table in pages, `specs/Pins.antt` which tables pins stand for.
#![tactic(auto)]

mod filling;
mod page_words;
mod pin;
mod pinned;
mod story;

pub use filling::put_table;
pub use pin::Pin;
pub use pinned::Pinned;
pub use story::PagedStory;

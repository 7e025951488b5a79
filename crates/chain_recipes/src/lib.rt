//! The recipes of chains: which sets a chain reads and writes, and the joints between them.
#![tactic(auto)]

mod recipe;
mod stage;

pub use recipe::recipe_of;
pub use stage::Stage;

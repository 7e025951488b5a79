//! What an opening does to the desk of a turn: it is decided, the tables of its chain get their pins,
//! and it is entered into the books.
#![tactic(auto)]

mod beginning;
mod entering;
mod layouts;
mod pins;
mod points;
mod preparing;
mod publishing;

pub use beginning::{Beginning, begin_on};
pub use entering::enter;
pub use preparing::{Ready, prepare};

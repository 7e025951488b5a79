//! The runtime of one thread: conversions are opened by two names, run, and closed, and a journal
//! has the whole history.
//!
//! A `Book` keeps the journal with its bookkeeping, the tables of resident modules, and for each live
//! descriptor the tables of its chain and where its conversion stands.
#![tactic(auto)]

mod book;
mod descriptor;
mod entering;
mod kept;
mod knowing;
mod lent;
mod preparing;
mod shared;
mod starting;
mod whole;

pub use book::{Book, Closed, NoMemory};
pub use lent::Work;
pub use shared::SharedTables;

//! A run with workers: jobs are drawn from a board, each worker does those that it drew in a thread
//! of its own, over one runtime, and the asking thread puts what they made in the order of the jobs.
#![tactic(auto)]

mod finish;
mod gate;
mod piece;
mod putting;
mod run;
mod settling;
mod shared;
mod sharing;
mod team;
mod threads;
mod worker;

pub use gate::{Gate, OpenGate, Point};
pub use piece::Piece;
pub use run::{run_texts_with_workers, run_with_workers};
pub use shared::Shared;
pub use worker::Worker;

//! The outside of a run: sets of files, libraries of texts and sinks of bytes, in memory and real.
//!
//! Each has a trait that says what a call answers and how it counts its faults. What an object in
//! memory holds is told to the clauses, and what a real one holds isn't.
#![tactic(auto)]

mod dir_library;
mod disk;
mod fault_plan;
mod file_sets;
mod libraries;
mod noted_texts;
mod shelf;
mod shelf_files;
mod shelf_library;
mod shelf_sink;
mod sinks;
mod standard_output;
mod sure_files;
mod sure_library;
mod sure_sink;

pub use dir_library::DirLibrary;
pub use disk::DiskFiles;
pub use fault_plan::FaultPlan;
pub use file_sets::{Files, Put, Taken};
pub use libraries::{Fetched, Library};
pub use shelf::Shelf;
pub use shelf_files::ShelfFiles;
pub use shelf_library::ShelfLibrary;
pub use shelf_sink::ShelfSink;
pub use sinks::{Sent, Sink};
pub use standard_output::StdoutSink;
pub use sure_files::SureFiles;
pub use sure_library::SureLibrary;
pub use sure_sink::SureSink;

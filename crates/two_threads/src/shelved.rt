//! A table with a hall of its own.

use crate::shelf::OneTable;
use history_core::{Hall, Lead};
use page_store::Pin;

/// The hall of a table and its lead, the numbers of the table's pages there, and its one pin.
pub struct Shelved {
    pub hall: Hall<OneTable>,
    pub lead: Lead<OneTable>,
    pub pages: Vec<u32>,
    pub pins: Vec<Pin>,
}

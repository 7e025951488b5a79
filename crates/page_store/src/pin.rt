//! Where a table lies.

use code_table::Layout;

/// The pages of a table, in the order of its page image, and the parts of this, which no look-up could
/// find in the pages without reading most of them.
#[derive(Drop)]
pub struct Pin {
    pub pages: Vec<u32>,
    pub layout: Layout,
}

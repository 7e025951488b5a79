//! What a turn lends.

use code_table::Layout;
use derivation_cache::Cache;
use module_counts::Counts;
use module_graph::Graph;
use names_alias::Aliases;
use runtime_histories::Entry;
use std::snapshot::Snapshot;

/// An entry of the history. The journal has it; contracts alone see it here.
#[derive(Drop)]
pub struct Noted {
    pub entry: Snapshot<Entry>,
}

/// The books, and what openings need: the graph, the library and its directory, of each module the
/// parts of the page images of its tables, as they were when it was loaded last, and the chains that
/// were found before. The aliases stand elsewhere; contracts alone see them here.
#[derive(Drop)]
pub struct Desk<L> {
    pub counts: Counts,
    pub graph: Graph,
    pub aliases: Snapshot<Aliases>,
    pub library: L,
    pub directory: String,
    pub layouts: Vec<Vec<Layout>>,
    pub cache: Cache,
    pub first: Snapshot<L>,
}

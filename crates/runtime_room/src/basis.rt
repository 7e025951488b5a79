//! What the histories of a runtime stand on.

use module_graph::Graph;
use names_alias::Aliases;
use outside::Library;
use std::marker::Model;

/// The configuration, where charmaps come from, the pages of the store, the limit of the journal,
/// and the library as it was handed in. No value of it is made.
#[derive(Drop)]
pub struct Basis<L: Library> {
    graph: Graph,
    aliases: Aliases,
    directory: String,
    library: L,
    pages: u32,
    limit: u32,
}

impl<L: Library> Model for Basis<L> {
    ghost use Rattle.std.specs.Prelude.{string_bytes};
    ghost use Rattle.runtime_room.specs.Grounds.{Ground};

    ghost Value = { Ground };

    ghost view = { λ b. record {
      setting = record {
        first = record { graph = b.graph; aliases = b.aliases };
        source = record {
          directory = string_bytes b.directory;
          texts = (L.holdings b.library).told;
        };
        pages = b.pages;
      };
      limit = b.limit;
      handed = L.holdings b.library;
    } };
}

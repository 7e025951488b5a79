//! A set of files in memory that never fails.

ghost use Rattle.std.specs.Prelude.{◌≡◌, Some, MatchOption};
ghost use Rattle.outside.specs.Shelves.{content_of};
ghost use Rattle.outside.specs.Stored.{shelf_of};

use crate::file_sets::{Files, Put, Taken};
use crate::shelf::Shelf;
use std::alloc::Global;
use std::marker::Model;

/// Files in memory, which tell what they hold and never fail.
#[derive(Drop)]
pub struct SureFiles {
    shelf: Shelf,
}

impl Model for SureFiles {
    ghost use Rattle.std.specs.Prelude.{List};
    ghost use Rattle.outside.specs.Shelves.{File};

    ghost Value = { List File };

    ghost view = { λ s. s.shelf };
}

impl SureFiles {
    /// Files by name, of which the first of a name counts.
    pub fn new(files: Vec<(String, Vec<u8>)>) -> Self
        ensures { result ≡ shelf_of files.items }
    {
        SureFiles {
            shelf: Shelf::new(files),
        }
    }

    /// What a name holds.
    pub fn content(&self, name: &str) -> Option<&[u8]>
        ensures { MatchOption result
            (content_of self.now name.now ≡ None)
            (λ found. content_of self.now name.now ≡ Some found.now) }
    {
        self.shelf.content(name)
    }
}

impl Files for SureFiles {
    ghost outside = { λ s. record { told = Some s; takes = 0; puts = 0 } };

    fn take(&mut self, alloc: Global, name: &str, limit: u32) -> Taken {
        self.shelf.take(alloc, name, limit)
    }

    fn put(&mut self, alloc: Global, name: &str, bytes: &[u8]) -> Put {
        match self.shelf.put(alloc, name, bytes) {
            Ok(()) => Put::Done,
            Err(_) => Put::Memory,
        }
    }
}

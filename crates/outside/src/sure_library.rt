//! A library in memory that never fails.

ghost use Rattle.std.specs.Prelude.{◌≡◌, [], Some};
ghost use Rattle.outside.specs.Stored.{shelf_of, paths_of};

use crate::libraries::{Fetched, Library};
use crate::noted_texts::NotedTexts;
use std::alloc::Global;
use std::marker::Model;

/// Texts in memory, which tell what they are and which paths were asked for, and never fail.
#[derive(Drop)]
pub struct SureLibrary {
    texts: NotedTexts,
}

impl Model for SureLibrary {
    ghost use Rattle.outside.specs.Stored.{Texts};

    ghost Value = { Texts };

    ghost view = { λ s. s.texts };
}

impl SureLibrary {
    /// Texts by path, of which the first of a path counts.
    pub fn new(alloc: Global, texts: Vec<(String, Vec<u8>)>) -> Self
        ensures { result ≡ record { texts = shelf_of texts.items; asked = [] } }
    {
        SureLibrary {
            texts: NotedTexts::new(alloc, texts),
        }
    }

    /// The paths that were asked for, in order; a call that was refused memory isn't among them.
    pub fn reads(&self) -> &[String]
        ensures { paths_of result.now ≡ self.now.asked }
    {
        self.texts.asked()
    }
}

impl Library for SureLibrary {
    ghost holdings = { λ s. record { told = Some s.texts; faults = 0; paths = Some s.asked } };

    fn fetch(&mut self, alloc: Global, path: &str, limit: u32) -> Fetched {
        self.texts.fetch(alloc, path, limit, false)
    }
}

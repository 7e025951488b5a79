//! Texts in memory, which note the paths that they are asked for.

ghost use Rattle.std.specs.Prelude.{◌≡◌, ◌⊎◌, ◌++◌, ◌∷◌, [], IsTrue, OnOk, OnErr};
ghost use Rattle.outside.specs.Shelves.{content_of};
ghost use Rattle.outside.specs.Takes.{Takes, FitsLimit};
ghost use Rattle.outside.specs.Fetches.{asked_after};
ghost use Rattle.outside.specs.Stored.{shelf_of, paths_of};

use crate::libraries::Fetched;
use crate::shelf::Shelf;
use std::alloc::{AllocError, Global};
use std::marker::Model;

/// Texts in memory, and the paths that were asked for.
#[derive(Drop)]
pub struct NotedTexts {
    shelf: Shelf,
    asked: Vec<String>,
}

impl Model for NotedTexts {
    ghost use Rattle.outside.specs.Stored.{Texts, paths_of};

    ghost Value = { Texts };

    ghost view = { λ t. record { texts = t.shelf; asked = paths_of t.asked.items } };
}

/// Notes a path.
fn note(asked: &mut Vec<String>, alloc: Global, path: &str) -> Result<(), AllocError>
    ensures ok { OnOk result
        (paths_of asked.new.items ≡ paths_of asked.old.items ++ path.now ∷ []) }
    ensures err { OnErr result (asked.new.items ≡ asked.old.items) }
{
    asked.push(String::from_str(alloc, path)?)?;
    Ok(())
}

impl NotedTexts {
    /// Texts by path, of which the first of a path counts.
    pub fn new(alloc: Global, texts: Vec<(String, Vec<u8>)>) -> Self
        ensures { result ≡ record { texts = shelf_of texts.items; asked = [] } }
    {
        NotedTexts {
            shelf: Shelf::new(texts),
            asked: Vec::new(alloc),
        }
    }

    /// The paths that were asked for, in order.
    pub fn asked(&self) -> &[String]
        ensures { paths_of result.now ≡ self.now.asked }
    {
        self.asked.as_slice()
    }

    /// Fetches a text, and fails where it is to; where memory isn't wanting, the path is noted.
    pub fn fetch(&mut self, alloc: Global, path: &str, limit: u32, is_to_fail: bool) -> Fetched
        ensures fetched { Takes (content_of self.old.texts path.now) limit result }
        ensures fits { FitsLimit limit result }
        ensures texts { self.new.texts ≡ self.old.texts }
        ensures asked { self.new.asked ≡ asked_after result path.now self.old.asked }
        ensures failed { result ≡ Fetched.Failed → IsTrue is_to_fail }
        ensures memory { IsTrue is_to_fail → (result ≡ Fetched.Failed) ⊎ (result ≡ Fetched.Memory) }
    {
        let fetched = if is_to_fail {
            Fetched::Failed
        } else {
            self.shelf.take(alloc, path, limit)
        };
        if let Fetched::Memory = fetched {
            return fetched;
        }
        match note(&mut self.asked, alloc, path) {
            Ok(()) => fetched,
            Err(_) => Fetched::Memory,
        }
    }
}

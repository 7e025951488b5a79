//! Files in memory, none of whose calls fail.

ghost use Rattle.std.specs.Prelude.{◌≡◌, ◌≢◌, ◌∷◌, MatchOption, OnOk, OnErr};
ghost use Rattle.outside.specs.Shelves.{content_of};
ghost use Rattle.outside.specs.Takes.{Takes, FitsLimit};
ghost use Rattle.outside.specs.Stored.{shelf_of};

use crate::file_sets::Taken;
use std::alloc::{AllocError, Global};
use std::marker::Model;

/// Files in memory, by name. The first of a name counts.
#[derive(Drop)]
pub struct Shelf {
    files: Vec<(String, Vec<u8>)>,
}

impl Model for Shelf {
    ghost use Rattle.std.specs.Prelude.{List};
    ghost use Rattle.outside.specs.Shelves.{File};
    ghost use Rattle.outside.specs.Stored.{shelf_of};

    ghost Value = { List File };

    ghost view = { λ s. shelf_of s.files.items };
}

/// The bytes of the first file of a name.
fn content_at<'a>(files: &'a [(String, Vec<u8>)], name: &str) -> Option<&'a [u8]>
    ensures { MatchOption result
        (content_of (shelf_of files.now) name.now ≡ None)
        (λ found. content_of (shelf_of files.now) name.now ≡ Some found.now) }
{
    for file in files {
        if file.0.as_str() == name {
            return Some(file.1.as_slice());
        }
    }
    None
}

impl Shelf {
    pub fn new(files: Vec<(String, Vec<u8>)>) -> Self
        ensures { result ≡ shelf_of files.items }
    {
        Shelf { files }
    }

    pub fn content(&self, name: &str) -> Option<&[u8]>
        ensures { MatchOption result
            (content_of self.now name.now ≡ None)
            (λ found. content_of self.now name.now ≡ Some found.now) }
    {
        content_at(self.files.as_slice(), name)
    }

    pub fn take(&self, alloc: Global, name: &str, limit: u32) -> Taken
        ensures taken { Takes (content_of self.now name.now) limit result }
        ensures fits { FitsLimit limit result }
        ensures sure { result ≢ Taken.Failed }
    {
        let Some(content) = self.content(name) else {
            return Taken::Absent;
        };
        if content.len() > limit as usize {
            return Taken::TooLarge;
        }
        match Vec::from_slice(alloc, content) {
            Ok(bytes) => Taken::Bytes(bytes),
            Err(_) => Taken::Memory,
        }
    }

    /// Puts a file before the others.
    pub fn put(&mut self, alloc: Global, name: &str, bytes: &[u8]) -> Result<(), AllocError>
        ensures ok { OnOk result (self.new ≡
            record { name = name.now; bytes = bytes.now } ∷ self.old) }
        ensures err { OnErr result (self.new ≡ self.old) }
    {
        let file = (
            String::from_str(alloc, name)?,
            Vec::from_slice(alloc, bytes)?,
        );
        self.files.insert(0, file)?;
        Ok(())
    }
}

//! A library of texts that are files of the machine.

ghost use Rattle.std.specs.Prelude.{◌≡◌, None};

use crate::disk::DiskFiles;
use crate::file_sets::Files;
use crate::libraries::{Fetched, Library};
use std::alloc::Global;
use std::marker::Model;

/// The files of the machine as a library. It tells neither its texts nor the paths asked for.
#[derive(Drop)]
pub struct DirLibrary<'a, R: std::rt::Files> {
    files: DiskFiles<'a, R>,
}

impl<'a, R: std::rt::Files> Model for DirLibrary<'a, R> {
    ghost use Rattle.std.specs.Prelude.{None};
    ghost use Rattle.outside.specs.Moments.{Holdings};

    ghost Value = { Holdings };

    ghost view = { λ s. record { told = None; faults = s.files.takes; paths = None } };
}

impl<'a, R: std::rt::Files> DirLibrary<'a, R> {
    /// The files that the runtime reaches, of which no fetch has failed.
    pub fn new(rt: &'a R) -> Self
        ensures { result ≡ record { told = None; faults = 0; paths = None } }
    {
        DirLibrary {
            files: DiskFiles::new(rt),
        }
    }
}

impl<'a, R: std::rt::Files> Library for DirLibrary<'a, R> {
    ghost use Rattle.std.specs.Prelude.{None};

    ghost holdings = { λ s. record { told = None; faults = s.faults; paths = None } };

    fn fetch(&mut self, alloc: Global, path: &str, limit: u32) -> Fetched {
        self.files.take(alloc, path, limit)
    }
}

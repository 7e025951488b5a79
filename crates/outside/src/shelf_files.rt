//! A set of files in memory, of which calls may be told to fail.

ghost use Rattle.std.specs.Prelude.{◌≡◌, ◌↔◌, Some, MatchOption};
ghost use Rattle.outside.specs.Shelves.{content_of};
ghost use Rattle.outside.specs.Takes.{Takes, FitsLimit, count_after_take};
ghost use Rattle.outside.specs.Puts.{Puts, count_after_put};
ghost use Rattle.outside.specs.FaultPlans.{IsDue, called};
ghost use Rattle.outside.specs.Stored.{shelf_of};

use crate::fault_plan::FaultPlan;
use crate::file_sets::{Files, Put, Taken};
use crate::shelf::Shelf;
use std::alloc::Global;
use std::marker::Model;

/// Files in memory, which tell what they hold. A call that is to fail changes no file.
#[derive(Drop)]
pub struct ShelfFiles {
    shelf: Shelf,
    plan: FaultPlan,
    takes: u64,
    puts: u64,
}

impl Model for ShelfFiles {
    ghost use Rattle.outside.specs.Stored.{FailingFiles};

    ghost Value = { FailingFiles };

    ghost view = { λ s. record { files = s.shelf; plan = s.plan; takes = s.takes; puts = s.puts } };
}

impl ShelfFiles {
    /// Files by name, of which the first of a name counts, and the numbers of the calls that are to
    /// fail, counted from 1 over all calls.
    pub fn new(files: Vec<(String, Vec<u8>)>, failing: Vec<u32>) -> Self
        ensures files { result.files ≡ shelf_of files.items }
        ensures plan { result.plan ≡ record { failing = failing.items; calls = 0 } }
        ensures takes { result.takes ≡ 0 }
        ensures puts { result.puts ≡ 0 }
    {
        ShelfFiles {
            shelf: Shelf::new(files),
            plan: FaultPlan::new(failing),
            takes: 0,
            puts: 0,
        }
    }

    /// What a name holds.
    pub fn content(&self, name: &str) -> Option<&[u8]>
        ensures { MatchOption result
            (content_of self.now.files name.now ≡ None)
            (λ found. content_of self.now.files name.now ≡ Some found.now) }
    {
        self.shelf.content(name)
    }
}

impl Files for ShelfFiles {
    ghost outside = { λ s. record { told = Some s.files; takes = s.takes; puts = s.puts } };

    fn take(&mut self, alloc: Global, name: &str, limit: u32) -> Taken
        ensures taken { Takes (content_of self.old.files name.now) limit result }
        ensures fits { FitsLimit limit result }
        ensures told { self.new.files ≡ self.old.files }

        ensures count { self.new.takes ≡ count_after_take result self.old.takes }
        ensures puts { self.new.puts ≡ self.old.puts }

        ensures due { (result ≡ Taken.Failed) ↔ IsDue self.old.plan }
        ensures called { self.new.plan ≡ called self.old.plan }
    {
        if self.plan.next_fails() {
            self.takes = self.takes.saturating_add(1);
            return Taken::Failed;
        }
        self.shelf.take(alloc, name, limit)
    }

    fn put(&mut self, alloc: Global, name: &str, bytes: &[u8]) -> Put
        ensures put { Puts self.old.files self.new.files name.now bytes.now result }

        ensures count { self.new.puts ≡ count_after_put result self.old.puts }
        ensures takes { self.new.takes ≡ self.old.takes }

        ensures due { (result ≡ Put.Failed) ↔ IsDue self.old.plan }
        ensures left { result ≡ Put.Failed → self.new.files ≡ self.old.files }
        ensures called { self.new.plan ≡ called self.old.plan }
    {
        if self.plan.next_fails() {
            self.puts = self.puts.saturating_add(1);
            return Put::Failed;
        }
        match self.shelf.put(alloc, name, bytes) {
            Ok(()) => Put::Done,
            Err(_) => Put::Memory,
        }
    }
}

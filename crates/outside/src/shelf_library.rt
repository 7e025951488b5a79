//! A library in memory, of which calls may be told to fail.

ghost use Rattle.std.specs.Prelude.{◌≡◌, ◌⊎◌, [], Some};
ghost use Rattle.outside.specs.Shelves.{content_of};
ghost use Rattle.outside.specs.Takes.{Takes, FitsLimit, count_after_take};
ghost use Rattle.outside.specs.Fetches.{asked_after};
ghost use Rattle.outside.specs.FaultPlans.{IsDue, called};
ghost use Rattle.outside.specs.Stored.{shelf_of, paths_of};

use crate::fault_plan::FaultPlan;
use crate::libraries::{Fetched, Library};
use crate::noted_texts::NotedTexts;
use std::alloc::Global;
use std::marker::Model;

/// Texts in memory, which tell what they are and which paths were asked for.
#[derive(Drop)]
pub struct ShelfLibrary {
    texts: NotedTexts,
    plan: FaultPlan,
    faults: u64,
}

impl Model for ShelfLibrary {
    ghost use Rattle.outside.specs.Stored.{FailingTexts};

    ghost Value = { FailingTexts };

    ghost view = { λ s. record {
      texts = s.texts.texts;
      asked = s.texts.asked;
      plan = s.plan;
      faults = s.faults;
    } };
}

impl ShelfLibrary {
    /// Texts by path, of which the first of a path counts, and the numbers of the calls that are to
    /// fail, counted from 1.
    pub fn new(alloc: Global, texts: Vec<(String, Vec<u8>)>, failing: Vec<u32>) -> Self
        ensures texts { result.texts ≡ shelf_of texts.items }
        ensures asked { result.asked ≡ [] }
        ensures plan { result.plan ≡ record { failing = failing.items; calls = 0 } }
        ensures faults { result.faults ≡ 0 }
    {
        ShelfLibrary {
            texts: NotedTexts::new(alloc, texts),
            plan: FaultPlan::new(failing),
            faults: 0,
        }
    }

    /// The paths that were asked for, in order; a call that was refused memory isn't among them.
    pub fn reads(&self) -> &[String]
        ensures { paths_of result.now ≡ self.now.asked }
    {
        self.texts.asked()
    }
}

impl Library for ShelfLibrary {
    ghost holdings = { λ s. record {
      told = Some s.texts;
      faults = s.faults;
      paths = Some s.asked;
    } };

    /// A call that is to fail is answered `Failed`, unless memory is wanting to note its path.
    fn fetch(&mut self, alloc: Global, path: &str, limit: u32) -> Fetched
        ensures fetched { Takes (content_of self.old.texts path.now) limit result }
        ensures fits { FitsLimit limit result }
        ensures told { self.new.texts ≡ self.old.texts }
        ensures paths { self.new.asked ≡ asked_after result path.now self.old.asked }

        ensures count { self.new.faults ≡ count_after_take result self.old.faults }
        ensures failed { result ≡ Fetched.Failed → IsDue self.old.plan }
        ensures due { IsDue self.old.plan →
            (result ≡ Fetched.Failed) ⊎ (result ≡ Fetched.Memory) }
        ensures called { self.new.plan ≡ called self.old.plan }
    {
        let is_due = self.plan.next_fails();
        let fetched = self.texts.fetch(alloc, path, limit, is_due);
        if let Fetched::Failed = fetched {
            self.faults = self.faults.saturating_add(1);
        }
        fetched
    }
}

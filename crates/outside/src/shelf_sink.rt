//! A sink in memory, of which calls may be told to fail.

ghost use Rattle.std.specs.Prelude.{◌≡◌, [], Some};
ghost use Rattle.outside.specs.FaultPlans.{IsDue, called};
ghost use Rattle.outside.specs.Sends.{Sends, count_after_send};

use crate::fault_plan::FaultPlan;
use crate::sinks::{Sent, Sink};
use std::alloc::Global;
use std::marker::Model;

/// A sink in memory, which tells what it got. A call that is to fail writes nothing, and one that
/// is refused memory fails likewise.
#[derive(Drop)]
pub struct ShelfSink {
    written: Vec<u8>,
    plan: FaultPlan,
    faults: u64,
}

impl Model for ShelfSink {
    ghost use Rattle.outside.specs.Stored.{FailingOutput};

    ghost Value = { FailingOutput };

    ghost view = { λ s. record { written = s.written.items; plan = s.plan; faults = s.faults } };
}

impl ShelfSink {
    /// A sink that got nothing, and the numbers of the calls that are to fail, counted from 1.
    pub fn new(alloc: Global, failing: Vec<u32>) -> Self
        ensures written { result.written ≡ [] }
        ensures plan { result.plan ≡ record { failing = failing.items; calls = 0 } }
        ensures faults { result.faults ≡ 0 }
    {
        ShelfSink {
            written: Vec::new(alloc),
            plan: FaultPlan::new(failing),
            faults: 0,
        }
    }

    /// What the sink got.
    pub fn written(&self) -> &[u8]
        ensures { result.now ≡ self.now.written }
    {
        self.written.as_slice()
    }
}

impl Sink for ShelfSink {
    ghost written = { λ s. record { got = Some s.written; faults = s.faults } };

    fn put(&mut self, piece: &[u8]) -> Sent
        ensures sent { Sends (Some self.old.written) (Some self.new.written) piece.now result }
        ensures count { self.new.faults ≡ count_after_send result self.old.faults }

        ensures due { IsDue self.old.plan → result ≡ Sent.Failed }
        ensures left { result ≡ Sent.Failed → self.new.written ≡ self.old.written }
        ensures called { self.new.plan ≡ called self.old.plan }
    {
        if !self.plan.next_fails() && self.written.extend_from_slice(piece).is_ok() {
            return Sent::Done;
        }
        self.faults = self.faults.saturating_add(1);
        Sent::Failed
    }
}

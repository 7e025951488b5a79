//! Which calls of an object are to fail.

ghost use Rattle.std.specs.Prelude.{◌≡◌, ◌↔◌, IsTrue};
ghost use Rattle.outside.specs.FaultPlans.{IsDue, called};

use std::marker::Model;

/// The numbers of the calls that are to fail, counted from 1, and how many calls there were.
#[derive(Drop)]
pub struct FaultPlan {
    failing: Vec<u32>,
    calls: u32,
}

impl Model for FaultPlan {
    ghost use Rattle.outside.specs.FaultPlans.{Plan};

    ghost Value = { Plan };

    ghost view = { λ p. record { failing = p.failing.items; calls = p.calls } };
}

impl FaultPlan {
    pub fn new(failing: Vec<u32>) -> Self
        ensures { result ≡ record { failing = failing.items; calls = 0 } }
    {
        FaultPlan { failing, calls: 0 }
    }

    /// Counts a call, and says whether it is to fail.
    pub fn next_fails(&mut self) -> bool
        ensures due { IsTrue result ↔ IsDue self.old }
        ensures called { self.new ≡ called self.old }
    {
        self.calls = self.calls.saturating_add(1);
        self.failing.contains(&self.calls)
    }
}

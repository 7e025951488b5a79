//! A counter in use.
ghost use Rattle.std.specs.Prelude.{◌≡◌, ◌+◌, ◌<◌};

use std::marker::Brand;
use std::sync::ledger::{Blank, Ledger};
use std::test::*;
use work_steps::Steps;

/// Counts two steps.
fn two_steps<L: Ledger>(ledger: Blank)
    requires name { ledger.name ≡ L.name }
    requires parts { ledger.parts ≡ L.parts }
    requires some { 0 < ledger.parts }
{
    let mut steps: Steps<L> = Steps::new(ledger);
    steps.tick();
    steps.tick();
}

#[test]
fn counts(_rt: HostRuntime) {
    two_steps::<Brand>(Blank::new(1));
}

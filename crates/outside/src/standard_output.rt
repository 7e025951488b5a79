//! The standard output.

ghost use Rattle.std.specs.Prelude.{◌≡◌, None};

use crate::sinks::{Sent, Sink};
use std::io;
use std::marker::Model;

/// The standard output of the program. It doesn't tell what it got.
#[derive(Drop)]
pub struct StdoutSink<'a, R: io::Print> {
    rt: &'a R,
    faults: u64,
}

impl<'a, R: io::Print> Model for StdoutSink<'a, R> {
    ghost use Rattle.std.specs.Prelude.{None};
    ghost use Rattle.outside.specs.Moments.{Written};

    ghost Value = { Written };

    ghost view = { λ s. record { got = None; faults = s.faults } };
}

impl<'a, R: io::Print> StdoutSink<'a, R> {
    /// The standard output of the runtime, of which no call has failed.
    pub fn new(rt: &'a R) -> Self
        ensures { result ≡ record { got = None; faults = 0 } }
    {
        StdoutSink { rt, faults: 0 }
    }
}

impl<'a, R: io::Print> Sink for StdoutSink<'a, R> {
    ghost use Rattle.std.specs.Prelude.{None};

    ghost written = { λ s. record { got = None; faults = s.faults } };

    fn put(&mut self, piece: &[u8]) -> Sent {
        match self.rt.write_all(piece) {
            Ok(()) => Sent::Done,
            Err(_) => {
                self.faults = self.faults.saturating_add(1);
                Sent::Failed
            }
        }
    }
}

//! A sink in memory that never fails.

ghost use Rattle.std.specs.Prelude.{◌≡◌, [], IfSome};

use crate::sinks::{Sent, Sink};
use std::alloc::Global;
use std::marker::Model;

/// A sink in memory, which never fails. It tells what it got until it is refused memory.
#[derive(Drop)]
pub struct SureSink {
    written: Vec<u8>,
    is_whole: bool,
}

impl Model for SureSink {
    ghost use Rattle.std.specs.Prelude.{Option, List, ℕ};
    ghost use Rattle.outside.specs.Stored.{told_where};

    ghost Value = { Option (List ℕ) };

    ghost view = { λ s. told_where s.is_whole s.written.items };
}

impl SureSink {
    /// A sink that got nothing.
    pub fn new(alloc: Global) -> Self
        ensures { result ≡ Some [] }
    {
        SureSink {
            written: Vec::new(alloc),
            is_whole: true,
        }
    }

    /// What the sink got, as far as memory was had.
    pub fn written(&self) -> &[u8]
        ensures { IfSome self.now (λ got. result.now ≡ got) }
    {
        self.written.as_slice()
    }
}

impl Sink for SureSink {
    ghost written = { λ s. record { got = s; faults = 0 } };

    fn put(&mut self, piece: &[u8]) -> Sent {
        if self.is_whole && self.written.extend_from_slice(piece).is_err() {
            self.is_whole = false;
        }
        Sent::Done
    }
}

//! A sink of bytes: what a report is written to.

/// What came of putting a piece.
#[derive(Clone, Copy, Debug, PartialEq, Eq)]
pub enum Sent {
    /// The whole piece was written.
    Done,
    /// Some first bytes of the piece were written, or none.
    Failed,
}

/// A sink of bytes, which counts how often it has failed.
///
/// A sink in memory tells what it got; a real one doesn't.
pub trait Sink {
    ghost use Rattle.std.specs.Prelude.{◌≡◌, ◌≤◌};
    ghost use Rattle.outside.specs.Faults.{Rose};
    ghost use Rattle.outside.specs.Moments.{Written};
    ghost use Rattle.outside.specs.Sends.{Sends};

    /// What the sink got, where it is told, and how often a call has failed.
    ghost written: { Self → Written };

    /// Writes a piece after what was written.
    fn put(&mut self, piece: &[u8]) -> Sent
        ensures sent { Sends (written self.old).got (written self.new).got piece.now result }
        ensures count { (written self.old).faults ≤ (written self.new).faults }
        ensures failed { result ≡ Sent.Failed →
            Rose (written self.old).faults (written self.new).faults };
}

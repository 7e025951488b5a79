//! How a job ends.

ghost use Rattle.std.specs.Prelude.{◌≡◌};
ghost use Rattle.batch_jobs.specs.Reports.{is_good};

use runtime_histories::Refusal;

/// How a job ended. Places and lengths count bytes, places from 0.
#[derive(Drop)]
pub enum Outcome {
    /// All of IN was converted, and so many bytes were put to OUT.
    Good { written: u64 },
    /// At this place of IN stands no unit that can be converted.
    Illegal { at: u64 },
    /// At this place of IN begins a unit that its end cuts off.
    Incomplete { at: u64 },
    /// There is no file IN.
    Absent,
    /// IN is longer than the limit.
    TooLarge,
    /// IN couldn't be read.
    ReadFault,
    /// OUT couldn't be written.
    WriteFault,
    /// The pair of sets isn't opened.
    Refused(Refusal),
}

/// Whether all of IN was converted and put.
pub fn is_good(outcome: &Outcome) -> bool
    ensures { result ≡ is_good outcome.now }
{
    match outcome {
        Outcome::Good { .. } => true,
        _ => false,
    }
}

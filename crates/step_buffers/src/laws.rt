//! What holds of every session.

ghost use Rattle.std.specs.Prelude.{◌≡◌, ℕ, List, ◌++◌, true};
ghost use Rattle.code_pairs.specs.Tables.{Tables};
ghost use Rattle.chain_steps.specs.Machine.{Machine};
ghost use Rattle.chain_steps.specs.Sets.{AreWellFormed};
ghost use Rattle.step_buffers.specs.Held.{Held};
ghost use Rattle.step_buffers.specs.Stands.{StandsFor, TellTheSame};

use chain_steps::{illegal_stays, meaning_is_one};

/// A session that has stopped stands for its stream however that goes on.
pub fn stop_stays()
    ensures { (ts : Tables) (m : Machine) (h : Held) (x y : List ℕ) → h.stopped ≡ true →
        StandsFor ts m h x → StandsFor ts m h (x ++ y) }
{
    illegal_stays();
}

/// Two sessions of one recipe that stand for one stream tell the same.
pub fn stream_is_one()
    ensures { (ts : Tables) (m n : Machine) (h k : Held) (x : List ℕ) → AreWellFormed ts →
        n.recipe ≡ m.recipe → StandsFor ts m h x → StandsFor ts n k x → TellTheSame m n h k }
{
    meaning_is_one();
}

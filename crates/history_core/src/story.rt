//! What a history, its value and its side words mean.
ghost use Rattle.std.specs.Prelude.{◌≡◌, ◌≢◌, ℕ, ◌<◌, ◌++◌, Option};
ghost use Rattle.history_core.specs.History.{History, EachNumber};

/// What a value stands for, and what is pinned of its side words.
///
/// A history is a list of entries, the newest last, each with the number of the pass that committed
/// it. A setting is plain data for contracts alone: each value carries one, and a hall keeps that
/// of its first value.
pub trait Story {
    type Value;

    type Entry: Drop;

    type Setting;

    /// The setting that a value carries.
    ghost setting: { Self.Value → Self.Setting };

    /// Which histories may be.
    ghost legal: { Self.Setting → History Self.Entry → Type 0 };

    /// The history that a value stands for.
    ghost stands: { Self.Value → History Self.Entry → Type 0 };

    /// The word that a number has pinned at a place after a history, where it has one.
    ghost pinned: { Self.Setting → History Self.Entry → ℕ → ℕ → Option ℕ };

    // What a number from 1 has pinned is changed by its own entries alone.
    ghost stays: { (t : Self.Setting) (front rest : History Self.Entry) (n place : ℕ) → 0 < n
        → legal t (front ++ rest) → EachNumber (λ m. m ≢ n) rest
        → pinned t (front ++ rest) n place ≡ pinned t front n place };
}

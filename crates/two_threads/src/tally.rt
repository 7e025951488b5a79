//! A sum of amounts, as a story.
ghost use Rattle.std.specs.Prelude.{◌≡◌, ◌<◌, ◌^◌, None, refl};
ghost use Rattle.two_threads.specs.Amounts.{total};

use history_core::Story;
use std::snapshot::Snapshot;

/// An entry: the amount that was added. It has no bytes.
#[derive(Drop)]
pub struct Noted {
    pub amount: Snapshot<u64>,
}

/// The value is the sum of all amounts. No side word is pinned.
pub struct Tally;

impl Story for Tally {
    type Value = u64;

    type Entry = Noted;

    type Setting = ();

    ghost setting = { λ _. tt };

    ghost legal = { λ _ log. total log < 2 ^ 64 };

    ghost stands = { λ value log. value ≡ total log };

    ghost pinned = { λ _ _ _ _. None };

    ghost stays = { λ _ _ _ _ _ _ _ _. refl };
}

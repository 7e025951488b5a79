//! Stories whose pinned words are tables.

use history_core::Story;

/// A story in which a number holds tables, and has their page images pinned in their pages.
pub trait PagedStory: Story {
    ghost use Rattle.std.specs.Prelude.{ℕ, List};
    ghost use Rattle.history_core.specs.History.{History};
    ghost use Rattle.page_store.specs.Holdings.{Holding, Among, IsHolding, IsPinnedIn};

    /// The tables that a number holds after a history, each with its pages.
    ghost holds: { Self.Setting → History Self.Entry → ℕ → List Holding };

    // Each is well formed, and has as many pages as its page image.
    ghost are_holdings: { (t : Self.Setting) (log : History Self.Entry) (n : ℕ) (h : Holding)
        → Self.Story.legal t log → Among (holds t log n) h → IsHolding h };

    // The page image of each is pinned in its pages.
    ghost are_pinned: { (t : Self.Setting) (log : History Self.Entry) (n : ℕ) (h : Holding)
        → Self.Story.legal t log → Among (holds t log n) h
        → IsPinnedIn (Self.Story.pinned t log n) h };
}

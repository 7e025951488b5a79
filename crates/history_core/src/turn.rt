//! The calls on a turn.
ghost use Rattle.std.specs.Prelude.{◌≡◌, ℕ, ◌+◌, ◌<◌, ◌^◌, [], ◌∷◌, ◌++◌, length};
ghost use Rattle.history_core.specs.History.{mine_of};
ghost use Rattle.history_core.specs.Tokens.{setting_of, words_of, number, front, filled};
ghost use Rattle.history_core.specs.Tokens.{front_with, IsPassOf, IsTurnOf, IsFree, IsCovered};

use crate::story::Story;
use crate::tokens::Turn;

impl<'a, S: Story> Turn<'a, S> {
    /// Stores a side word that no number has pinned.
    #[inline(always)]
    pub fn fill(&mut self, place: u32, word: u64)
        requires turn { IsTurnOf self.old.hall.now self.old }
        requires inside { place < words_of self.old.hall.now }
        requires free { IsFree self.old.hall.now self.old.pass.now place }
        ensures turn { IsTurnOf self.old.hall.now self.new }
        ensures same { (self.new.pass.ghost_name ≡ self.old.pass.ghost_name)
            × (self.new.hall ≡ self.old.hall) × (self.new.value ≡ self.old.value) }
        ensures pass { (number self.new.pass.now ≡ number self.old.pass.now)
            × (front self.new.pass.now ≡ front self.old.pass.now) }
        ensures filled { filled self.new.pass.now ≡ (place, word) ∷ filled self.old.pass.now }
    {
        let pass = &mut *self.pass;
        self.hall.fill_in(&mut pass.seat, place, word);
    }

    /// The length of the history.
    pub fn seen(&self) -> u64
        ensures { result ≡ length (front self.now.pass.now) }
    {
        self.pass.seen
    }

    /// Ends the turn with one entry more.
    pub fn commit(self, entry: S::Entry)
        requires turn { IsTurnOf self.hall.now self }
        requires room { length (front self.pass.now) + 1 < 2 ^ 64 }
        requires stands { S.stands self.value (front_with self.pass.now entry) }
        requires setting { S.setting self.value ≡ setting_of S.setting self.hall.now }
        requires legal { S.legal (setting_of S.setting self.hall.now)
            (front_with self.pass.now entry) }
        requires covered { IsCovered self.hall.now self.pass.now entry }
        ensures pass { IsPassOf self.entry.hall.now self.exit.1.0.now }
        ensures front { front self.exit.1.0.now ≡ front_with self.entry.pass.now entry }
        ensures number { number self.exit.1.0.now ≡ number self.entry.pass.now }
        ensures mine { mine_of (number self.entry.pass.now) (front self.exit.1.0.now)
            ≡ mine_of (number self.entry.pass.now) (front self.entry.pass.now)
            ++ length (front self.entry.pass.now) ∷ [] }
    {
        let Turn { hall, pass, value } = self;
        hall.put_entry(pass, value, entry);
    }

    /// Ends the turn without an entry.
    pub fn leave(self)
        requires turn { IsTurnOf self.hall.now self }
        requires stands { S.stands self.value (front self.pass.now) }
        requires setting { S.setting self.value ≡ setting_of S.setting self.hall.now }
        ensures pass { IsPassOf self.entry.hall.now self.exit.1.0.now }
        ensures front { front self.exit.1.0.now ≡ front self.entry.pass.now }
        ensures number { number self.exit.1.0.now ≡ number self.entry.pass.now }
    {
        let Turn { hall, pass, value } = self;
        hall.put_back(pass, value);
    }
}

impl<'a, S: Story> Turn<'a, S> {
    ghost use Rattle.std.specs.Prelude.{◌≡◌, [], ◌∷◌};
    ghost use Rattle.std.specs.Borrow.{sem, Lends};
    ghost use Rattle.history_core.specs.contracts.tokens.Turn.{the_row};
    ghost use mir.Syntax.{named};

    /// Lends the value.
    pub fn value(&mut self) -> &mut S::Value
        ensures now { result.now ≡ self.old.value }
        ensures* writes_back { sem 𝓛 (Lends
            (the_row (record { mir = named 1; lft = [] }) S.row S.Value.row S.Entry.row
            S.Setting.row S.Story)
            S.Value.row self.entry result (λ w. record self.old { value = w })) }
    {
        &mut self.value
    }
}

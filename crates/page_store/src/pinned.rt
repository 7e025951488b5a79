//! Look-ups through pins.

use crate::page_words::{bytes_through, code_through, codes_through, eight_through};
use crate::pin::Pin;
use crate::story::PagedStory;
use code_pairs::Code;
use code_table::{Codes, Eight, Look, Lookup, hints_tell};
use history_core::{Hall, Pass};

/// Tables that a pass holds, each in the pages of a pin. A look-up takes no turn and doesn't wait.
#[derive(Drop)]
pub struct Pinned<'a, S: PagedStory> {
    pub hall: &'a Hall<S>,
    pub pass: &'a mut Pass<S>,
    pub pins: &'a [Pin],
}

impl<'a, S: PagedStory> Lookup for Pinned<'a, S> {
    ghost use Rattle.std.specs.Prelude.{◌≡◌, refl};
    ghost use Rattle.std.proofs.Common.{◌∙◌};
    ghost use Rattle.history_core.specs.Tokens.{words_of};
    ghost use Rattle.page_store.specs.Holdings.{holdings_of};
    ghost use Rattle.page_store.specs.Pins.{tables_of, CanLook};
    ghost use Rattle.page_store.specs.Laws.{pins_well_formed};

    ghost tables = { λ x. tables_of (holdings_of S.holds x.hall.now x.pass.now) x.pins.now };

    ghost ready = { λ x. CanLook S.holds x.hall.now x.pass.now x.pins.now };

    ghost kept = { λ x y. (y.hall ≡ x.hall) × (y.pass.ghost_name ≡ x.pass.ghost_name)
        × (y.pass.now.seat.table_id ≡ x.pass.now.seat.table_id)
        × (y.pass.now.seat.me ≡ x.pass.now.seat.me) × (y.pins ≡ x.pins) };

    ghost well_formed = { λ x k r. pins_well_formed _ (words_of x.hall.now)
        (λ h there. S.are_holdings _ _ _ h r.own.legal there) x.pins.now k r.held };

    ghost kept_none = { λ _. (refl, refl, refl, refl, refl) };

    ghost kept_twice = { λ _ _ _ a b.
        (b.0 ∙ a.0, b.1 ∙ a.1, b.2 ∙ a.2, b.3 ∙ a.3, b.4 ∙ a.4) };

    #[inline(always)]
    fn code(&mut self, table: u32, bytes: &[u8]) -> Look {
        let pin = &self.pins[table as usize];
        let pass = &mut *self.pass;
        code_through(self.hall, pass, pin, bytes)
    }

    #[inline(always)]
    fn bytes(&mut self, table: u32, point: u32) -> Option<Code> {
        let pin = &self.pins[table as usize];
        let pass = &mut *self.pass;
        bytes_through(self.hall, pass, pin, point)
    }

    #[inline(always)]
    fn eight(&mut self, table: u32, input: &[u8]) -> Option<Eight> {
        let pin = &self.pins[table as usize];
        let pass = &mut *self.pass;
        eight_through(self.hall, pass, pin, input)
    }

    #[inline(always)]
    fn codes(&mut self, table: u32, points: &[u16]) -> Option<Codes> {
        let pin = &self.pins[table as usize];
        let pass = &mut *self.pass;
        codes_through(self.hall, pass, pin, points)
    }

    #[inline(always)]
    fn last(&self, table: u32) -> u32 {
        hints_tell();
        self.pins[table as usize].layout.last
    }

    #[inline(always)]
    fn is_double(&self, table: u32) -> bool {
        hints_tell();
        self.pins[table as usize].layout.double
    }

    #[inline(always)]
    fn is_ascii(&self, table: u32) -> bool {
        hints_tell();
        self.pins[table as usize].layout.ascii
    }
}

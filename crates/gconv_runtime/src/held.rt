//! A descriptor with its caller, as a converter.

use crate::tokens::{Caller, Descriptor, Gconv};
use chain_steps::{Converter, Progress, Reset};
use history_core::Story;
use outside::Library;
use runtime_room::Room;

/// A conversion of a caller: a chain over the tables of its descriptor, which no call changes.
#[derive(Drop)]
pub struct Held<'a, L: Library>
where
    Room<L>: Story,
{
    pub gconv: &'a Gconv<L>,
    pub caller: &'a mut Caller<L>,
    pub descriptor: &'a mut Descriptor,
}

impl<'a, L: Library> Converter for Held<'a, L> {
    ghost use Rattle.std.specs.Prelude.{◌≡◌, refl};
    ghost use Rattle.std.proofs.Common.{◌∙◌};
    ghost use Rattle.gconv_runtime.specs.Tokens.{Knows, number, front};
    ghost use Rattle.gconv_runtime.specs.Owning.{Owns, tables_of};
    ghost use Rattle.gconv_runtime.specs.HeldLaws.{owned_well_formed};

    ghost tables = { λ h. tables_of h.gconv.now h.caller.now h.descriptor.now };

    ghost machine = { λ h. h.descriptor.now.runner };

    ghost ready = { λ h. Knows h.gconv.now h.caller.now
        × Owns h.gconv.now h.caller.now h.descriptor.now };

    ghost kept = { λ x y. (y.gconv ≡ x.gconv) × (y.caller.ghost_name ≡ x.caller.ghost_name)
        × (y.descriptor.ghost_name ≡ x.descriptor.ghost_name)
        × (number y.caller.now ≡ number x.caller.now)
        × (front y.caller.now ≡ front x.caller.now)
        × (y.descriptor.now.number ≡ x.descriptor.now.number) };

    ghost well_formed = { λ x k r. owned_well_formed x.gconv.now x.caller.now x.descriptor.now k
        r.0.own.legal r.0 r.1 };

    ghost can_run = { λ _ r. r.1.range };

    ghost kept_none = { λ _. (refl, refl, refl, refl, refl, refl) };

    ghost kept_twice = { λ _ _ _ a b.
        (b.0 ∙ a.0, b.1 ∙ a.1, b.2 ∙ a.2, b.3 ∙ a.3, b.4 ∙ a.4, b.5 ∙ a.5) };

    fn convert(&mut self, input: &[u8], output: &mut [u8]) -> Progress {
        self.gconv
            .convert(self.caller, self.descriptor, input, output)
    }

    fn reset(&mut self, output: &mut [u8]) -> Reset {
        self.gconv.reset(self.caller, self.descriptor, output)
    }
}

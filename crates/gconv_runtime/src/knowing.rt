//! What callers know without a turn.
ghost use Rattle.std.specs.Prelude.{◌≡◌, ◌≤◌, length};
ghost use Rattle.text_lines.specs.Limits.{longest_text};
ghost use Rattle.gconv_runtime.specs.Knowing.{IsKnownAs};
ghost use Rattle.gconv_runtime.specs.Openings.{asked};
ghost use Rattle.gconv_runtime.specs.Owning.{Owns};
ghost use Rattle.gconv_runtime.specs.Tokens.{Knows, number, front, ground};

use crate::tokens::{Caller, Descriptor, Gconv, Known};
use outside::Library;
use runtime_histories::{Asked, End};

impl<L: Library> Gconv<L> {
    /// The least chain of a pair that was opened before, with its first ordinals, as many as fit. It
    /// takes no turn and no memory, and waits for nobody.
    pub fn known_chain(
        &self,
        caller: &mut Caller<L>,
        from: &[u8],
        to: &[u8],
        into: &mut [u32],
    ) -> Known
        requires knows { Knows self.now caller.old }
        requires from { length from.now ≤ longest_text }
        requires to { length to.now ≤ longest_text }
        // Unknown comes only where no opening of the pair stands in the caller's front.
        ensures answer { IsKnownAs (ground self.now caller.old).setting.first.graph (front caller.old)
            (asked self.now caller.old from.now) (asked self.now caller.old to.now)
            into.old into.new result }
        ensures knows { Knows self.now caller.new }
        ensures same { (number caller.new ≡ number caller.old)
            × (front caller.new ≡ front caller.old) }
        ensures others { (d : Descriptor) → Owns self.now caller.old d → Owns self.now caller.new d }
    {
        let source = pair_openings::asked(&self.aliases, from);
        let target = pair_openings::asked(&self.aliases, to);
        match (source, target) {
            (Asked::Good(from), Asked::Good(to)) => match caller.view.chain(&from, &to, into) {
                Some(found) => Known::Found(found),
                None => Known::Unknown,
            },
            (Asked::Bad(fault), _) => Known::BadName {
                which: End::From,
                fault,
            },
            (Asked::Good(_), Asked::Bad(fault)) => Known::BadName {
                which: End::To,
                fault,
            },
        }
    }
}

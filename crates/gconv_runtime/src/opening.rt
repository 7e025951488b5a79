//! Descriptors are opened.
ghost use Rattle.std.specs.Prelude.{◌≡◌, ◌≤◌, length, IfOk, IfErr};
ghost use Rattle.text_lines.specs.Limits.{longest_text};
ghost use Rattle.pair_openings.specs.Answers.{IsProper};
ghost use Rattle.gconv_runtime.specs.Tokens.{Knows, number};
ghost use Rattle.gconv_runtime.specs.Owning.{Owns};
ghost use Rattle.gconv_runtime.specs.Openings.{asked, Opens, Refuses, Searches};

use crate::hearing::{begin_heard, prepare_heard};
use crate::tokens::{Caller, Descriptor, Gconv};
use chain_steps::Runner;
use desk_openings::{Beginning, Ready, enter};
use outside::Library;
use runtime_histories::{Asked, Refusal};
use runtime_room::put_modules;
use std::alloc::Global;
use std::sync::Wait;
use std::sync::ledger::Ledger;
use work_steps::Steps;

impl<L: Library> Gconv<L> {
    /// Opens a pair of names. It holds the turn while it searches the chain, where the pair wasn't
    /// opened before, fetches the texts that are missing and stores their tables.
    pub fn open_pair<R: Wait, K: Ledger>(
        &self,
        rt: &R,
        alloc: Global,
        caller: &mut Caller<L>,
        from: &[u8],
        to: &[u8],
        steps: &mut Steps<K>,
    ) -> Result<Descriptor, Refusal>
        requires knows { Knows self.now caller.old }
        requires from { length from.now ≤ longest_text }
        requires to { length to.now ≤ longest_text }
        ensures knows { Knows self.now caller.new }
        ensures number { number caller.new ≡ number caller.old }
        ensures ok { IfOk result (Opens self.now caller.old caller.new
            (asked self.now caller.old from.now) (asked self.now caller.old to.now)) }
        ensures owns { IfOk result (Owns self.now caller.new) }
        ensures err { IfErr result (Refuses self.now caller.old caller.new
            (asked self.now caller.old from.now) (asked self.now caller.old to.now)) }
        // What the caller owned it owns.
        ensures others { (d : Descriptor) → Owns self.now caller.old d → Owns self.now caller.new d }
        // No step is counted where the pair was opened before, by whomever.
        ensures steps { Searches self.now caller.old caller.new
            (asked self.now caller.old from.now) (asked self.now caller.old to.now)
            steps.old steps.new }
    {
        let source = pair_openings::asked(&self.aliases, from);
        let target = pair_openings::asked(&self.aliases, to);
        self.open_asked(rt, alloc, caller, source, target, steps)
    }

    /// Opens a pair of names as asked.
    fn open_asked<R: Wait, K: Ledger>(
        &self,
        rt: &R,
        alloc: Global,
        caller: &mut Caller<L>,
        from: Asked,
        to: Asked,
        steps: &mut Steps<K>,
    ) -> Result<Descriptor, Refusal>
        requires knows { Knows self.now caller.old }
        requires from { IsProper from }
        requires to { IsProper to }
        ensures knows { Knows self.now caller.new }
        ensures number { number caller.new ≡ number caller.old }
        ensures ok { IfOk result (Opens self.now caller.old caller.new from to) }
        ensures owns { IfOk result (Owns self.now caller.new) }
        ensures err { IfErr result (Refuses self.now caller.old caller.new from to) }
        ensures others { (d : Descriptor) → Owns self.now caller.old d → Owns self.now caller.new d }
        ensures steps { Searches self.now caller.old caller.new from to steps.old steps.new }
    {
        let number = caller.pass.number();
        let mut turn = self.hall.turn(rt, &mut caller.pass);
        let begun = match begin_heard(
            rt,
            alloc,
            turn.value(),
            &mut caller.view,
            &mut caller.told,
            number,
            from,
            to,
            steps,
        ) {
            Beginning::Begun(begun) => begun,
            Beginning::Lost(why) => {
                turn.leave();
                return Err(why);
            }
            Beginning::Refused(why, entry) => {
                turn.commit(entry);
                return Err(why);
            }
        };
        let Ok(ready) = prepare_heard(
            rt,
            alloc,
            turn.value(),
            &mut caller.view,
            &mut caller.told,
            begun,
        ) else {
            turn.leave();
            return Err(Refusal::Memory);
        };
        let Ready {
            from: source,
            to: target,
            opening,
            pins,
            recipe,
        } = ready;
        put_modules(
            &mut turn,
            opening.tables.as_slice(),
            opening.places.as_slice(),
        );
        let (position, entry) = enter(turn.value(), number, source, target, opening);
        turn.commit(entry);
        caller.live += 1;
        Ok(Descriptor {
            number: position,
            runner: Runner::new(recipe),
            pins,
        })
    }
}

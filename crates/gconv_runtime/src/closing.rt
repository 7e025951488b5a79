//! Descriptors are closed.
ghost use Rattle.std.specs.Prelude.{◌≡◌, ◌≢◌};
ghost use Rattle.derivation_cache.specs.Known.{Extends};
ghost use Rattle.runtime_histories.specs.Deeds.{IsLive};
ghost use Rattle.runtime_histories.specs.Entries.{deeds};
ghost use Rattle.gconv_runtime.specs.Tokens.{Knows, number};
ghost use Rattle.gconv_runtime.specs.Owning.{Owns};
ghost use Rattle.gconv_runtime.specs.Entries.{Adds, IsClosing, ClosesOn};

use crate::hearing::hear;
use crate::tokens::{Caller, Descriptor, Gconv};
use derivation_cache::{Told, View};
use outside::Library;
use runtime_room::{Desk, Noted};
use std::snapshot::Snapshot;
use std::sync::Wait;

/// Enters the closing of a descriptor into the books, and answers its entry. The view has then learnt
/// what is published.
fn enter_closing<R: Wait, L>(
    rt: &R,
    desk: &mut Desk<L>,
    view: &mut View,
    told: &mut Told,
    caller: u32,
    number: u64,
) -> Noted
    requires graph { desk.old.counts.graph ≡ desk.old.graph }
    requires live { IsLive (deeds desk.old.counts.journal) caller number }
    requires view { Extends desk.old.cache view.old }
    ensures entry { IsClosing caller number result }
    ensures desk { ClosesOn desk.old desk.new result }
    ensures heard { (view.new ≡ desk.old.cache) × (told.new ≡ desk.old.cache) }
{
    hear(rt, &desk.cache, view, told);
    desk.counts.dismiss(&desk.graph, caller, number);
    let at = desk.counts.journal().len() - 1;
    Noted {
        entry: Snapshot::of(&desk.counts.journal()[at]),
    }
}

impl<L: Library> Gconv<L> {
    /// Closes a descriptor. It takes no memory, and nothing refuses it.
    pub fn close_desc<R: Wait>(&self, rt: &R, caller: &mut Caller<L>, descriptor: Descriptor)
        requires knows { Knows self.now caller.old }
        requires owns { Owns self.now caller.old descriptor }
        ensures knows { Knows self.now caller.new }
        ensures number { number caller.new ≡ number caller.old }
        ensures entry { Adds caller.old caller.new
            (IsClosing (number caller.old) descriptor.number) }
        // What else the caller owned it owns.
        ensures others { (d : Descriptor) → d.number ≢ descriptor.number
            → Owns self.now caller.old d → Owns self.now caller.new d }
    {
        let number = caller.pass.number();
        let mut turn = self.hall.turn(rt, &mut caller.pass);
        let _spare = turn.value().counts.spare();
        let entry = enter_closing(
            rt,
            turn.value(),
            &mut caller.view,
            &mut caller.told,
            number,
            descriptor.number,
        );
        turn.commit(entry);
        caller.live -= 1;
    }
}

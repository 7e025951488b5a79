//! Callers learn under their turns what is published.
ghost use Rattle.std.specs.Prelude.{◌≡◌, length, IfOk, OnErr};
ghost use Rattle.derivation_cache.specs.Known.{Extends};
ghost use Rattle.pair_openings.specs.Answers.{IsProper};
ghost use Rattle.pair_openings.specs.Knowing.{CountsSteps, IsLeastFor};
ghost use Rattle.runtime_histories.specs.Charmaps.{HasText};
ghost use Rattle.runtime_histories.specs.Legal.{loaded_modules};
ghost use Rattle.runtime_room.specs.Published.{pair_asked};
ghost use Rattle.desk_openings.specs.Beginnings.{HasCome, KeepsDesk};
ghost use Rattle.desk_openings.specs.Preparing.{CanPrepare, LaysOut, IsReady, loads_of};

use derivation_cache::{Cache, Told, View};
use desk_openings::{Beginning, Ready, begin_on, prepare};
use outside::Library;
use pair_openings::Begun;
use runtime_histories::Asked;
use runtime_room::Desk;
use std::alloc::{AllocError, Global};
use std::sync::Wait;
use std::sync::ledger::Ledger;
use work_steps::Steps;

/// All that is published. It asks again while the list has as many owners as can be counted.
fn told_of<R: Wait>(rt: &R, cache: &Cache) -> Told
    ensures { result ≡ cache.now }
{
    for _ in rt.forever() {
        if let Some(told) = cache.tell() {
            return told;
        }
    }
    unreachable!()
}

/// A view learns all that is published, and so does what it was told of last.
pub fn hear<R: Wait>(rt: &R, cache: &Cache, view: &mut View, told: &mut Told)
    requires { Extends cache.now view.old }
    ensures view { view.new ≡ cache.now }
    ensures told { told.new ≡ cache.now }
{
    *told = told_of(rt, cache);
    view.learn(told_of(rt, cache));
}

/// Begins the opening of a pair over a desk, when the view has learnt what is published.
pub fn begin_heard<R: Wait, L: Library, K: Ledger>(
    rt: &R,
    alloc: Global,
    desk: &mut Desk<L>,
    view: &mut View,
    told: &mut Told,
    caller: u32,
    from: Asked,
    to: Asked,
    steps: &mut Steps<K>,
) -> Beginning
    requires graph { (desk.old.counts.graph ≡ desk.old.graph) × (desk.old.cache.graph ≡ desk.old.graph) }
    requires text { HasText desk.old.graph }
    requires view { Extends desk.old.cache view.old }
    requires from { IsProper from }
    requires to { IsProper to }
    ensures come { HasCome L.holdings desk.old desk.new caller from to result }
    ensures desk { KeepsDesk L.holdings desk.old desk.new }
    ensures heard { (view.new ≡ desk.old.cache) × (told.new ≡ desk.old.cache) }
    ensures steps { CountsSteps (length desk.old.graph.edges) (pair_asked desk.old.cache from to)
        steps.old steps.new }
{
    hear(rt, &desk.cache, view, told);
    begin_on(alloc, desk, view, caller, from, to, steps)
}

/// Prepares an opening, and learns of its pair when that is published.
pub fn prepare_heard<R: Wait, L>(
    rt: &R,
    alloc: Global,
    desk: &mut Desk<L>,
    view: &mut View,
    told: &mut Told,
    begun: Begun,
) -> Result<Ready, AllocError>
    requires can { CanPrepare desk.old.graph desk.old.counts.pages desk.old.counts.journal
        desk.old.layouts.items begun.opening }
    requires least { IsLeastFor desk.old.cache.graph begun.from begun.to begun.opening.chain }
    requires heard { (view.old ≡ desk.old.cache) × (told.old ≡ desk.old.cache) }
    ensures desk { LaysOut desk.old desk.new (loaded_modules (loads_of begun.opening)) }
    ensures ok { IfOk result (IsReady desk.old desk.new begun) }
    ensures err { OnErr result (desk.new.cache ≡ desk.old.cache) }
    ensures heard { (view.new ≡ desk.new.cache) × (told.new ≡ desk.new.cache) }
{
    let ready = prepare(rt, alloc, desk, begun)?;
    hear(rt, &desk.cache, view, told);
    Ok(ready)
}

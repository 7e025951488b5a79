//! Callers are made and ended, and the runtime is closed.
ghost use Rattle.std.specs.Prelude.{◌≡◌, ◌≢◌, ◌<◌, ◌+◌, ◌^◌, ◌∷◌, [], length, IfOk, IfNone, IfSome, OnErr, OnOk, MatchResult};
ghost use Rattle.derivation_cache.specs.Known.{longer};
ghost use Rattle.history_core.specs.History.{EachNumber, HasEnd, AreEnded, without};
ghost use Rattle.outside.specs.Faults.{RoseBy};
ghost use Rattle.runtime_histories.specs.Pins.{live_of};
ghost use Rattle.runtime_room.specs.Desks.{HasAsked, blame};
ghost use Rattle.runtime_room.specs.Rooms.{IsHistory, entries_of, deeds_of};
ghost use Rattle.gconv_runtime.specs.Tokens.{Knows, Leads, number, front, lead_front, next_number};
ghost use Rattle.gconv_runtime.specs.Tokens.{away_of, ended_of, lead_ground};

use crate::tokens::{Caller, Closed, Front, Gconv, Holding, Lead};
use derivation_cache::Told;
use outside::Library;
use runtime_room::Desk;
use std::alloc::AllocError;
use std::sync::Wait;

/// Keeps the longer of two lists.
fn keep_longer(kept: &mut Told, told: Told)
    ensures { kept.new ≡ longer kept.old told }
{
    if kept.len() < told.len() {
        *kept = told;
    }
}

/// Ends the cache, and hands out library and journal.
fn closed_of<R: Wait, L>(rt: &R, desk: Desk<L>) -> Closed<L>
    ensures library { result.library ≡ desk.library }
    ensures journal { result.journal.items ≡ desk.counts.journal }
{
    let Desk {
        counts,
        graph: _,
        aliases: _,
        library,
        directory: _,
        layouts: _,
        cache,
        first: _,
    } = desk;
    cache.end(rt);
    Closed {
        library,
        journal: counts.done(),
    }
}

impl<L: Library> Lead<L> {
    /// How many callers were made and not ended.
    pub fn away(&self) -> u32
        ensures { result ≡ length (away_of self.now) }
    {
        self.lead.away()
    }
}

impl<L: Library> Gconv<L> {
    /// Makes the next caller, numbered from 1, where a view is left for it. It takes no turn.
    pub fn caller(&self, lead: &mut Lead<L>) -> Result<Caller<L>, AllocError>
        requires lead { Leads self.now lead.old }
        requires few { next_number lead.old < 2 ^ 32 }
        ensures lead { Leads self.now lead.new }
        ensures knows { IfOk result (Knows self.now) }
        ensures number { IfOk result (λ caller. number caller ≡ next_number lead.old) }
        ensures front { IfOk result (λ caller. front caller ≡ lead_front lead.old) }
        // The history has no entry of the number yet.
        ensures none { IfOk result (λ caller. EachNumber (λ n. n ≢ number caller) (front caller)) }
        ensures next { OnOk result (next_number lead.new ≡ next_number lead.old + 1) }
        ensures away { OnOk result (away_of lead.new ≡ next_number lead.old ∷ away_of lead.old) }
        ensures ended { ended_of lead.new ≡ ended_of lead.old }
        ensures err { OnErr result ((next_number lead.new ≡ next_number lead.old)
            × (away_of lead.new ≡ away_of lead.old)) }
    {
        let told = lead.told.share().ok_or(AllocError)?;
        let heard = lead.told.share().ok_or(AllocError)?;
        let mut view = lead.views.pop().ok_or(AllocError)?;
        view.learn(heard);
        let pass = self.hall.split(&mut lead.lead)?;
        let _number = pass.number();
        Ok(Caller {
            pass,
            view,
            told,
            live: 0,
        })
    }

    /// Ends a caller that has no live descriptor.
    pub fn end(&self, lead: &mut Lead<L>, caller: Caller<L>) -> Result<Front, Holding<L>>
        requires lead { Leads self.now lead.old }
        requires knows { Knows self.now caller }
        ensures lead { Leads self.now lead.new }
        // Holding comes exactly where the caller has live descriptors.
        ensures ended { MatchResult result
            (λ seen. (live_of (number caller) (deeds_of (front caller)) ≡ [])
            × (seen.length ≡ length (front caller))
            × (ended_of lead.new ≡ (number caller, front caller) ∷ ended_of lead.old)
            × AreEnded (ended_of lead.new) (lead_front lead.new))
            (λ holding. (0 < holding.count)
            × (holding.count ≡ length (live_of (number caller) (deeds_of (front caller))))
            × (holding.caller ≡ caller) × (lead.new ≡ lead.old)) }
        ensures next { next_number lead.new ≡ next_number lead.old }
        ensures away { OnOk result (away_of lead.new ≡ without (number caller) (away_of lead.old)) }
    {
        if caller.live > 0 {
            return Err(Holding {
                count: caller.live,
                caller,
            });
        }
        let length = caller.pass.seen();
        let Caller {
            pass,
            view: _,
            told,
            live: _,
        } = caller;
        self.hall.join(&mut lead.lead, pass);
        keep_longer(&mut lead.told, told);
        Ok(Front { length })
    }

    /// Ends the runtime and its cache, and hands out its library and its journal, the whole history.
    pub fn close<R: Wait>(self, rt: &R, lead: Lead<L>) -> Closed<L>
        requires lead { Leads self lead }
        requires home { length (away_of lead) ≡ 0 }
        ensures journal { result.journal.items ≡ entries_of (lead_front lead) }
        ensures legal { IsHistory (lead_ground self lead) (lead_front lead) }
        // Each caller's entries are those that it had seen at its end, and no other is there.
        ensures ended { AreEnded (ended_of lead) (lead_front lead) }
        ensures all { EachNumber (HasEnd (ended_of lead)) (lead_front lead) }
        // The journal blames the library at most as often as it failed.
        ensures blamed { RoseBy (blame (entries_of (lead_front lead)))
            (lead_ground self lead).handed.faults (L.holdings result.library).faults }
        // Its texts stayed, and it was asked for what the journal asks for, and besides that for what
        // openings asked for that gave up.
        ensures asked { HasAsked (lead_ground self lead).setting (entries_of (lead_front lead))
            (lead_ground self lead).handed (L.holdings result.library) }
    {
        let Gconv { hall, aliases: _ } = self;
        let Lead {
            lead,
            views: _,
            told: _,
        } = lead;
        closed_of(rt, hall.close(lead))
    }

    /// Ends the runtime whoever is away, and hands out library and journal where the value is at home.
    pub fn abandon<R: Wait>(self, rt: &R, lead: Lead<L>) -> Option<Closed<L>>
        requires lead { Leads self lead }
        ensures none { IfNone result (length (away_of lead) ≢ 0) }
        // Where nobody is away the journal is the whole history.
        ensures journal { IfSome result (λ closed. length (away_of lead) ≡ 0
            → closed.journal.items ≡ entries_of (lead_front lead)) }
    {
        let Gconv { hall, aliases: _ } = self;
        let Lead {
            lead,
            views: _,
            told: _,
        } = lead;
        let desk = hall.abandon(lead)?;
        Some(closed_of(rt, desk))
    }
}

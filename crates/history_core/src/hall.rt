//! The calls on a hall, its lead and its passes.
ghost use Rattle.std.specs.Prelude.{◌≡◌, ◌≢◌, ℕ, ◌+◌, ◌<◌, ◌^◌, [], ◌∷◌, ◌++◌, length};
ghost use Rattle.std.specs.Prelude.{IfOk, IfErr, IfSome, IfNone, IsOk, IsSome, None, Some};
ghost use Rattle.history_core.specs.History.{History, EachNumber, Since, Grows, Has, HasEnd};
ghost use Rattle.history_core.specs.History.{AreEnded, mine_of, longer, without};
ghost use Rattle.history_core.specs.Seats.{filled_of, front_of, number_of};
ghost use Rattle.history_core.specs.Seats.{IsIdle, IsServed, Seized};
ghost use Rattle.history_core.specs.Rule.{Takes};
ghost use Rattle.history_core.specs.Tokens.{setting_of, words_of, id_of, number, front, front_with};
ghost use Rattle.history_core.specs.Tokens.{pinned_of, lead_front, next_number, away_of, ended_of};
ghost use Rattle.history_core.specs.Tokens.{IsPassOf, IsLeadOf, IsCovered, IsSame, Took};

use crate::plays::{Commit, Fill, JoinPass, Look, Read, Release, Settle, SplitPass, Take};
use crate::rule::{HallKey, HallSeat, HallTable, Held};
use crate::story::Story;
use crate::tokens::{Hall, Lead, NoHall, Pass, Turn};
use atomic_table::{Refused, Table};
use std::alloc::{AllocError, AllocFailed, Global};
use std::hint::spin_loop;
use std::snapshot::Snapshot;
use std::sync::Wait;

/// So often a caller looks at a turn that is taken before it sleeps.
const LOOKS: u32 = 100;

impl<S: Story> Lead<S> {
    /// How many passes were split and not joined.
    pub fn away(&self) -> u32
        ensures { result ≡ length (away_of self.now) }
    {
        self.away
    }
}

impl<S: Story> Pass<S> {
    /// The number of the caller, from 1.
    pub fn number(&self) -> u32
        ensures value { result ≡ number self.now }
        ensures some { 0 < result }
    {
        self.number
    }

    /// How long the front is.
    pub fn seen(&self) -> u64
        ensures { result ≡ length (front self.now) }
    {
        self.seen
    }
}

impl<S: Story> Hall<S> {
    /// A hall with the empty history and so many side words, all 0.
    pub fn new(
        alloc: Global,
        value: S::Value,
        words: u32,
    ) -> Result<(Hall<S>, Lead<S>), NoHall<S::Value>>
        requires stands { S.stands value [] }
        requires legal { S.legal (S.setting value) [] }
        requires free { (n place : ℕ) → S.pinned (S.setting value) [] n place ≡ None }
        ensures setting { IfOk result (λ made. setting_of S.setting made.0 ≡ S.setting value) }
        ensures words { IfOk result (λ made. words_of made.0 ≡ words) }
        ensures lead { IfOk result (λ made. IsLeadOf made.0 made.1 × (next_number made.1 ≡ 1)) }
        ensures empty { IfOk result (λ made.
            (lead_front made.1 ≡ []) × (away_of made.1 ≡ []) × (ended_of made.1 ≡ [])) }
        ensures err { IfErr result (λ e. e.value ≡ value) }
    {
        let Ok(row) = Vec::from_elem(alloc, 0u64, words as usize + 2) else {
            return Err(NoHall { value });
        };
        let key = HallKey {
            value: Snapshot::of(&value),
            words,
        };
        let mut slots = Vec::new(alloc);
        if let Err(refused) = slots.push(Held::Home(value)) {
            let AllocFailed { value: held } = refused;
            slots.destroy_empty();
            let Held::Home(value) = held else {
                unreachable!()
            };
            return Err(NoHall { value });
        }
        let made: Result<(HallTable<S>, HallSeat<S>), Refused<Held<S::Value, S::Entry>, Global>> =
            Table::new(alloc, row.as_slice(), slots, &key);
        match made {
            Ok((table, seat)) => Ok((
                Hall { table },
                Lead {
                    seat,
                    away: 0,
                    given: 1,
                    seen: 0,
                },
            )),
            Err(refused) => {
                let Refused { mut slots } = refused;
                let Some(held) = slots.pop() else {
                    unreachable!()
                };
                slots.destroy_empty();
                let Held::Home(value) = held else {
                    unreachable!()
                };
                Err(NoHall { value })
            }
        }
    }

    /// Makes the pass with the next number, from 1. It takes no memory.
    pub fn split(&self, lead: &mut Lead<S>) -> Result<Pass<S>, AllocError>
        requires own { IsLeadOf self.now lead.old }
        requires few { next_number lead.old < 2 ^ 32 }
        ensures own { IsLeadOf self.now lead.new }
        ensures pass { IfOk result (IsPassOf self.now) }
        ensures number { IfOk result (λ pass. number pass ≡ next_number lead.old) }
        ensures front { IfOk result (λ pass. front pass ≡ lead_front lead.old) }
        // The history has no entry of the number yet.
        ensures none { IfOk result (λ pass. EachNumber (λ n. n ≢ number pass) (front pass)) }
        ensures away { away_of lead.new ≡ next_number lead.old ∷ away_of lead.old }
        ensures next { next_number lead.new ≡ next_number lead.old + 1 }
        ensures same { (lead_front lead.new ≡ lead_front lead.old)
            × (ended_of lead.new ≡ ended_of lead.old) }
        ensures made { IsOk result }
    {
        let seen = lead.seen;
        let number = lead.given as u32;
        let seat = self.table.shared.split_seat::<SplitPass>(&mut lead.seat);
        lead.given += 1;
        lead.away += 1;
        Ok(Pass { seat, number, seen })
    }

    /// Ends a pass.
    pub fn join(&self, lead: &mut Lead<S>, pass: Pass<S>)
        requires own { IsLeadOf self.now lead.old }
        requires pass { IsPassOf self.now pass }
        ensures own { IsLeadOf self.now lead.new }
        ensures longer { lead_front lead.new ≡ longer (lead_front lead.old) (front pass) }
        // What came to the lead's front is of passes that were away, what came to the pass's of
        // others.
        ensures begins { Since (Has (away_of lead.old)) (lead_front lead.old) (lead_front lead.new)
            × Grows (number pass) (front pass) (lead_front lead.new) }
        ensures mine { mine_of (number pass) (lead_front lead.new)
            ≡ mine_of (number pass) (front pass) }
        ensures away { away_of lead.new ≡ without (number pass) (away_of lead.old) }
        ensures next { next_number lead.new ≡ next_number lead.old }
        ensures ended { ended_of lead.new ≡ (number pass, front pass) ∷ ended_of lead.old }
        // The history gets no further entry of a number that was joined.
        ensures none { AreEnded (ended_of lead.new) (lead_front lead.new) }
    {
        let Pass {
            seat,
            number: _,
            seen,
        } = pass;
        let shared = &self.table.shared;
        shared.join_seat::<JoinPass>(&mut lead.seat, seat);
        lead.away = lead.away.saturating_sub(1);
        if lead.seen < seen {
            lead.seen = seen;
        }
        let _ = shared.load::<Settle>(&mut lead.seat, 0);
    }

    /// Tries until it has the turn, and takes the value.
    pub fn turn<'a, R: Wait>(&'a self, rt: &R, pass: &'a mut Pass<S>) -> Turn<'a, S>
        requires { IsPassOf self.now pass.old }
        ensures same { (result.pass.ghost_name ≡ pass.entry.ghost_name)
            × (result.hall.now ≡ self.now) }
        ensures took { Took self.now pass.old result }
        ensures mine { mine_of (number pass.old) (front result.pass.now)
            ≡ mine_of (number pass.old) (front pass.old) }
    {
        let value = self.take_turn(rt, pass);
        Turn {
            hall: self,
            pass,
            value,
        }
    }

    /// The word that the pass's number has pinned at the place.
    #[inline(always)]
    pub fn read(&self, pass: &mut Pass<S>, place: u32) -> u64
        requires own { IsPassOf self.now pass.old }
        requires inside { place < words_of self.now }
        requires pinned { IsSome (pinned_of self.now pass.old place) }
        ensures word { pinned_of self.now pass.old place ≡ Some result }
        ensures own { IsPassOf self.now pass.new }
        ensures same { IsSame pass.old pass.new }
    {
        self.table
            .shared
            .load::<Read<S>>(&mut pass.seat, 2 + place as usize)
    }

    /// Ends the hall, and hands out the value. It stands for the whole history, the lead's front.
    pub fn close(self, lead: Lead<S>) -> S::Value
        requires own { IsLeadOf self lead }
        requires home { length (away_of lead) ≡ 0 }
        ensures stands { S.stands result (lead_front lead) }
        ensures setting { S.setting result ≡ setting_of S.setting self }
        ensures legal { S.legal (setting_of S.setting self) (lead_front lead) }
        ensures ended { AreEnded (ended_of lead) (lead_front lead) }
        // Each entry is of a pass that was joined.
        ensures all { EachNumber (HasEnd (ended_of lead)) (lead_front lead) }
    {
        let Lead {
            seat,
            away: _,
            given: _,
            seen: _,
        } = lead;
        let Hall { table } = self;
        let mut closed = table.close_with(seat);
        let held = closed.take(0);
        closed.free();
        match held {
            Held::Home(value) => value,
            _ => unreachable!(),
        }
    }

    /// Ends the hall whoever is away, and hands out the value where it is at home.
    pub fn abandon(self, lead: Lead<S>) -> Option<S::Value>
        requires { IsLeadOf self lead }
        ensures none { IfNone result (length (away_of lead) ≢ 0) }
        // Where nobody is away it is as `close`.
        ensures stands { IfSome result (λ value. length (away_of lead) ≡ 0
            → S.stands value (lead_front lead) × (S.setting value ≡ setting_of S.setting self)) }
        ensures legal { length (away_of lead) ≡ 0
            → S.legal (setting_of S.setting self) (lead_front lead) }
    {
        let Lead {
            seat,
            away: _,
            given: _,
            seen: _,
        } = lead;
        let Hall { table } = self;
        let mut closed = table.close_with(seat);
        let held = closed.take(0);
        closed.free();
        match held {
            Held::Home(value) => Some(value),
            Held::Committing(entry) => {
                drop(entry);
                None
            }
            Held::Out => None,
        }
    }

    /// Takes the turn and the value for a pass.
    fn take_turn<R: Wait>(&self, rt: &R, pass: &mut Pass<S>) -> S::Value
        requires { IsPassOf self.now pass.old }
        ensures { Seized S.setting S.legal S.stands (id_of self.now) (setting_of S.setting self.now)
            pass.old.seat pass.new.seat result }
    {
        let (value, seen) = self.wait_turn(rt, &mut pass.seat);
        pass.seen = seen;
        value
    }

    /// Looks at the turn for a while, as long as it is taken and nobody sleeps until it ends.
    fn look_on(&self) {
        for _ in 0..LOOKS {
            if self.table.shared.peek(1) != 1 {
                return;
            }
            spin_loop();
        }
    }

    /// Waits until the turn is free; the number is the length of the history. Where it isn't soon
    /// free, the caller says so in the turn's word and sleeps until a turn ends.
    fn wait_turn<R: Wait>(&self, rt: &R, seat: &mut HallSeat<S>) -> (S::Value, u64)
        requires own { IsIdle (id_of self.now) (setting_of S.setting self.now) seat.old }
        requires pass { 0 < number_of seat.old }
        ensures took { Seized S.setting S.legal S.stands (id_of self.now)
            (setting_of S.setting self.now) seat.old seat.new result.0 }
        ensures seen { result.1 ≡ length (front_of seat.new) }
    {
        self.look_on();
        if let Some(got) = self.try_turn(seat, false) {
            return got;
        }
        for _ in rt.forever() {
            if let Some(got) = self.try_turn(seat, true) {
                return got;
            }
            self.table.shared.park(rt, 1, 2);
            self.look_on();
        }
        unreachable!()
    }

    /// Takes the turn where it is free, and tells what its word was. A caller that sleeps else puts
    /// 2 in, so that the end of the turn wakes one.
    fn ask_turn(&self, seat: &mut HallSeat<S>, sleeps: bool) -> u64
        requires own { IsIdle (id_of self.now) (setting_of S.setting self.now) seat.old }
        requires pass { 0 < number_of seat.old }
        ensures table { seat.new.table_id ≡ seat.old.table_id }
        ensures free { result ≡ 0 → Takes S.setting S.legal S.stands S.pinned
            (setting_of S.setting self.now) seat.old.me.0 seat.new.me }
        ensures taken { result ≢ 0 → seat.new.me ≡ seat.old.me }
    {
        let shared = &self.table.shared;
        if sleeps {
            shared.swap::<Take<S>>(seat, 1, 2)
        } else {
            shared.compare_exchange::<Take<S>>(seat, 1, 0, 1)
        }
    }

    /// Takes the turn and the value where the turn is free.
    fn try_turn(&self, seat: &mut HallSeat<S>, sleeps: bool) -> Option<(S::Value, u64)>
        requires own { IsIdle (id_of self.now) (setting_of S.setting self.now) seat.old }
        requires pass { 0 < number_of seat.old }
        ensures same { IfNone result
            ((seat.new.table_id ≡ seat.old.table_id) × (seat.new.me ≡ seat.old.me)) }
        ensures took { IfSome result (λ got. Seized S.setting S.legal S.stands (id_of self.now)
            (setting_of S.setting self.now) seat.old seat.new got.0
            × (got.1 ≡ length (front_of seat.new))) }
    {
        if self.ask_turn(seat, sleeps) != 0 {
            return None;
        }
        let shared = &self.table.shared;
        let held = shared.exchange(seat, 0, Held::Out);
        let seen = shared.load::<Look>(seat, 0);
        match held {
            Held::Home(value) => Some((value, seen)),
            _ => unreachable!(),
        }
    }

    /// Stores the entry and the value, and ends the turn.
    pub(crate) fn put_entry(&self, pass: &mut Pass<S>, value: S::Value, entry: S::Entry)
        requires served { IsServed (id_of self.now) (setting_of S.setting self.now) pass.old.seat }
        requires room { length (front pass.old) + 1 < 2 ^ 64 }
        requires stands { S.stands value (front_with pass.old entry) }
        requires setting { S.setting value ≡ setting_of S.setting self.now }
        requires legal { S.legal (setting_of S.setting self.now) (front_with pass.old entry) }
        requires covered { IsCovered self.now pass.old entry }
        ensures own { IsPassOf self.now pass.new }
        ensures front { front pass.new ≡ front_with pass.old entry }
        ensures number { number pass.new ≡ number pass.old }
    {
        let seen = pass.seen;
        let shared = &self.table.shared;
        let found = shared.exchange(&mut pass.seat, 0, Held::Committing(entry));
        let Held::Out = found else { unreachable!() };
        shared.store::<Commit>(&mut pass.seat, 0, seen + 1);
        pass.seen = seen + 1;
        let found = shared.exchange(&mut pass.seat, 0, Held::Home(value));
        let Held::Committing(stored) = found else {
            unreachable!()
        };
        drop(stored);
        let word = shared.swap::<Release>(&mut pass.seat, 1, 0);
        self.wake(word);
    }

    /// Puts the value back, and ends the turn.
    pub(crate) fn put_back(&self, pass: &mut Pass<S>, value: S::Value)
        requires served { IsServed (id_of self.now) (setting_of S.setting self.now) pass.old.seat }
        requires stands { S.stands value (front pass.old) }
        requires setting { S.setting value ≡ setting_of S.setting self.now }
        requires legal { S.legal (setting_of S.setting self.now) (front pass.old) }
        ensures own { IsPassOf self.now pass.new }
        ensures front { front pass.new ≡ front pass.old }
        ensures number { number pass.new ≡ number pass.old }
    {
        let shared = &self.table.shared;
        let found = shared.exchange(&mut pass.seat, 0, Held::Home(value));
        let Held::Out = found else { unreachable!() };
        let word = shared.swap::<Release>(&mut pass.seat, 1, 0);
        self.wake(word);
    }

    /// Wakes one that sleeps, where the turn's word, as it was found, says that one may.
    fn wake(&self, word: u64) {
        if word == 2 {
            self.table.shared.wake_one(1);
        }
    }

    /// Stores a side word in a turn.
    pub(crate) fn fill_in(&self, seat: &mut HallSeat<S>, place: u32, word: u64)
        requires served { IsServed (id_of self.now) (setting_of S.setting self.now) seat.old }
        requires inside { place < words_of self.now }
        requires free { (n : ℕ) →
            S.pinned (setting_of S.setting self.now) (front_of seat.old) n place ≡ None }
        ensures { (seat.new.table_id ≡ seat.old.table_id)
            × (seat.new.me ≡ (
              record seat.old.me.0 {
                filled = (place, word) ∷ filled_of seat.old;
              },
              seat.old.me.1,
            )) }
    {
        self.table
            .shared
            .store::<Fill>(seat, 2 + place as usize, word);
    }
}

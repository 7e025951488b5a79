//! A board of numbers and its drawers.
ghost use Rattle.std.specs.Prelude.{◌≡◌, ◌≤◌, true, false, [], length, IfOk, IsOk, MatchOption};
ghost use Rattle.crossbeam_queue.specs.Passes.{view, IsPassOf, ruled_capacity};
ghost use Rattle.job_board.specs.Numbers.{AreSame, most_numbers};
ghost use Rattle.job_board.specs.Rule.{first, may_act};
ghost use Rattle.job_board.specs.Drawers.{drawn_by, is_drained, numbers_of, away_from, IsDrawer, IsLead, IsSplit, Draws, Drains, Splits, Joins, Leaves};

use crate::hand::{Hand, Ticket};
use crate::rule::{Fair, Parts, Puts, Takes};
use crossbeam_queue::{Pass, RuledArrayQueue};
use std::alloc::{AllocError, Global};
use std::sync::Wait;

type Queue = RuledArrayQueue<Ticket, Hand, Fair>;

/// Numbers that are left to draw, in the order in which they were given.
#[derive(Drop)]
pub struct Board {
    pub(crate) queue: Queue,
}

/// One who draws. A clause sees which numbers it drew, and whether it knows that none is left.
#[derive(Drop)]
pub struct Drawer {
    pub(crate) pass: Pass<Ticket, Hand>,
}

/// Puts numbers in, which nobody has seen yet.
fn fill<R: Wait>(rt: &R, queue: &Queue, pass: &mut Pass<Ticket, Hand>, numbers: &[u32])
    requires queue { IsPassOf queue.now pass.old }
    requires room { length numbers.now ≤ ruled_capacity queue.now }
    requires fresh { view pass.old ≡ first }
    ensures queue { IsPassOf queue.now pass.new }
    ensures all { view pass.new ≡ record first { all = numbers.now } }
{
    for number in numbers {
        match queue.push_as::<Puts, R>(rt, pass, Ticket::Number(*number)) {
            Ok(()) => {}
            Err(_) => unreachable!(),
        }
    }
}

/// Takes the number at the front. Where there is none, a stop is put in and taken out, behind which
/// no number stands.
fn take<R: Wait>(rt: &R, queue: &Queue, pass: &mut Pass<Ticket, Hand>) -> Option<u32>
    requires queue { IsPassOf queue.now pass.old }
    requires may { may_act (view pass.old) ≡ true }
    ensures queue { IsPassOf queue.now pass.new }
    ensures value { MatchOption result (Drains (view pass.old) (view pass.new))
        (Draws (view pass.old) (view pass.new)) }
{
    for _ in rt.forever() {
        match queue.pop_as::<Takes, R>(rt, pass) {
            Some(Ticket::Number(number)) => return Some(number),
            Some(Ticket::Stop) => return None,
            None => {
                let _full = queue.push_as::<Puts, R>(rt, pass, Ticket::Stop);
            }
        }
    }
    unreachable!()
}

impl Board {
    /// A board of these numbers, and the drawer that leads.
    pub fn new<R: Wait>(
        rt: &R,
        alloc: Global,
        numbers: &[u32],
    ) -> Result<(Board, Drawer), AllocError>
        requires { length numbers.now ≤ most_numbers }
        ensures { IfOk result (λ b. IsLead b.0 b.1 × (view b.1.pass ≡ record first { all = numbers.now })) }
    {
        let places = if numbers.is_empty() { 1 } else { numbers.len() };
        let (queue, mut pass) = Queue::ruled(alloc, places)?;
        fill(rt, &queue, &mut pass, numbers);
        Ok((Board { queue }, Drawer { pass }))
    }

    /// A drawer more, which has drawn nothing. It takes no memory.
    pub fn split(&self, lead: &mut Drawer) -> Result<Drawer, AllocError>
        requires { IsLead self.now lead.old }
        ensures ok { IsOk result }
        ensures lead { Splits self.now lead.old lead.new }
        ensures drawer { IfOk result (λ d. IsSplit self.now d × (drawn_by d ≡ [])
            × (is_drained d ≡ false)) }
    {
        let pass = self.queue.another::<Parts>(&mut lead.pass);
        Ok(Drawer { pass })
    }

    /// Draws the number at the front. With none the drawer is drained: no number is left, for good.
    pub fn draw<R: Wait>(&self, rt: &R, drawer: &mut Drawer) -> Option<u32>
        requires { IsDrawer self.now drawer.old }
        ensures drawer { IsDrawer self.now drawer.new }
        ensures value { MatchOption result (Drains (view drawer.old.pass) (view drawer.new.pass))
            (Draws (view drawer.old.pass) (view drawer.new.pass)) }
        ensures few { (view drawer.old.pass).leads ≡ true
            → length (drawn_by drawer.new) ≤ length (numbers_of drawer.new) }
        ensures all { (view drawer.old.pass).leads ≡ true → away_from drawer.old ≡ 0
            → is_drained drawer.new ≡ true → AreSame (numbers_of drawer.new) (drawn_by drawer.new) }
    {
        let number = take(rt, &self.queue, &mut drawer.pass);
        self.queue.learn_as::<Takes>(&mut drawer.pass);
        number
    }

    /// Takes a drawer in, with what it drew.
    pub fn join(&self, lead: &mut Drawer, drawer: Drawer)
        requires lead { IsLead self.now lead.old }
        requires drawer { IsSplit self.now drawer }
        ensures { Joins self.now lead.old drawer lead.new }
    {
        self.queue.absorb::<Parts>(&mut lead.pass, drawer.pass);
    }

    /// How many numbers are left, where all drawers were joined. They are drawn from the board.
    pub fn settle<R: Wait>(self, rt: &R, mut lead: Drawer) -> u32
        requires lead { IsLead self lead }
        requires joined { away_from lead ≡ 0 }
        ensures left { Leaves (numbers_of lead) (drawn_by lead) result }
        ensures drained { is_drained lead ≡ true → result ≡ 0 }
    {
        let mut left: u32 = 0;
        for _ in rt.forever() {
            match self.draw(rt, &mut lead) {
                Some(_) => left += 1,
                None => return left,
            }
        }
        unreachable!()
    }
}

//! Two threads add the amounts 1 to 1,000 each, one a turn.
ghost use Rattle.std.specs.Prelude.{◌≡◌, true, [], ◌∷◌, ◌++◌, length, IfSome, MatchBool};
ghost use Rattle.std.specs.List.{range_with_len};
ghost use Rattle.history_core.specs.Tokens.{number, front, lead_front, away_of, ended_of};
ghost use Rattle.history_core.specs.Tokens.{IsPassOf, IsLeadOf};
ghost use Rattle.two_threads.specs.Amounts.{amounts_of, AreTwo};

use crate::tally::{Noted, Tally};
use history_core::{Hall, Lead, Pass};
use std::alloc::Global;
use std::snapshot::Snapshot;
use std::sync::Wait;
use std::thread::{Threads, join};

/// Adds an amount, unless the sum would be too large.
fn add<R: Wait>(rt: &R, hall: &Hall<Tally>, pass: &mut Pass<Tally>, amount: u64) -> bool
    requires { IsPassOf hall.now pass.old }
    ensures pass { IsPassOf hall.now pass.new }
    ensures number { number pass.new ≡ number pass.old }
    ensures added { MatchBool result
        (amounts_of (number pass.old) (front pass.new)
        ≡ amounts_of (number pass.old) (front pass.old) ++ amount ∷ [])
        (amounts_of (number pass.old) (front pass.new)
        ≡ amounts_of (number pass.old) (front pass.old)) }
{
    let mut turn = hall.turn(rt, pass);
    if turn.seen() == u64::MAX {
        turn.leave();
        return false;
    }
    let value = turn.value();
    match value.checked_add(amount) {
        Some(sum) => {
            *value = sum;
            turn.commit(Noted {
                amount: Snapshot::of(&amount),
            });
            true
        }
        None => {
            turn.leave();
            false
        }
    }
}

/// Adds the amounts 1 to 1,000, one a turn.
fn add_all<R: Wait>(rt: &R, hall: &Hall<Tally>, mut pass: Pass<Tally>) -> (Pass<Tally>, bool)
    requires own { IsPassOf hall.now pass }
    requires none { amounts_of (number pass) (front pass) ≡ [] }
    ensures pass { IsPassOf hall.now result.0 }
    ensures number { number result.0 ≡ number pass }
    ensures added { result.1 ≡ true
        → amounts_of (number pass) (front result.0) ≡ range_with_len 1 1000 }
{
    let mut amount = 1;
    while amount <= 1000 {
        if !add(rt, hall, &mut pass, amount) {
            return (pass, false);
        }
        amount += 1;
    }
    (pass, true)
}

/// Closes a hall in which two passes added the amounts 1 to 1,000 each, and no other was made.
fn closed(hall: Hall<Tally>, lead: Lead<Tally>) -> u64
    requires own { IsLeadOf hall lead }
    requires home { length (away_of lead) ≡ 0 }
    requires two { AreTwo (ended_of lead) }
    requires first { amounts_of 1 (lead_front lead) ≡ range_with_len 1 1000 }
    requires second { amounts_of 2 (lead_front lead) ≡ range_with_len 1 1000 }
    ensures sum { result ≡ 1001000 }
    ensures count { length (lead_front lead) ≡ 2000 }
{
    hall.close(lead)
}

/// The sum after 2,000 commits of two threads.
pub fn add_by_two<R: Threads + Wait + Sync>(rt: &R, alloc: Global) -> Option<u64>
    ensures { IfSome result (λ sum. sum ≡ 1001000) }
{
    let made = Hall::<Tally>::new(alloc, 0, 0);
    let Ok((hall, mut lead)) = made else {
        return None;
    };
    let Ok(one) = hall.split(&mut lead) else {
        unreachable!()
    };
    let Ok(two) = hall.split(&mut lead) else {
        unreachable!()
    };
    let ((one, first), (two, second)) = join(
        rt,
        || -> (Pass<Tally>, bool)
            requires { IsPassOf hall one × (number one ≡ 1) × (amounts_of 1 (front one) ≡ []) }
            ensures { IsPassOf hall result.0 × (number result.0 ≡ 1)
                × (result.1 ≡ true → amounts_of 1 (front result.0) ≡ range_with_len 1 1000) }
        { add_all(rt, &hall, one) },
        || -> (Pass<Tally>, bool)
            requires { IsPassOf hall two × (number two ≡ 2) × (amounts_of 2 (front two) ≡ []) }
            ensures { IsPassOf hall result.0 × (number result.0 ≡ 2)
                × (result.1 ≡ true → amounts_of 2 (front result.0) ≡ range_with_len 1 1000) }
        { add_all(rt, &hall, two) },
    );
    hall.join(&mut lead, one);
    hall.join(&mut lead, two);
    if first && second && lead.away() == 0 {
        Some(closed(hall, lead))
    } else {
        let _ = hall.abandon(lead);
        None
    }
}

/// The sum after so many commits of one thread, each of 1.
pub fn add_often<R: Wait>(rt: &R, alloc: Global, times: u32) -> Option<u64> {
    let made = Hall::<Tally>::new(alloc, 0, 0);
    let Ok((hall, mut lead)) = made else {
        return None;
    };
    let Ok(mut pass) = hall.split(&mut lead) else {
        unreachable!()
    };
    for _ in 0..times {
        if !add(rt, &hall, &mut pass, 1) {
            break;
        }
    }
    hall.join(&mut lead, pass);
    hall.abandon(lead)
}

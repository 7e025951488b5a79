//! The rule of a board's queue, and what each step does to what is known of a drawer.

use crate::hand::{Hand, Ticket};
use crossbeam_queue::protocol::{Join, Lesson, Outcome, Protocol, Split};

/// What holds between any two steps.
pub struct Fair;

impl Protocol<Ticket, Hand> for Fair {
    ghost use Rattle.job_board.specs.Rule.{IsFair, first};

    ghost holds = { IsFair };

    ghost first = { first };
}

/// A ticket is put in.
pub struct Puts;

impl Outcome<Ticket, Hand> for Puts {
    ghost use Rattle.job_board.specs.Rule.{IsPut};

    ghost then = { IsPut };
}

impl Lesson<Ticket, Hand> for Puts {
    ghost use Rattle.job_board.specs.Rule.{Knows};

    ghost fact = { Knows };
}

/// A ticket is taken out.
pub struct Takes;

impl Outcome<Ticket, Hand> for Takes {
    ghost use Rattle.job_board.specs.Rule.{IsTaken};

    ghost then = { IsTaken };
}

impl Lesson<Ticket, Hand> for Takes {
    ghost use Rattle.job_board.specs.Rule.{Knows};

    ghost fact = { Knows };
}

/// A drawer is split from its leader, and joined.
pub struct Parts;

impl Split<Hand> for Parts {
    ghost use Rattle.job_board.specs.Rule.{with_split, beginner};

    ghost left = { with_split };

    ghost right = { λ v. beginner };
}

impl Join<Hand> for Parts {
    ghost use Rattle.job_board.specs.Rule.{with_drawer, spent};

    ghost both = { with_drawer };

    ghost spent = { spent };
}

//! Workers are made and ended.

ghost use Rattle.std.specs.Prelude.{◌≡◌, ◌≤◌, ◌+◌, [], ◌++◌, ◌||◌, false, length, vec_len, vec_capacity};
ghost use Rattle.std.specs.Prelude.{map, All, IfOk, OnErr, OnOk};
ghost use Rattle.job_board.specs.Drawers.{IsLead, IsSplit, Joins, Splits, away_from, is_drained};
ghost use Rattle.batch_workers.specs.Parts.{empty_roll, most_callers, new_part, with_caller, with_end};
ghost use Rattle.batch_workers.specs.Toils.{AreNumbered};
ghost use Rattle.batch_workers.specs.Stints.{CanWork};
ghost use Rattle.batch_workers.specs.Teams.{HasJoined, HasMade, IsReady, countdown, filled, parts_of};
ghost use Rattle.batch_workers.specs.Teams.{pieces_in, some_drained, some_wanting, stints_of};

use crate::piece::Piece;
use crate::shared::Shared;
use crate::worker::Worker;
use job_board::{Board, Drawer};
use std::alloc::{AllocError, Global};

/// Makes a worker.
fn make_one<S: Shared>(
    alloc: Global,
    shared: &S,
    board: &Board,
    lead: &mut S::Lead,
    drawer: &mut Drawer,
) -> Result<Worker<S::Caller>, AllocError>
    requires leads { S.leads shared.now lead.old }
    requires lead { IsLead board.now drawer.old }
    requires few { (S.roll lead.old).next ≤ most_callers }
    ensures leads { S.leads shared.now lead.new }
    ensures can { IfOk result (CanWork S.part (S.knows shared.now) board.now) }
    ensures part { IfOk result (λ w. S.part w.caller ≡ new_part (S.roll lead.old).next) }
    ensures roll { OnOk result (S.roll lead.new ≡ with_caller (S.roll lead.old)) }
    ensures splits { OnOk result (Splits board.now drawer.old drawer.new) }
    ensures err { OnErr result ((S.roll lead.new ≡ S.roll lead.old) × (drawer.new ≡ drawer.old)) }
{
    let caller = shared.caller(lead)?;
    let Ok(drawer) = board.split(drawer) else {
        unreachable!()
    };
    Ok(Worker {
        caller,
        drawer,
        pieces: Vec::new(alloc),
        scratch: Vec::new(alloc),
        wanting: false,
    })
}

/// Makes so many workers, for which there is room.
pub fn make_all<S: Shared>(
    alloc: Global,
    shared: &S,
    board: &Board,
    lead: &mut S::Lead,
    drawer: &mut Drawer,
    count: u32,
    workers: &mut Vec<Worker<S::Caller>>,
) -> Result<(), AllocError>
    requires leads { S.leads shared.now lead.old }
    requires lead { IsLead board.now drawer.old }
    requires roll { S.roll lead.old ≡ empty_roll }
    requires few { count ≤ most_callers }
    requires none { workers.old.items ≡ [] }
    requires room { count ≤ vec_capacity workers.old }
    ensures leads { S.leads shared.now lead.new }
    ensures lead { IsLead board.now drawer.new }
    ensures can { All (CanWork S.part (S.knows shared.now) board.now) workers.new.items }
    ensures numbered { AreNumbered 1 (parts_of S.part workers.new.items) }
    ensures made { HasMade (S.roll lead.new) drawer.old drawer.new (vec_len workers.new) }
    ensures few { vec_len workers.new ≤ count }
    ensures ok { OnOk result (vec_len workers.new ≡ count) }
{
    'made: for _ in 0..count {
        let worker = make_one(alloc, shared, board, lead, drawer)?;
        let Ok(()) = workers.push(worker) else {
            unreachable!()
        };
    }
    Ok(())
}

/// Puts what a worker hands back into the slots of its jobs.
fn fill(slots: &mut [Option<Piece>], mut pieces: Vec<Piece>)
    ensures { slots.new ≡ filled slots.old pieces.items }
{
    'pieces: while let Some(piece) = pieces.pop() {
        let at = piece.place as usize;
        if at < slots.len() {
            slots[at] = Some(piece);
        }
    }
}

/// Ends a worker, and says whether memory was wanting to it.
fn end_one<S: Shared>(
    shared: &S,
    board: &Board,
    lead: &mut S::Lead,
    drawer: &mut Drawer,
    worker: Worker<S::Caller>,
    slots: &mut [Option<Piece>],
) -> bool
    requires leads { S.leads shared.now lead.old }
    requires lead { IsLead board.now drawer.old }
    requires ready { IsReady (S.knows shared.now) board.now worker }
    ensures leads { S.leads shared.now lead.new }
    ensures roll { S.roll lead.new ≡ with_end (S.roll lead.old) (S.part worker.caller) }
    ensures joins { Joins board.now drawer.old worker.drawer drawer.new }
    ensures slots { slots.new ≡ filled slots.old worker.pieces.items }
    ensures wanting { result ≡ worker.wanting }
{
    let Worker {
        caller,
        drawer: own,
        pieces,
        scratch: _,
        wanting,
    } = worker;
    shared.end(lead, caller);
    board.join(drawer, own);
    fill(slots, pieces);
    wanting
}

/// Ends all workers, and says whether memory was wanting to one.
pub fn end_all<S: Shared>(
    shared: &S,
    board: &Board,
    lead: &mut S::Lead,
    drawer: &mut Drawer,
    mut workers: Vec<Worker<S::Caller>>,
    slots: &mut [Option<Piece>],
) -> bool
    requires leads { S.leads shared.now lead.old }
    requires lead { IsLead board.now drawer.old }
    requires ready { All (IsReady (S.knows shared.now) board.now) workers.items }
    requires numbered { AreNumbered 1 (parts_of S.part workers.items) }
    requires away { (S.roll lead.old).away ≡ countdown (length workers.items) }
    requires out { away_from drawer.old ≡ length workers.items }
    ensures leads { S.leads shared.now lead.new }
    ensures home { (S.roll lead.new).away ≡ [] }
    ensures ended { (S.roll lead.new).ended ≡ parts_of S.part workers.items ++ (S.roll lead.old).ended }
    ensures lead { IsLead board.now drawer.new }
    ensures joined { HasJoined drawer.old drawer.new (stints_of S.part workers.items) }
    ensures drained { is_drained drawer.new ≡ is_drained drawer.old || some_drained workers.items }
    ensures slots { slots.new ≡ filled slots.old (pieces_in (stints_of S.part workers.items)) }
    ensures wanting { result ≡ some_wanting (stints_of S.part workers.items) }
{
    let mut wanting = false;
    'workers: while let Some(worker) = workers.pop() {
        wanting |= end_one(shared, board, lead, drawer, worker, slots);
    }
    wanting
}

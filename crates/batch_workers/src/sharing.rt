//! The jobs of a run are shared among workers.

ghost use Rattle.std.specs.Prelude.{◌≡◌, ◌≤◌, [], length, map, All, IfOk, MatchResult};
ghost use Rattle.text_lines.specs.Limits.{longest_text};
ghost use Rattle.job_board.specs.Drawers.{IsLead, away_from, drawn_by, is_drained, numbers_of};
ghost use Rattle.batch_jobs.specs.Limits.{most_jobs};
ghost use Rattle.batch_jobs.specs.Jobs.{HasShortNames, line_of};
ghost use Rattle.batch_runs.specs.Takings.{length_taken};
ghost use Rattle.batch_alone.specs.Readings.{taking_of};
ghost use Rattle.batch_workers.specs.Parts.{empty_roll, most_callers};
ghost use Rattle.batch_workers.specs.Toils.{AreBegunBy, AreDoneBy, AreHeld, AreNumbered, taken_places, works_in};
ghost use Rattle.batch_workers.specs.Teams.{Draws, IsReady, countdown, filled, no_pieces, parts_of};
ghost use Rattle.batch_workers.specs.Teams.{pieces_in, some_drained, some_wanting, stints_of};

use crate::gate::Gate;
use crate::piece::Piece;
use crate::shared::Shared;
use crate::team::{end_all, make_all};
use crate::threads::work_in_threads;
use crate::worker::Worker;
use batch_alone::Input;
use batch_jobs::Job;
use job_board::{Board, Drawer};
use std::alloc::{AllocError, Global};
use std::sync::Wait;
use std::thread::Threads;

/// The places of the jobs whose input was taken.
fn taken_places(alloc: Global, inputs: &[Input]) -> Result<Vec<u32>, AllocError>
    requires { length inputs.now ≤ most_jobs }
    ensures { IfOk result (λ v. v.items ≡ taken_places (map taking_of inputs.now)) }
{
    let mut places = Vec::new(alloc);
    'inputs: for at in 0..inputs.len() {
        match &inputs[at] {
            Input::Bytes(_) => places.push(at as u32)?,
            Input::Missed(_) => {}
        }
    }
    Ok(places)
}

/// So many slots with nothing in them.
fn no_pieces(alloc: Global, count: usize) -> Result<Vec<Option<Piece>>, AllocError>
    ensures { IfOk result (λ v. v.items ≡ no_pieces count) }
{
    let mut slots = Vec::new(alloc);
    'slots: for _ in 0..count {
        slots.push(None)?;
    }
    Ok(slots)
}

/// Ends all workers and their board, and says whether memory was wanting to one. What the workers drew
/// is then some of the board's numbers, and all where one found none left.
fn wind_up<S: Shared, R: Wait>(
    rt: &R,
    shared: &S,
    board: Board,
    lead: &mut S::Lead,
    drawer: Drawer,
    workers: Vec<Worker<S::Caller>>,
    slots: &mut [Option<Piece>],
) -> bool
    requires leads { S.leads shared.now lead.old }
    requires lead { IsLead board drawer }
    requires none { drawn_by drawer ≡ [] }
    requires ready { All (IsReady (S.knows shared.now) board) workers.items }
    requires numbered { AreNumbered 1 (parts_of S.part workers.items) }
    requires away { (S.roll lead.old).away ≡ countdown (length workers.items) }
    requires ended { (S.roll lead.old).ended ≡ [] }
    requires out { away_from drawer ≡ length workers.items }
    ensures leads { S.leads shared.now lead.new }
    ensures home { (S.roll lead.new).away ≡ [] }
    ensures ended { (S.roll lead.new).ended ≡ parts_of S.part workers.items }
    ensures draws { Draws (numbers_of drawer) (stints_of S.part workers.items) (some_drained workers.items) }
    ensures slots { slots.new ≡ filled slots.old (pieces_in (stints_of S.part workers.items)) }
    ensures wanting { result ≡ some_wanting (stints_of S.part workers.items) }
{
    let mut drawer = drawer;
    let wanting = end_all(shared, &board, lead, &mut drawer, workers, slots);
    let _left = board.settle(rt, drawer);
    wanting
}

/// Has the jobs whose input was taken done by so many workers, each job by one of them.
pub fn share_jobs<S: Shared + Sync, G: Gate + Sync, R: Threads + Wait + Sync>(
    rt: &R,
    alloc: Global,
    shared: &S,
    lead: &mut S::Lead,
    count: u32,
    gate: &G,
    jobs: &[Job],
    inputs: &[Input],
) -> Result<Vec<Option<Piece>>, AllocError>
    requires leads { S.leads shared.now lead.old }
    requires roll { S.roll lead.old ≡ empty_roll }
    requires some { 1 ≤ count }
    requires most { count ≤ most_callers }
    requires alike { length inputs.now ≡ length jobs.now }
    requires few { length jobs.now ≤ most_jobs }
    requires names { All HasShortNames jobs.now }
    requires short { All (λ i. length_taken (taking_of i) ≤ longest_text) inputs.now }
    ensures leads { S.leads shared.now lead.new }
    ensures home { (S.roll lead.new).away ≡ [] }
    ensures done { MatchResult result
        (λ slots. AreDoneBy (S.base shared.now).setting count (map line_of jobs.now)
        (map taking_of inputs.now) (S.roll lead.new).ended
        (works_in (map taking_of inputs.now) slots.items)
        × AreHeld (map taking_of inputs.now) slots.items)
        (λ _. AreBegunBy (S.base shared.now).setting count (map line_of jobs.now)
        (S.roll lead.new).ended) }
{
    let places = taken_places(alloc, inputs)?;
    let mut slots = no_pieces(alloc, inputs.len())?;
    let mut team = Vec::with_capacity(alloc, count as usize)?;
    let (board, mut drawer) = Board::new(rt, alloc, places.as_slice())?;
    if make_all(alloc, shared, &board, lead, &mut drawer, count, &mut team).is_err() {
        let _ = wind_up(rt, shared, board, lead, drawer, team, slots.as_mut_slice());
        return Err(AllocError);
    }
    work_in_threads(
        rt,
        alloc,
        shared,
        gate,
        &board,
        jobs,
        inputs,
        team.as_mut_slice(),
    );
    if wind_up(rt, shared, board, lead, drawer, team, slots.as_mut_slice()) {
        return Err(AllocError);
    }
    Ok(slots)
}

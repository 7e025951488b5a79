//! A gate that holds workers until others have come to where they are awaited.

use batch_workers::{Gate, Point};
use std::alloc::{AllocError, Global};
use std::sync::atomic::{AtomicBool, Ordering};
use std::thread;

/// Whoever is held looks so often at most whether somebody has come.
const MOST_TURNS: u32 = 100_000_000;

/// Between so many looks it lets other threads run.
const TURNS_AT_ONCE: u32 = 1_000;

/// Where a worker stands: with the job of a number, at a point.
#[derive(Clone, Copy, Drop)]
pub struct Place {
    pub job: u32,
    pub point: Point,
}

/// Who comes to one place is held until somebody has come to the other one.
#[derive(Drop)]
struct Hold {
    pub held: Place,
    pub awaited: Place,
    pub has_come: AtomicBool,
}

/// A gate of one run. Where somebody waits in vain, it lets pass and says so: so a run ends, also where
/// one thread does all jobs.
#[derive(Drop)]
pub struct Holds {
    list: Vec<Hold>,
    in_vain: AtomicBool,
}

/// Whether a job at a point stands at a place.
fn is_at(place: Place, job: u32, point: Point) -> bool {
    place.job == job && place.point == point
}

impl Holds {
    /// A gate that holds nobody.
    pub fn new(alloc: Global) -> Holds {
        Holds {
            list: Vec::new(alloc),
            in_vain: AtomicBool::new(false),
        }
    }

    /// Holds who comes to a place until somebody has come to another one.
    pub fn add(&mut self, held: Place, awaited: Place) -> Result<(), AllocError> {
        self.list.push(Hold {
            held,
            awaited,
            has_come: AtomicBool::new(false),
        })?;
        Ok(())
    }

    /// Whether somebody has waited in vain.
    pub fn was_in_vain(&self) -> bool {
        self.in_vain.load(Ordering::SeqCst)
    }

    /// Waits until somebody has come.
    fn wait(&self, hold: &Hold) {
        for turn in 0..MOST_TURNS {
            if hold.has_come.load(Ordering::SeqCst) {
                return;
            }
            if turn % TURNS_AT_ONCE == 0 {
                thread::yield_now();
            }
        }
        self.in_vain.store(true, Ordering::SeqCst);
    }
}

impl Gate for Holds {
    fn pass(&self, job: u32, point: Point) {
        for hold in &self.list {
            if is_at(hold.awaited, job, point) {
                hold.has_come.store(true, Ordering::SeqCst);
            }
        }
        for hold in &self.list {
            if is_at(hold.held, job, point) {
                self.wait(hold);
            }
        }
    }
}

//! The runtime of many callers as a batch's.

use crate::starting::{Parts, parts_of};
use crate::work::work_on;
use batch_alone::{Closed, Worked};
use batch_jobs::Job;
use batch_workers::{Gate, Shared};
use gconv_runtime::{Caller, Closed as Left, Gconv, Holding, Lead, NoMemory};
use modules_conf::{Bindings, Conf};
use outside::Library;
use std::alloc::{AllocError, Global};
use std::sync::Wait;
use step_buffers::Buffers;

/// The store has at most so many pages, and the journal at most so many entries.
const MOST_PAGES: u32 = 65_536;

const MOST_ENTRIES: u32 = 16_777_216;

/// At most so many callers have a view of the chains that were found.
const MOST_CALLERS: u32 = 64;

/// A runtime of many callers over a library.
pub struct ManyThreads<L: Library> {
    gconv: Gconv<L>,
}

impl<L: Library + Send> Shared for ManyThreads<L> {
    ghost use Rattle.gconv_runtime.specs.Tokens.{Leads};
    ghost use Rattle.batch_gconv.specs.Callers.{IsIdle, base_of, part_of, roll_of};

    type Library = L;

    type Lead = Lead<L>;

    type Caller = Caller<L>;

    ghost base = { λ m. base_of L.holdings m.gconv };

    ghost part = { λ c. part_of c };

    ghost roll = { λ l. roll_of l };

    ghost knows = { λ m c. IsIdle m.gconv c };

    ghost leads = { λ m l. Leads m.gconv l };

    /// A runtime that would be past the limits of pages or entries is as one for which memory is wanting.
    fn start<R: Wait>(
        rt: &R,
        alloc: Global,
        conf: &Conf,
        bindings: &Bindings,
        library: L,
        folder: &str,
        pages: u32,
        limit: u32,
    ) -> Result<(ManyThreads<L>, Lead<L>), L> {
        if pages > MOST_PAGES || limit > MOST_ENTRIES {
            return Err(library);
        }
        let Ok(parts) = parts_of(alloc, conf, bindings, folder) else {
            return Err(library);
        };
        let Parts {
            graph,
            aliases,
            folder,
        } = parts;
        match Gconv::new(
            rt,
            alloc,
            graph,
            aliases,
            library,
            folder,
            pages,
            MOST_CALLERS,
            limit,
        ) {
            Ok((gconv, lead)) => Ok((ManyThreads { gconv }, lead)),
            Err(NoMemory { library }) => Err(library),
        }
    }

    fn caller(&self, lead: &mut Lead<L>) -> Result<Caller<L>, AllocError> {
        self.gconv.caller(lead)
    }

    fn work<R: Wait, G: Gate>(
        &self,
        rt: &R,
        alloc: Global,
        gate: &G,
        caller: &mut Caller<L>,
        number: u32,
        job: &Job,
        input: &[u8],
        buffers: Buffers,
    ) -> Result<(Worked, Buffers), AllocError> {
        work_on(
            rt,
            alloc,
            gate,
            &self.gconv,
            caller,
            number,
            job,
            input,
            buffers,
        )
    }

    fn end(&self, lead: &mut Lead<L>, caller: Caller<L>) {
        match self.gconv.end(lead, caller) {
            Ok(_) => {}
            Err(
                Holding {
                    count: _,
                    caller: _,
                },
            ) => unreachable!(),
        }
    }

    fn close<R: Wait>(self, rt: &R, lead: Lead<L>) -> Closed<L> {
        let ManyThreads { gconv } = self;
        let Left { library, journal } = gconv.close(rt, lead);
        Closed { library, journal }
    }
}

//! Runs that end with a single line, and do nothing else.

ghost use Rattle.std.specs.Prelude.{◌≡◌};
ghost use Rattle.batch_runs.specs.Lines.{memory_line, usage_line};
ghost use Rattle.batch_runs.specs.Batches.{Writes};
ghost use Rattle.batch_whole.specs.Lines.{EndsWith};

use batch_alone::Ended;
use batch_runs::Cause;
use outside::{Library, Sent, Sink};
use std::alloc::Global;

/// What is written where the words are no command.
const USAGE: &str =
    "usage: iconv_batch --modules F --bindings F --charmaps DIR --jobs JOBS [--workers N] [--pages P] [--journal F]\n";

/// What is written where memory was wanting.
const NO_MEMORY: &str = "out of memory\n";

/// The line for words that are no command.
fn usage() -> &'static str
    ensures { result.now ≡ usage_line }
{
    USAGE
}

/// Writes a line.
fn tell<O: Sink>(out: &mut O, line: &[u8]) -> Sent
    ensures { Writes (O.written out.old) (O.written out.new) line.now result }
{
    out.put(line)
}

/// Ends a run whose words are no command. A failure of the sink changes nothing.
pub fn end_usage<L: Library, O: Sink>(alloc: Global, library: L, out: &mut O) -> Ended<L>
    ensures status { result.status ≡ 2 }
    ensures cause { result.cause ≡ Cause.Usage }
    ensures ended { EndsWith usage_line (L.holdings library) (L.holdings result.library)
        (O.written out.old) (O.written out.new) result.journal.items }
{
    let _ = tell(out, usage().as_bytes());
    Ended {
        status: 2,
        cause: Cause::Usage,
        library,
        journal: Vec::new(alloc),
    }
}

/// Ends a run that wanted memory before its jobs. A failure of the sink changes nothing.
pub fn end_memory<L: Library, O: Sink>(alloc: Global, library: L, out: &mut O) -> Ended<L>
    ensures status { result.status ≡ 6 }
    ensures cause { result.cause ≡ Cause.Memory }
    ensures ended { EndsWith memory_line (L.holdings library) (L.holdings result.library)
        (O.written out.old) (O.written out.new) result.journal.items }
{
    let _ = tell(out, NO_MEMORY.as_bytes());
    Ended {
        status: 6,
        cause: Cause::Memory,
        library,
        journal: Vec::new(alloc),
    }
}

//! Openings and closings, one after another.
ghost use Rattle.std.specs.Prelude.{◌≡◌, ◌<◌, ◌≤◌, length, IfSome};
ghost use Rattle.text_lines.specs.Limits.{longest_text};
ghost use Rattle.modules_conf.specs.Limits.{IsWithinLimits, AreSound};

use crate::made;
use conversion_book::{Book, Closed};
use modules_conf::{Bindings, Conf, read_bindings, read_modules};
use outside::{Library, ShelfLibrary};
use runtime_histories::{Entry, Event, Reply};
use std::alloc::{AllocError, Global};
use std::io::{self, Print};
use std::mem::forget;
use std::sync::ledger::{Blank, Ledger};
use std::time::CpuClock;
use text_lines::LONGEST_TEXT;
use work_steps::Steps;

/// The pages of the store, and the limit of the journal.
const PAGES: u32 = 65_536;

const LIMIT: u32 = 16_777_216;

/// What is done: how many sets there are, how many pairs are opened, whether these move on, and whether
/// times are written.
#[derive(Clone, Copy)]
pub struct Plan {
    pub timed: bool,
    pub moves: bool,
    pub sets: u32,
    pub pairs: u32,
}

/// The processor time of openings and of closings, in nanoseconds.
#[derive(Clone, Copy)]
struct Spent {
    pub opening: u128,
    pub closing: u128,
}

/// The bytes of a text that is short enough.
fn short(text: &str) -> &[u8]
    ensures { length result.now ≤ longest_text }
{
    let bytes = text.as_bytes();
    if bytes.len() <= LONGEST_TEXT as usize {
        bytes
    } else {
        b""
    }
}

/// The configuration of so many sets.
fn conf_of(alloc: Global, sets: u32) -> Option<Conf>
    ensures { IfSome result (λ conf. IsWithinLimits conf.edges) }
{
    let text = made::modules(alloc, sets).ok()?;
    match read_modules(alloc, short(text.as_str())) {
        Ok(conf) => Some(conf),
        Err(_) => None,
    }
}

/// Its bindings.
fn bindings_of(alloc: Global, sets: u32) -> Option<Bindings>
    ensures { IfSome result AreSound }
{
    let text = made::bindings(alloc, sets).ok()?;
    match read_bindings(alloc, short(text.as_str())) {
        Ok(bindings) => Some(bindings),
        Err(_) => None,
    }
}

/// The runtime of a configuration.
fn book_with(alloc: Global, sets: u32, conf: &Conf) -> Option<Book<ShelfLibrary>>
    requires { IsWithinLimits conf.now.edges }
{
    let bindings = bindings_of(alloc, sets)?;
    let made = match made::library(alloc, sets) {
        Ok(library) => match Book::new(alloc, conf, &bindings, library, "d", PAGES, LIMIT) {
            Ok(book) => Some(book),
            Err(refused) => {
                forget(refused);
                None
            }
        },
        Err(_) => None,
    };
    forget(bindings);
    made
}

/// The runtime. What it is made of is left to the end of the program, so that no proof is owed of how
/// it is dropped.
fn book_of(alloc: Global, sets: u32) -> Option<Book<ShelfLibrary>> {
    let conf = conf_of(alloc, sets)?;
    let made = book_with(alloc, sets, &conf);
    forget(conf);
    made
}

/// The processor time by now, in nanoseconds.
fn now<R: CpuClock>(rt: &R) -> u128 {
    match rt.process_cpu_time() {
        Ok(time) => time.as_nanos(),
        Err(_) => 0,
    }
}

/// Opens and closes a pair, and adds the time of each.
fn once<R: CpuClock, L: Library, K: Ledger>(
    rt: &R,
    book: &mut Book<L>,
    from: &[u8],
    to: &[u8],
    steps: &mut Steps<K>,
    spent: &mut Spent,
)
    requires from { length from.now ≤ longest_text }
    requires to { length to.now ≤ longest_text }
{
    let start = now(rt);
    let Ok(number) = book.open_pair(1, from, to, steps) else {
        return;
    };
    let middle = now(rt);
    if book.is_live(1, number) {
        book.close_desc(1, number);
        spent.opening = spent.opening.saturating_add(middle.saturating_sub(start));
        spent.closing = spent.closing.saturating_add(now(rt).saturating_sub(middle));
    }
}

/// Opens and closes the pairs from one number up to another, each of the sets of `plan` and the next one.
fn some<R: CpuClock, L: Library, K: Ledger>(
    rt: &R,
    alloc: Global,
    book: &mut Book<L>,
    plan: &Plan,
    first: u32,
    end: u32,
    steps: &mut Steps<K>,
) -> Result<Spent, AllocError> {
    let mut spent = Spent {
        opening: 0,
        closing: 0,
    };
    let sets = plan.sets.max(1);
    for pair in first..end {
        let set = if plan.moves { pair % sets } else { 0 };
        let from = format!(in alloc; "N{set}")?;
        let next = set.wrapping_add(1) % sets;
        let to = format!(in alloc; "N{next}")?;
        once(
            rt,
            book,
            short(from.as_str()),
            short(to.as_str()),
            steps,
            &mut spent,
        );
    }
    Ok(spent)
}

/// Writes the time of one of so many, in microseconds.
fn write_micros<R: Print>(rt: &R, what: &str, took: u128, count: u32) -> io::Result<()> {
    let hundredths = took / 10 / u128::from(count.max(1));
    print!(rt; " {what} {}.{:02} us", hundredths / 100, hundredths % 100)
}

/// Writes the time of an opening and of a closing.
fn write_spent<R: Print>(rt: &R, tenth: u32, spent: Spent, count: u32) -> io::Result<()> {
    print!(rt; "tenth {tenth}")?;
    write_micros(rt, "opening", spent.opening, count)?;
    write_micros(rt, "closing", spent.closing, count)?;
    println!(rt; "")
}

/// How many modules an entry says that it loaded.
fn loads(entry: &Entry) -> usize {
    match &entry.event {
        Event::Opening {
            reply: Reply::Opened { loaded, .. },
            ..
        } => loaded.as_slice().len(),
        _ => 0,
    }
}

/// How many modules all entries say that they loaded.
fn all_loads(entries: &[Entry]) -> usize {
    let mut loaded = 0usize;
    for entry in entries {
        loaded = loaded.saturating_add(loads(entry));
    }
    loaded
}

/// Writes how many entries there are, how many modules they loaded, and how many charmaps were fetched.
fn report<R: Print>(rt: &R, plan: &Plan, left: Closed<ShelfLibrary>) -> io::Result<()> {
    let entries = left.journal.len();
    let loads = all_loads(left.journal.as_slice());
    let fetches = left.library.reads().len();
    forget(left);
    print!(rt; "sets {} pairs {} ", plan.sets, plan.pairs)?;
    println!(rt; "entries {entries} loads {loads} fetches {fetches}")
}

/// Opens and closes all pairs, tenth by tenth.
fn tenths<L: Library, K: Ledger>(
    rt: &HostRuntime,
    book: &mut Book<L>,
    plan: &Plan,
    steps: &mut Steps<K>,
) -> io::Result<()> {
    let each = plan.pairs / 10;
    for tenth in 0..10u32 {
        let first = tenth.wrapping_mul(each);
        let end = if tenth == 9 {
            plan.pairs
        } else {
            first.wrapping_add(each)
        };
        let spent = some(rt, rt.alloc(), book, plan, first, end, steps)?;
        if plan.timed {
            write_spent(rt, tenth + 1, spent, end.saturating_sub(first))?;
        }
    }
    Ok(())
}

/// Does what is asked for.
pub fn measure<K: Ledger>(rt: &HostRuntime, ledger: Blank, plan: &Plan) -> io::Result<()>
    requires name { ledger.name ≡ K.name }
    requires parts { ledger.parts ≡ K.parts }
    requires some { 0 < ledger.parts }
{
    let mut steps: Steps<K> = Steps::new(ledger);
    match book_of(rt.alloc(), plan.sets) {
        Some(mut book) => {
            let written = tenths(rt, &mut book, plan, &mut steps);
            report(rt, plan, book.done())?;
            written
        }
        None => println!(rt; "there is no runtime"),
    }
}

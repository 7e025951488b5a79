//! How long a look-up takes, alone and beside a thread that publishes.
ghost use Rattle.std.specs.Prelude.{All};
ghost use Rattle.derivation_cache.specs.Known.{IsLeastPair};

use crate::beside::look_beside;
use crate::finding::{find_all, publish};
use derivation_cache::{Cache, Pair, View};
use std::alloc::Global;
use std::io::{self, ErrorKind, Print};
use std::sync::Wait;
use std::thread::Threads;
use std::time::{Clock, Duration, Instant};

/// Writes so many nanoseconds, which are given in hundredths.
fn write_row<R: Print>(rt: &R, what: &str, hundredths: u128, count: u64) -> io::Result<()> {
    print!(rt; "{what} {}.{:02} ns, ", hundredths / 100, hundredths % 100)?;
    println!(rt; "{count} of them")
}

/// Writes how many nanoseconds each of so many took.
fn report<R: Print>(rt: &R, what: &str, took: Duration, count: u64) -> io::Result<()> {
    let hundredths = took.as_nanos().saturating_mul(100) / u128::from(count.max(1));
    write_row(rt, what, hundredths, count)
}

/// Looks for pairs at least so many times, and says how often it looked and how often it found one.
fn look(view: &mut View, pairs: &[Pair], looks: u32) -> (u64, u64) {
    let mut asked = 0u64;
    let mut found = 0u64;
    for _ in 0..looks {
        if asked >= u64::from(looks) {
            break;
        }
        found = found.wrapping_add(u64::from(find_all(view, pairs)));
        asked = asked.wrapping_add(pairs.len() as u64);
    }
    (asked, found)
}

/// That each look found a pair.
fn all_found(asked: u64, found: u64) -> io::Result<()> {
    if found == asked {
        Ok(())
    } else {
        Err(io::Error::from(ErrorKind::NotFound))
    }
}

/// Times look-ups of pairs that are published, while nobody publishes.
fn time_alone<R: Clock + Print>(
    rt: &R,
    view: &mut View,
    pairs: &[Pair],
    looks: u32,
) -> io::Result<()> {
    let start = Instant::now(rt)?;
    let (asked, found) = look(view, pairs, looks);
    report(rt, "alone", start.elapsed(rt)?, asked)?;
    all_found(asked, found)
}

/// Times look-ups of pairs that are published while another thread publishes others.
fn time_beside<R: Threads + Wait + Sync + Clock + Print>(
    rt: &R,
    alloc: Global,
    cache: &mut Cache,
    others: &[Pair],
    view: &mut View,
    pairs: &[Pair],
) -> io::Result<()>
    requires { All (IsLeastPair cache.old.graph) others.now }
{
    let start = Instant::now(rt)?;
    let (published, looks) = look_beside(rt, alloc, cache, others, view, pairs);
    let took = start.elapsed(rt)?;
    published?;
    report(rt, "beside", took, looks.asked)?;
    report(rt, "publication", took, others.len() as u64)?;
    all_found(looks.asked, looks.found)
}

/// Publishes half of some pairs, and times look-ups of them, alone and while the others are published.
pub fn time<R: Threads + Wait + Sync + Clock + Print>(
    rt: &R,
    alloc: Global,
    cache: &mut Cache,
    view: &mut View,
    pairs: &[Pair],
    looks: u32,
) -> io::Result<()>
    requires { All (IsLeastPair cache.old.graph) pairs.now }
{
    let (known, others) = pairs.split_at(pairs.len() / 2);
    publish(rt, alloc, cache, known)?;
    time_alone(rt, view, known, looks)?;
    time_beside(rt, alloc, cache, others, view, known)
}

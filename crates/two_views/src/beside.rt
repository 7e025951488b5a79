//! A view finds chains in one thread while another one publishes them.
ghost use Rattle.std.specs.Prelude.{All};
ghost use Rattle.derivation_cache.specs.Known.{IsLeastPair};

use crate::finding::{find_all, publish};
use derivation_cache::{Cache, Pair, View};
use std::alloc::{AllocError, Global};
use std::io::{self, Print};
use std::sync::Wait;
use std::sync::atomic::{AtomicBool, Ordering};
use std::thread::{Threads, join};

/// How often a view was asked for a pair, and how often it found one.
#[derive(Clone, Copy, Drop)]
pub struct Looks {
    pub asked: u64,
    pub found: u64,
}

/// Adds all pairs, and then says that it is done.
fn publish_all<R: Wait>(
    rt: &R,
    alloc: Global,
    cache: &mut Cache,
    pairs: &[Pair],
    done: &AtomicBool,
) -> Result<(), AllocError>
    requires { All (IsLeastPair cache.old.graph) pairs.now }
{
    let published = publish(rt, alloc, cache, pairs);
    done.store(true, Ordering::SeqCst);
    published
}

/// Asks a view for pairs again and again, until the other thread is done.
pub fn look_until<R: Wait>(rt: &R, view: &mut View, pairs: &[Pair], done: &AtomicBool) -> Looks {
    let mut looks = Looks { asked: 0, found: 0 };
    for _ in rt.forever() {
        let found = find_all(view, pairs);
        looks.asked = looks.asked.wrapping_add(pairs.len() as u64);
        looks.found = looks.found.wrapping_add(u64::from(found));
        if done.load(Ordering::SeqCst) {
            break;
        }
    }
    looks
}

/// A cache publishes pairs in one thread, and a view is asked for some in another one.
pub fn look_beside<R: Threads + Wait + Sync>(
    rt: &R,
    alloc: Global,
    cache: &mut Cache,
    pairs: &[Pair],
    view: &mut View,
    asked: &[Pair],
) -> (Result<(), AllocError>, Looks)
    requires { All (IsLeastPair cache.old.graph) pairs.now }
{
    let flag = AtomicBool::new(false);
    let done = &flag;
    join(
        rt,
        || -> Result<(), AllocError>
            requires { All (IsLeastPair cache.now.graph) pairs.now }
        { publish_all(rt, alloc, cache, pairs, done) },
        || look_until(rt, view, asked, done),
    )
}

/// Writes how many of the pairs the view of another thread finds when they are published.
pub fn write_found<R: Threads + Wait + Sync + Print>(
    rt: &R,
    alloc: Global,
    cache: &mut Cache,
    view: &mut View,
    pairs: &[Pair],
) -> io::Result<()>
    requires { All (IsLeastPair cache.old.graph) pairs.now }
{
    let (published, _looks) = look_beside(rt, alloc, cache, pairs, view, pairs);
    published?;
    let found = find_all(view, pairs);
    println!(rt; "beside: {found} of {} pairs", pairs.len())
}

//! Two callers of one runtime, each in a thread of its own.
ghost use Rattle.std.specs.Prelude.{◌≡◌, ◌≤◌, length};
ghost use Rattle.text_lines.specs.Limits.{longest_text};
ghost use Rattle.gconv_runtime.specs.Tokens.{Knows};
ghost use Rattle.gconv_tests.specs.Seats.{Sits};

use crate::seats::{Seat, open};
use crate::words::{say, say_number, short};
use gconv_runtime::{Caller, Gconv};
use outside::{Library, ShelfLibrary};
use std::alloc::Global;
use std::sync::Wait;
use std::thread::{Threads, join_mut};

/// Opens a pair, converts one byte by it and closes it; whether the byte was converted.
fn work_once<L: Library, R: Wait>(
    rt: &R,
    alloc: Global,
    gconv: &Gconv<L>,
    caller: &mut Caller<L>,
    from: &[u8],
    to: &[u8],
) -> bool
    requires knows { Knows gconv.now caller.old }
    requires from { length from.now ≤ longest_text }
    requires to { length to.now ≤ longest_text }
    ensures knows { Knows gconv.now caller.new }
{
    match open(rt, alloc, gconv, caller, from, to) {
        Ok(descriptor) => {
            let mut descriptor = descriptor;
            let mut output = [0u8; 8];
            let progress = gconv.convert(caller, &mut descriptor, b"A", &mut output);
            gconv.close_desc(rt, caller, descriptor);
            progress.consumed == 1
        }
        Err(_) => false,
    }
}

/// Does so many times, and counts how often a byte was converted.
fn work<L: Library, R: Wait>(
    rt: &R,
    alloc: Global,
    gconv: &Gconv<L>,
    caller: &mut Caller<L>,
    from: &[u8],
    to: &[u8],
    times: u32,
) -> u32
    requires knows { Knows gconv.now caller.old }
    requires from { length from.now ≤ longest_text }
    requires to { length to.now ≤ longest_text }
    ensures knows { Knows gconv.now caller.new }
{
    let mut done: u32 = 0;
    for _ in 0..times {
        if work_once(rt, alloc, gconv, caller, from, to) {
            done = done.saturating_add(1);
        }
    }
    done
}

/// The first caller opens the pair of two sets, the second that from the first of them to UTF-8.
fn work_by_two<R: Threads + Wait + Sync>(
    rt: &R,
    alloc: Global,
    gconv: &Gconv<ShelfLibrary>,
    one: &mut Caller<ShelfLibrary>,
    two: &mut Caller<ShelfLibrary>,
    times: u32,
) -> (u32, u32)
    requires one { Knows gconv.now one.old }
    requires two { Knows gconv.now two.old }
    ensures one { Knows gconv.now one.new }
    ensures two { Knows gconv.now two.new }
{
    join_mut(
        rt,
        &mut || -> u32
            requires { Knows gconv.now one.now }
            ensures { Knows gconv.entry.now one.exit.now }
        { work(rt, alloc, gconv, one, short("SA"), short("SB"), times) },
        &mut || -> u32
            requires { Knows gconv.now two.now }
            ensures { Knows gconv.entry.now two.exit.now }
        { work(rt, alloc, gconv, two, short("SA"), short("UTF-8"), times) },
    )
}

/// The callers work so many times where the second has no descriptor either.
fn beside<R: Threads + Wait + Sync>(
    rt: &R,
    alloc: Global,
    gconv: &Gconv<ShelfLibrary>,
    one: Caller<ShelfLibrary>,
    two: Seat<ShelfLibrary>,
    times: u32,
    text: &mut String,
) -> (Seat<ShelfLibrary>, Seat<ShelfLibrary>)
    requires one { Knows gconv.now one }
    requires two { Sits gconv.now two }
    ensures one { Sits gconv.now result.0 }
    ensures two { Sits gconv.now result.1 }
{
    match two {
        Seat::Idle(two) => {
            let (mut one, mut two) = (one, two);
            let (first, second) = work_by_two(rt, alloc, gconv, &mut one, &mut two, times);
            say_number(text, first as u64);
            say(text, " ");
            say_number(text, second as u64);
            (Seat::Idle(one), Seat::Idle(two))
        }
        two => (Seat::Idle(one), two),
    }
}

/// Both callers work so many times where neither has a descriptor.
pub fn both<R: Threads + Wait + Sync>(
    rt: &R,
    alloc: Global,
    gconv: &Gconv<ShelfLibrary>,
    seats: (Seat<ShelfLibrary>, Seat<ShelfLibrary>),
    times: u32,
    text: &mut String,
) -> (Seat<ShelfLibrary>, Seat<ShelfLibrary>)
    requires one { Sits gconv.now seats.0 }
    requires two { Sits gconv.now seats.1 }
    ensures one { Sits gconv.now result.0 }
    ensures two { Sits gconv.now result.1 }
{
    let (one, two) = seats;
    match one {
        Seat::Idle(one) => beside(rt, alloc, gconv, one, two, times, text),
        one => (one, two),
    }
}

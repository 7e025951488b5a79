//! Scripts are done.
ghost use Rattle.std.specs.Prelude.{◌≡◌};
ghost use Rattle.gconv_runtime.specs.Tokens.{Leads, next_number};
ghost use Rattle.gconv_tests.specs.Seats.{Sits};

use crate::answers::say_end;
use crate::library::library;
use crate::making::{Sizes, fitting, runtime};
use crate::seats::{Seat, act, leave, seated};
use crate::threads::both;
use crate::words::{number, say, words_of};
use gconv_runtime::{Gconv, Lead};
use outside::ShelfLibrary;
use std::alloc::Global;
use std::sync::Wait;
use std::thread::Threads;

/// Does a line: that of one caller, or of both.
fn step<R: Threads + Wait + Sync>(
    rt: &R,
    alloc: Global,
    gconv: &Gconv<ShelfLibrary>,
    lead: &mut Lead<ShelfLibrary>,
    seats: (Seat<ShelfLibrary>, Seat<ShelfLibrary>),
    words: &[&str; 4],
    text: &mut String,
) -> (Seat<ShelfLibrary>, Seat<ShelfLibrary>)
    requires lead { Leads gconv.now lead.old }
    requires one { Sits gconv.now seats.0 }
    requires two { Sits gconv.now seats.1 }
    ensures lead { Leads gconv.now lead.new }
    ensures one { Sits gconv.now result.0 }
    ensures two { Sits gconv.now result.1 }
{
    if words[0] == "both" {
        return both(rt, alloc, gconv, seats, number(words[1]), text);
    }
    let (one, two) = seats;
    if words[1] == "1" {
        (act(rt, alloc, gconv, lead, one, words, text), two)
    } else {
        (one, act(rt, alloc, gconv, lead, two, words, text))
    }
}

/// Does the lines of two callers, and writes each with its answer.
fn do_lines<R: Threads + Wait + Sync>(
    rt: &R,
    alloc: Global,
    gconv: &Gconv<ShelfLibrary>,
    lead: &mut Lead<ShelfLibrary>,
    lines: &str,
    text: &mut String,
)
    requires lead { Leads gconv.now lead.old }
    requires none { next_number lead.old ≡ 1 }
    ensures { Leads gconv.now lead.new }
{
    let one = seated(gconv, lead);
    let two = seated(gconv, lead);
    let mut seats = (one, two);
    for line in lines.lines() {
        say(text, line);
        say(text, ": ");
        seats = step(rt, alloc, gconv, lead, seats, &words_of(line), text);
        say(text, "\n");
    }
    leave(rt, gconv, lead, seats.0);
    leave(rt, gconv, lead, seats.1);
}

/// Ends a runtime, and writes what is left of it.
fn finish<R: Wait>(
    rt: &R,
    alloc: Global,
    gconv: Gconv<ShelfLibrary>,
    lead: Lead<ShelfLibrary>,
    text: &mut String,
)
    requires { Leads gconv lead }
{
    if lead.away() == 0 {
        say_end(alloc, text, &gconv.close(rt, lead));
    } else {
        let _ = gconv.abandon(rt, lead);
        say(text, "a caller is away\n");
    }
}

/// Does the lines of a runtime, and ends it.
fn run<R: Threads + Wait + Sync>(
    rt: &R,
    alloc: Global,
    gconv: Gconv<ShelfLibrary>,
    lead: Lead<ShelfLibrary>,
    lines: &str,
    text: &mut String,
)
    requires lead { Leads gconv lead }
    requires none { next_number lead ≡ 1 }
{
    let mut lead = lead;
    do_lines(rt, alloc, &gconv, &mut lead, lines, text);
    finish(rt, alloc, gconv, lead, text);
}

/// The limits of a runtime; there may be two callers where no number of them is said.
fn sizes_of(limits: &str) -> Sizes {
    let words = words_of(limits);
    let callers = if words[2].is_empty() {
        2
    } else {
        number(words[2])
    };
    fitting(number(words[0]), callers, number(words[1]))
}

/// Makes the runtime of a script, and does its lines.
fn begin<R: Threads + Wait + Sync>(
    rt: &R,
    alloc: Global,
    head: &str,
    library: ShelfLibrary,
    sizes: Sizes,
    lines: &str,
    text: &mut String,
) {
    match runtime(rt, alloc, head, library, sizes) {
        Ok((gconv, lead)) => run(rt, alloc, gconv, lead, lines, text),
        Err(_) => say(text, "there is no runtime\n"),
    }
}

/// Writes the lines that only say what is to come, and that of the runtime.
fn tell(head: &str, limits: &str, text: &mut String) {
    for line in head.lines() {
        if matches!(words_of(line)[0], "" | "#") {
            say(text, line);
            say(text, "\n");
        }
    }
    say(text, "runtime ");
    say(text, limits);
    say(text, "\n");
}

/// Does a script, and writes what it answers.
fn act_out<R: Threads + Wait + Sync>(rt: &R, alloc: Global, script: &str, text: &mut String) {
    let Some((head, behind)) = script.split_once("\nruntime ") else {
        return;
    };
    let Some((limits, lines)) = behind.split_once('\n') else {
        return;
    };
    tell(head, limits, text);
    match library(alloc, head) {
        Ok(library) => begin(rt, alloc, head, library, sizes_of(limits), lines, text),
        Err(_) => say(text, "there is no library\n"),
    }
}

/// Does all scripts, and writes what they answer.
pub fn play<R: Threads + Wait + Sync>(rt: &R, alloc: Global, scripts: &str, text: &mut String) {
    for script in scripts.split("\ndone\n") {
        act_out(rt, alloc, script, text);
    }
}

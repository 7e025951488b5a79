//! A caller with its descriptor, and its calls.
ghost use Rattle.std.specs.Prelude.{◌≡◌, ◌<◌, ◌≤◌, ◌+◌, length, IfOk};
ghost use Rattle.text_lines.specs.Limits.{longest_text};
ghost use Rattle.gconv_runtime.specs.Tokens.{Knows, Leads, next_number};
ghost use Rattle.gconv_runtime.specs.Owning.{Owns};
ghost use Rattle.gconv_tests.specs.Seats.{Sits};

use crate::answers::{say_holding, say_known, say_progress, say_refusal};
use crate::words::{say, say_number, short};
use gconv_runtime::{Caller, Descriptor, Gconv, Holding, Lead};
use history_core::Story;
use outside::Library;
use runtime_histories::Refusal;
use runtime_room::Room;
use std::alloc::Global;
use std::marker::Brand;
use std::sync::Wait;
use std::sync::ledger::{Blank, Ledger};
use work_steps::Steps;

/// Where a caller sits, with its descriptor or without one, or sat.
pub enum Seat<L: Library>
where
    Room<L>: Story,
{
    Free,
    Idle(Caller<L>),
    Busy(Caller<L>, Descriptor),
}

/// A seat of the next caller.
pub fn seated<L: Library>(gconv: &Gconv<L>, lead: &mut Lead<L>) -> Seat<L>
    requires lead { Leads gconv.now lead.old }
    requires few { next_number lead.old ≤ 2 }
    ensures lead { Leads gconv.now lead.new }
    ensures next { next_number lead.new ≤ next_number lead.old + 1 }
    ensures sits { Sits gconv.now result }
{
    match gconv.caller(lead) {
        Ok(caller) => Seat::Idle(caller),
        Err(_) => Seat::Free,
    }
}

/// Opens a pair, with a counter of steps of its own.
fn open_with<L: Library, R: Wait, K: Ledger>(
    rt: &R,
    alloc: Global,
    ledger: Blank,
    gconv: &Gconv<L>,
    caller: &mut Caller<L>,
    from: &[u8],
    to: &[u8],
) -> Result<Descriptor, Refusal>
    requires name { ledger.name ≡ K.name }
    requires parts { ledger.parts ≡ K.parts }
    requires some { 0 < ledger.parts }
    requires knows { Knows gconv.now caller.old }
    requires from { length from.now ≤ longest_text }
    requires to { length to.now ≤ longest_text }
    ensures knows { Knows gconv.now caller.new }
    ensures owns { IfOk result (Owns gconv.now caller.new) }
{
    let mut steps: Steps<K> = Steps::new(ledger);
    gconv.open_pair(rt, alloc, caller, from, to, &mut steps)
}

/// Opens a pair.
pub fn open<L: Library, R: Wait>(
    rt: &R,
    alloc: Global,
    gconv: &Gconv<L>,
    caller: &mut Caller<L>,
    from: &[u8],
    to: &[u8],
) -> Result<Descriptor, Refusal>
    requires knows { Knows gconv.now caller.old }
    requires from { length from.now ≤ longest_text }
    requires to { length to.now ≤ longest_text }
    ensures knows { Knows gconv.now caller.new }
    ensures owns { IfOk result (Owns gconv.now caller.new) }
{
    open_with::<L, R, Brand>(rt, alloc, Blank::new(1), gconv, caller, from, to)
}

/// Opens a pair, and writes its number or why there is none.
fn opened<L: Library, R: Wait>(
    rt: &R,
    alloc: Global,
    gconv: &Gconv<L>,
    caller: Caller<L>,
    words: &[&str; 4],
    text: &mut String,
) -> Seat<L>
    requires { Knows gconv.now caller }
    ensures { Sits gconv.now result }
{
    let mut caller = caller;
    match open(
        rt,
        alloc,
        gconv,
        &mut caller,
        short(words[2]),
        short(words[3]),
    ) {
        Ok(descriptor) => {
            say_number(text, descriptor.number());
            Seat::Busy(caller, descriptor)
        }
        Err(why) => {
            say_refusal(alloc, text, why);
            Seat::Idle(caller)
        }
    }
}

/// Writes what a caller knows of a pair.
fn look_up<L: Library>(
    gconv: &Gconv<L>,
    caller: &mut Caller<L>,
    words: &[&str; 4],
    text: &mut String,
)
    requires knows { Knows gconv.now caller.old }
    ensures knows { Knows gconv.now caller.new }
    ensures others { (d : Descriptor) → Owns gconv.now caller.old d → Owns gconv.now caller.new d }
{
    let mut ordinals = [0u32; 4];
    let known = gconv.known_chain(caller, short(words[2]), short(words[3]), &mut ordinals);
    say_known(text, known, &ordinals);
}

/// The same of one without a descriptor.
fn idle_looks<L: Library>(
    gconv: &Gconv<L>,
    caller: Caller<L>,
    words: &[&str; 4],
    text: &mut String,
) -> Seat<L>
    requires { Knows gconv.now caller }
    ensures { Sits gconv.now result }
{
    let mut caller = caller;
    look_up(gconv, &mut caller, words, text);
    Seat::Idle(caller)
}

/// The same of one with a descriptor.
fn busy_looks<L: Library>(
    gconv: &Gconv<L>,
    caller: Caller<L>,
    descriptor: Descriptor,
    words: &[&str; 4],
    text: &mut String,
) -> Seat<L>
    requires knows { Knows gconv.now caller }
    requires owns { Owns gconv.now caller descriptor }
    ensures { Sits gconv.now result }
{
    let mut caller = caller;
    look_up(gconv, &mut caller, words, text);
    Seat::Busy(caller, descriptor)
}

/// Makes one call, and writes its answer.
fn converted<L: Library>(
    gconv: &Gconv<L>,
    caller: Caller<L>,
    descriptor: Descriptor,
    input: &str,
    text: &mut String,
) -> Seat<L>
    requires knows { Knows gconv.now caller }
    requires owns { Owns gconv.now caller descriptor }
    ensures { Sits gconv.now result }
{
    let mut caller = caller;
    let mut descriptor = descriptor;
    let mut output = [0u8; 8];
    let progress = gconv.convert(&mut caller, &mut descriptor, input.as_bytes(), &mut output);
    say_progress(text, &progress, &output);
    Seat::Busy(caller, descriptor)
}

/// Closes the descriptor.
fn closed<L: Library, R: Wait>(
    rt: &R,
    gconv: &Gconv<L>,
    caller: Caller<L>,
    descriptor: Descriptor,
) -> Caller<L>
    requires knows { Knows gconv.now caller }
    requires owns { Owns gconv.now caller descriptor }
    ensures { Knows gconv.now result }
{
    let mut caller = caller;
    gconv.close_desc(rt, &mut caller, descriptor);
    caller
}

/// Ends a caller, and writes how much it had seen, or how many descriptors it holds.
fn ended<L: Library>(
    gconv: &Gconv<L>,
    lead: &mut Lead<L>,
    caller: Caller<L>,
    text: &mut String,
) -> Seat<L>
    requires lead { Leads gconv.now lead.old }
    requires knows { Knows gconv.now caller }
    ensures lead { Leads gconv.now lead.new }
    ensures sits { Sits gconv.now result }
{
    match gconv.end(lead, caller) {
        Ok(front) => {
            say_number(text, front.length);
            Seat::Free
        }
        Err(holding) => {
            let Holding { count, caller } = holding;
            say_holding(text, count);
            Seat::Idle(caller)
        }
    }
}

/// The same of one that has a descriptor, so it isn't ended.
fn kept<L: Library>(
    gconv: &Gconv<L>,
    lead: &mut Lead<L>,
    caller: Caller<L>,
    descriptor: Descriptor,
    text: &mut String,
) -> Seat<L>
    requires lead { Leads gconv.now lead.old }
    requires knows { Knows gconv.now caller }
    requires owns { Owns gconv.now caller descriptor }
    ensures lead { Leads gconv.now lead.new }
    ensures sits { Sits gconv.now result }
{
    match gconv.end(lead, caller) {
        Ok(_) => unreachable!(),
        Err(holding) => {
            let Holding { count, caller } = holding;
            say_holding(text, count);
            Seat::Busy(caller, descriptor)
        }
    }
}

/// Does a line of a caller without a descriptor.
fn idle<L: Library, R: Wait>(
    rt: &R,
    alloc: Global,
    gconv: &Gconv<L>,
    lead: &mut Lead<L>,
    caller: Caller<L>,
    words: &[&str; 4],
    text: &mut String,
) -> Seat<L>
    requires lead { Leads gconv.now lead.old }
    requires knows { Knows gconv.now caller }
    ensures lead { Leads gconv.now lead.new }
    ensures sits { Sits gconv.now result }
{
    match words[0] {
        "open" => opened(rt, alloc, gconv, caller, words, text),
        "known" => idle_looks(gconv, caller, words, text),
        "end" => ended(gconv, lead, caller, text),
        _ => {
            say(text, "there is no descriptor");
            Seat::Idle(caller)
        }
    }
}

/// Does a line of a caller with a descriptor.
fn busy<L: Library, R: Wait>(
    rt: &R,
    gconv: &Gconv<L>,
    lead: &mut Lead<L>,
    caller: Caller<L>,
    descriptor: Descriptor,
    words: &[&str; 4],
    text: &mut String,
) -> Seat<L>
    requires lead { Leads gconv.now lead.old }
    requires knows { Knows gconv.now caller }
    requires owns { Owns gconv.now caller descriptor }
    ensures lead { Leads gconv.now lead.new }
    ensures sits { Sits gconv.now result }
{
    match words[0] {
        "known" => busy_looks(gconv, caller, descriptor, words, text),
        "convert" => converted(gconv, caller, descriptor, words[2], text),
        "close" => {
            say(text, "closed");
            Seat::Idle(closed(rt, gconv, caller, descriptor))
        }
        "end" => kept(gconv, lead, caller, descriptor, text),
        _ => {
            say(text, "there is a descriptor");
            Seat::Busy(caller, descriptor)
        }
    }
}

/// Does a line of the caller of a seat, and writes its answer.
pub fn act<L: Library, R: Wait>(
    rt: &R,
    alloc: Global,
    gconv: &Gconv<L>,
    lead: &mut Lead<L>,
    seat: Seat<L>,
    words: &[&str; 4],
    text: &mut String,
) -> Seat<L>
    requires lead { Leads gconv.now lead.old }
    requires sits { Sits gconv.now seat }
    ensures lead { Leads gconv.now lead.new }
    ensures sits { Sits gconv.now result }
{
    match seat {
        Seat::Free => {
            say(text, "there is no caller");
            Seat::Free
        }
        Seat::Idle(caller) => idle(rt, alloc, gconv, lead, caller, words, text),
        Seat::Busy(caller, descriptor) => { busy(rt, gconv, lead, caller, descriptor, words, text) }
    }
}

/// Ends a caller, and asks again while it has a descriptor.
fn end<L: Library, R: Wait>(rt: &R, gconv: &Gconv<L>, lead: &mut Lead<L>, caller: Caller<L>)
    requires lead { Leads gconv.now lead.old }
    requires knows { Knows gconv.now caller }
    ensures lead { Leads gconv.now lead.new }
{
    let mut staying = caller;
    for _ in rt.forever() {
        match gconv.end(lead, staying) {
            Ok(_) => return,
            Err(Holding { count: _, caller }) => staying = caller,
        }
    }
    unreachable!()
}

/// Ends the caller of a seat, and closes its descriptor before.
pub fn leave<L: Library, R: Wait>(rt: &R, gconv: &Gconv<L>, lead: &mut Lead<L>, seat: Seat<L>)
    requires lead { Leads gconv.now lead.old }
    requires sits { Sits gconv.now seat }
    ensures lead { Leads gconv.now lead.new }
{
    match seat {
        Seat::Free => {}
        Seat::Idle(caller) => end(rt, gconv, lead, caller),
        Seat::Busy(caller, descriptor) => {
            end(rt, gconv, lead, closed(rt, gconv, caller, descriptor))
        }
    }
}

//! What a line asks for, and what is written for it.

ghost use Rattle.std.specs.Prelude.{◌≡◌, ◌<◌, ◌≤◌, length, IfOk, IfSome};
ghost use Rattle.text_lines.specs.Limits.{longest_text};
ghost use Rattle.chain_steps.specs.Chains.{initial};
ghost use Rattle.conversion_book.specs.Runtime.{IsHeld, held_at};

use crate::descriptors::{add_whole, use_live};
use crate::desk::Desk;
use crate::journal::add_journal;
use crate::refusals::add_refusal;
use crate::words::{Few, add_number, number, short};
use runtime_histories::Refusal;
use std::alloc::{AllocError, Global};
use std::marker::Brand;
use std::sync::ledger::{Blank, Ledger};
use step_buffers::Buffers;
use work_steps::Steps;

/// Opens a pair, with a counter of steps of its own.
fn open_with<K: Ledger>(
    ledger: Blank,
    desk: &mut Desk,
    caller: u32,
    from: &[u8],
    to: &[u8],
) -> Result<u64, Refusal>
    requires name { ledger.name ≡ K.name }
    requires parts { ledger.parts ≡ K.parts }
    requires some { 0 < ledger.parts }
    requires from { length from.now ≤ longest_text }
    requires to { length to.now ≤ longest_text }
    ensures held { IfOk result (IsHeld desk.new.book) }
    ensures fresh { IfOk result (λ n.
        IfSome (held_at n desk.new.book.held) (λ h. h.machine.states ≡ initial)) }
{
    let mut steps: Steps<K> = Steps::new(ledger);
    desk.book.open_pair(caller, from, to, &mut steps)
}

/// Opens a pair.
fn open(desk: &mut Desk, caller: u32, from: &[u8], to: &[u8]) -> Result<u64, Refusal>
    requires from { length from.now ≤ longest_text }
    requires to { length to.now ≤ longest_text }
    ensures held { IfOk result (IsHeld desk.new.book) }
    ensures fresh { IfOk result (λ n.
        IfSome (held_at n desk.new.book.held) (λ h. h.machine.states ≡ initial)) }
{
    open_with::<Brand>(Blank::new(1), desk, caller, from, to)
}

/// Opens the pair of a line.
fn open_words(desk: &mut Desk, words: &[&str; 5]) -> Result<u64, Refusal>
    ensures held { IfOk result (IsHeld desk.new.book) }
    ensures fresh { IfOk result (λ n.
        IfSome (held_at n desk.new.book.held) (λ h. h.machine.states ≡ initial)) }
{
    open(desk, number(words[1]), short(words[2]), short(words[3]))
}

/// Converts a whole input by a descriptor whose conversion hasn't begun.
fn convert_whole(
    alloc: Global,
    desk: &mut Desk,
    number: u64,
    input: &[u8],
    text: &mut String,
) -> Result<(), AllocError>
    requires held { IsHeld desk.old.book number }
    requires fresh { IfSome (held_at number desk.old.book.held) (λ h. h.machine.states ≡ initial) }
    requires short { length input.now ≤ 32 }
{
    let buffers = Buffers {
        output: Vec::new(alloc),
        scratch: Vec::new(alloc),
    };
    match desk.book.convert_whole(number, buffers, input) {
        Ok((buffers, finish)) => add_whole(text, buffers.output.as_slice(), finish),
        Err(fault) => Err(fault),
    }
}

/// Opens a pair, converts a whole input, and closes the pair.
fn whole(
    alloc: Global,
    desk: &mut Desk,
    words: &[&str; 5],
    text: &mut String,
) -> Result<(), AllocError> {
    match open_words(desk, words) {
        Ok(at) => {
            add_number(text, at)?;
            text.push_str(" ")?;
            convert_whole(alloc, desk, at, Few::of(words[4]).as_slice(), text)?;
            close(desk, number(words[1]), at, text)
        }
        Err(why) => add_refusal(text, &why),
    }
}

/// Closes a descriptor that is live.
fn close(desk: &mut Desk, caller: u32, at: u64, text: &mut String) -> Result<(), AllocError> {
    if !desk.book.is_live(caller, at) {
        return text.push_str(" not live");
    }
    desk.book.close_desc(caller, at);
    Ok(())
}

/// Appends the descriptor's number, or why there is none.
fn opened(desk: &mut Desk, words: &[&str; 5], text: &mut String) -> Result<(), AllocError> {
    match open_words(desk, words) {
        Ok(number) => add_number(text, number),
        Err(why) => add_refusal(text, &why),
    }
}

/// Appends whether a module is resident.
fn resident(desk: &Desk, module: u32, text: &mut String) -> Result<(), AllocError> {
    if module >= desk.modules {
        return text.push_str("no module");
    }
    text.push_str(if desk.book.resident(module) {
        "true"
    } else {
        "false"
    })
}

/// Does a line, and appends what is written for it.
pub fn answer(
    alloc: Global,
    desk: &mut Desk,
    words: &[&str; 5],
    text: &mut String,
) -> Result<(), AllocError> {
    match words[0] {
        "open" => opened(desk, words, text),
        "whole" => whole(alloc, desk, words, text),
        "resident" => resident(desk, number(words[1]), text),
        "free" => add_number(text, desk.book.free_pages() as u64),
        "spare" => add_number(text, desk.book.spare()),
        "journal" => add_journal(text, desk.book.journal()),
        _ => use_live(
            alloc,
            desk,
            number(words[1]),
            number(words[2]) as u64,
            words,
            text,
        ),
    }
}

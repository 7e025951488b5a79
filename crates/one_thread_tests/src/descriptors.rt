//! What is done with a descriptor that is live.

ghost use Rattle.std.specs.Prelude.{◌≤◌, length};
ghost use Rattle.conversion_book.specs.Runtime.{IsHeld};

use crate::desk::Desk;
use crate::pieces::Pieces;
use crate::words::{Few, MOST, add_hex, add_number, number};
use chain_steps::{Progress, Reset};
use std::alloc::{AllocError, Global};
use step_buffers::{Finish, Whole};

/// Appends how far a call came.
fn add_progress(text: &mut String, progress: &Progress, output: &[u8]) -> Result<(), AllocError> {
    text.push_str("took ")?;
    add_number(text, progress.consumed as u64)?;
    text.push_str(" made ")?;
    add_hex(text, output, progress.produced)?;
    let verdict = progress.verdict;
    write!(text, " {verdict:?}")
}

/// Makes one call.
fn convert(
    desk: &mut Desk,
    number: u64,
    room: u32,
    input: &[u8],
    text: &mut String,
) -> Result<(), AllocError>
    requires { IsHeld desk.old.book number }
{
    let mut output = [0; MOST];
    let room = &mut output[..(room as usize).min(MOST)];
    let progress = desk.book.convert(number, input, room);
    add_progress(text, &progress, &output)
}

/// Returns to the initial states.
fn reset(desk: &mut Desk, number: u64, room: u32, text: &mut String) -> Result<(), AllocError>
    requires { IsHeld desk.old.book number }
{
    let mut output = [0; MOST];
    let room = &mut output[..(room as usize).min(MOST)];
    match desk.book.reset(number, room) {
        Reset::Closed { produced } => {
            text.push_str("made ")?;
            add_hex(text, &output, produced)
        }
        Reset::Full => text.push_str("Full"),
    }
}

/// Appends all that was made, and how the stream ends.
pub fn add_whole(text: &mut String, bytes: &[u8], finish: Finish) -> Result<(), AllocError> {
    text.push_str("made ")?;
    add_hex(text, bytes, bytes.len())?;
    write!(text, " {finish:?}")
}

/// Lends the descriptor to a session.
fn lend(
    alloc: Global,
    desk: &mut Desk,
    number: u64,
    size: u32,
    input: &[u8],
    text: &mut String,
) -> Result<(), AllocError>
    requires { IsHeld desk.old.book number }
{
    let work = Pieces {
        alloc,
        input,
        size: size as usize,
    };
    match desk.book.with_held(number, work) {
        Ok(whole) => add_whole(text, whole.bytes.as_slice(), whole.finish),
        Err(fault) => Err(fault),
    }
}

/// Does a line of a descriptor: closes it, converts, returns to the initial states, or lends it.
pub fn use_live(
    alloc: Global,
    desk: &mut Desk,
    caller: u32,
    at: u64,
    words: &[&str; 5],
    text: &mut String,
) -> Result<(), AllocError> {
    if !desk.book.is_live(caller, at) {
        return text.push_str("not live");
    }
    let input = Few::of(words[4]);
    match words[0] {
        "convert" => convert(desk, at, number(words[3]), input.as_slice(), text),
        "reset" => reset(desk, at, number(words[3]), text),
        "lend" => lend(alloc, desk, at, number(words[3]), input.as_slice(), text),
        _ => {
            desk.book.close_desc(caller, at);
            text.push_str("closed")
        }
    }
}

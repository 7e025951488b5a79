//! Worked examples of the runtime of one thread: the standard input has scenes, each of which begins
//! with what its runtime is made of, and ends with `done`. The lines of a runtime are done one after
//! another, and each is written with its answer.
//!
//! ```text
//! # TEXT                                 written as it is, before the answers of its scene
//! forget                                 no configuration, no charmaps, and no fetch that is to fail
//! module ..   alias ..                   a line of the configuration
//! bind NAME KIND CHARMAP..               a line of the bindings
//! charmap PATH SIZE [SYMBOL CODE;..]     a charmap of the library with its mapping lines, filled up to SIZE bytes
//! fail N                                 the library's Nth fetch is to fail
//! book PAGES LIMIT                       a runtime for all of these; its charmaps are in the directory d
//! open CALLER FROM TO                    the descriptor's number, or why there is none
//! close CALLER NUMBER
//! convert CALLER NUMBER ROOM HEX         one call; no bytes are written as -
//! reset CALLER NUMBER ROOM
//! lend CALLER NUMBER SIZE HEX            a work that feeds pieces of so many bytes to a session
//! whole CALLER FROM TO HEX               opens a pair, converts the whole input, and closes it
//! resident MODULE
//! free   spare   journal
//! done                                   the paths that the library was asked for, and how many entries
//! ```
#![tactic(auto)]

mod calls;
mod descriptors;
mod desk;
mod journal;
mod library;
mod pieces;
mod refusals;
mod scenes;
mod words;

use scenes::play;
use std::io;

fn main(rt: HostRuntime) -> io::Result<()> {
    let script = io::read_to_string(rt.alloc(), rt.reader())?;
    let mut answers = String::new(rt.alloc());
    play(rt.alloc(), script.as_str(), &mut answers)?;
    print!(&rt; "{answers}")
}

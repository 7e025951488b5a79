//! Worked examples of the runtime of many callers: the standard input has scripts, each of which a
//! runtime of two callers does. What each line should answer stands beside it in the stored output.
//!
//! ```text
//! # TEXT                    written as it is, before the answers of its script
//! conf LINE   bind LINE     a line of the configuration, and one of its bindings
//! charmap PATH LINE         a charmap of the library, of one mapping line
//! fail N                    the library's Nth fetch is to fail
//! runtime PAGES LIMIT N     the pages of the store, the limit of the journal, and how many callers
//!                           there may be: 2 where none is said
//! open CALLER FROM TO       the descriptor's number, or why there is none; CALLER is 1 or 2
//! known CALLER FROM TO      the chain that the caller knows of a pair: cost, length and ordinals
//! convert CALLER TEXT       one call, with room for eight bytes
//! close CALLER              the caller's descriptor; it has one at a time
//! end CALLER                how much it had seen, or how many descriptors it holds
//! both N                    each caller in a thread of its own opens a pair, converts a byte and
//!                           closes the pair, N times: 1 from SA to SB, 2 from SA to UTF-8; and how
//!                           often each converted the byte
//! done                      does the script; then the paths that were asked for, and the journal,
//!                           or only how many entries it has, where these are many
//! ```
//!
//! Where a script has no configuration, its modules are those of three sets, SA, SB and SC, each with a
//! charmap of its own.
//! Where memory is wanting, answers are missing, and aren't those that are stored.
#![tactic(auto)]

mod answers;
mod library;
mod making;
mod scripts;
mod seats;
mod threads;
mod words;

use scripts::play;
use std::io;

fn main(rt: HostRuntime) -> io::Result<()> {
    let script = io::read_to_string(rt.alloc(), rt.reader())?;
    let mut text = String::new(rt.alloc());
    play(&rt, rt.alloc(), script.as_str(), &mut text);
    print!(&rt; "{text}")
}

//! A table of one pair, read by two threads.

use crate::reading::read_by_two;
use charmap_reader::read_charmap;
use code_table::{CodeTable, Look};
use std::alloc::Global;
use std::sync::Wait;
use std::thread::Threads;

/// What both threads read of the code 41 and a byte behind it.
pub fn read_small<R: Threads + Wait + Sync>(rt: &R, alloc: Global) -> Option<(Look, Look)> {
    let text = b"<escape_char> /\nCHARMAP\n<U0041> /x41\nEND CHARMAP\n";
    let map = read_charmap(alloc, text).ok()?;
    let table = CodeTable::build(alloc, &map).ok()?;
    read_by_two(rt, alloc, &table, &[0x41, 0x42])
}

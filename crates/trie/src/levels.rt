//! The pages of a trie, level by level, with references alone.

ghost use Rattle.std.specs.Prelude.{◌≡◌, ◌≤◌, ◌<◌, ◌+◌, ◌*◌, ◌^◌, take, length, IfOk, OnOk};
ghost use Rattle.trie.specs.Fronts.{AreShort, level, fronts};
ghost use Rattle.trie.specs.Runs.{heads};
ghost use Rattle.trie.specs.Stages.{IsStage};

use crate::marks::{mark_count, marks, push_numbered};
use crate::run::Run;
use std::alloc::{AllocError, Global};

/// Appends the pages of a level, and answers how many the next one has.
fn push_level(
    alloc: Global,
    words: &mut Vec<u64>,
    first: u32,
    base: u32,
    depth: usize,
    count: u32,
    longest: usize,
    runs: &[Run],
) -> Result<u32, AllocError>
    requires stage { IsStage (heads runs.now) first depth words.old.items }
    requires short { AreShort 4 (heads runs.now) }
    requires depth { depth ≤ 3 }
    requires base { base ≡ first + length (fronts (heads runs.now) depth) }
    requires count { count ≡ length (level (heads runs.now) depth) }
    requires size { length words.old.items ≡ 256 * base }
    requires longest { AreShort longest (heads runs.now) }
    requires few { base + count < 2 ^ 32 }
    ensures stage { OnOk result (IsStage (heads runs.now) first (depth + 1) words.new.items) }
    ensures count { IfOk result (λ n. n ≡ length (level (heads runs.now) (depth + 1))) }
    ensures size { OnOk result (length words.new.items ≡ 256 * (base + count)) }
    ensures same { OnOk result (take (length words.old.items) words.new.items ≡ words.old.items) }
    ensures few { IfOk result (λ n. base + count + n < 2 ^ 32) }
{
    if longest <= depth + 1 {
        let more = count as usize * 256;
        words.reserve_exact(more)?;
        words.resize(words.len() + more, 0)?;
        return Ok(0);
    }
    let marked = marks(
        alloc,
        words.as_slice(),
        first,
        base,
        depth,
        count as usize,
        runs,
    )?;
    let next = mark_count(marked.as_slice());
    let Ok(next) = u32::try_from(next) else {
        return Err(AllocError);
    };
    if base as u64 + count as u64 + next as u64 > u32::MAX as u64 {
        return Err(AllocError);
    }
    push_numbered(words, marked.as_slice(), base + count)?;
    Ok(next)
}

/// Appends the pages of a trie, with references alone. Pages without a number below 2^32 are want of memory.
pub fn push_levels(
    alloc: Global,
    words: &mut Vec<u64>,
    first: u32,
    longest: usize,
    runs: &[Run],
) -> Result<(), AllocError>
    requires short { AreShort 4 (heads runs.now) }
    requires longest { AreShort longest (heads runs.now) }
    requires size { length words.old.items ≡ 256 * first }
    ensures stage { OnOk result (IsStage (heads runs.now) first 4 words.new.items) }
    ensures size { OnOk result (length words.new.items ≡
        256 * (first + length (fronts (heads runs.now) 4))) }
    ensures same { OnOk result (take (length words.old.items) words.new.items ≡ words.old.items) }
    ensures few { OnOk result (first + length (fronts (heads runs.now) 4) < 2 ^ 32) }
{
    if first == u32::MAX {
        return Err(AllocError);
    }
    let mut base = first;
    let mut count = 1;
    for depth in 0..4 {
        let next = push_level(alloc, words, first, base, depth, count, longest, runs)?;
        base += count;
        count = next;
    }
    Ok(())
}

//! Marks where paths go on.

ghost use Rattle.std.specs.Prelude.{◌≡◌, ◌≤◌, ◌<◌, ◌+◌, ◌*◌, ◌++◌, OnOk, IfOk, length, map, count_by};
ghost use Rattle.std.specs.List.{flat_map};
ghost use Rattle.trie.specs.Fronts.{AreShort, is_front, children, level, fronts};
ghost use Rattle.trie.specs.Runs.{heads};
ghost use Rattle.trie.specs.Stages.{IsStage, marked_with, numbered};
ghost use Rattle.trie.specs.Words.{front_page};

use crate::run::Run;
use crate::walk::page_in;
use crate::words::REF;
use std::alloc::{AllocError, Global};

/// The page that references lead to along a front.
pub fn front_page(words: &[u64], first: u32, front: &[u8]) -> Option<u32>
    ensures { result ≡ front_page words.now first front.now }
{
    let mut page = first;
    for byte in front {
        let at = page as usize * 256 + *byte as usize;
        if at >= words.len() {
            return None;
        }
        page = page_in(words[at])?;
    }
    Some(page)
}

/// Sets a mark, where there is a page.
fn mark(marked: &mut Vec<bool>, page: Option<u32>, base: u32, byte: u8)
    ensures { marked.new.items ≡ marked_with marked.old.items page base byte }
{
    if let Some(page) = page {
        let at = page.saturating_sub(base) as usize * 256 + byte as usize;
        if at < marked.len() {
            marked[at] = true;
        }
    }
}

/// Whether paths go on, at each place of a level's pages.
pub fn marks(
    alloc: Global,
    words: &[u64],
    first: u32,
    base: u32,
    depth: usize,
    count: usize,
    runs: &[Run],
) -> Result<Vec<bool>, AllocError>
    requires stage { IsStage (heads runs.now) first depth words.now }
    requires short { AreShort 4 (heads runs.now) }
    requires depth { depth ≤ 3 }
    requires base { base ≡ first + length (fronts (heads runs.now) depth) }
    requires count { count ≡ length (level (heads runs.now) depth) }
    ensures { IfOk result (λ ms. ms.items ≡
        map (is_front (heads runs.now)) (flat_map children (level (heads runs.now) depth))) }
{
    let mut marked = vec![in alloc; false; count * 256]?;
    for run in runs {
        let path = run.path();
        if path.len() > depth + 1 {
            mark(
                &mut marked,
                front_page(words, first, &path[..depth]),
                base,
                path[depth],
            );
        }
    }
    Ok(marked)
}

/// Appends words that refer to pages from one on, where marks stand.
pub fn push_numbered(words: &mut Vec<u64>, marked: &[bool], next: u32) -> Result<(), AllocError>
    ensures { OnOk result (words.new.items ≡ words.old.items ++ numbered next marked.now) }
{
    words.reserve_exact(marked.len())?;
    let mut next = next as u64;
    for mark in marked {
        if *mark {
            words.push(REF + next)?;
            next += 1;
        } else {
            words.push(0)?;
        }
    }
    Ok(())
}

/// How many marks there are.
pub fn mark_count(marked: &[bool]) -> usize
    ensures { result ≡ count_by (λ m. m) marked.now }
{
    marked.iter().filter(|mark| **mark).count()
}

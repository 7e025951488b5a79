//! Paths that go on from others.

ghost use Rattle.std.specs.Prelude.{◌≡◌, ◌+◌, ◌<◌, ◌≤◌, length, IsTrue, MatchOption};
ghost use Rattle.std.specs.Option.{ForSome};
ghost use Rattle.trie.specs.Fronts.{AreLong, AreShort, is_front, is_proper_prefix};
ghost use Rattle.trie.specs.Leasts.{IsLeastSoFar, lesser};
ghost use Rattle.trie.specs.Overlaps.{at_most, IsOverlapAt};
ghost use Rattle.trie.specs.Runs.{all_of};
ghost use Rattle.trie.specs.Stages.{IsStage, NoneGoesOn, leads_on, some_behind, word_behind};

use crate::entry::Leaves;
use crate::lengths::Lengths;
use crate::marks::front_page;
use crate::run::Run;

/// The word at a place of a page; 0 where there is no page.
fn word_behind(words: &[u64], page: Option<u32>, byte: u8) -> u64
    ensures { result ≡ word_behind words.now page byte }
{
    match page {
        None => 0,
        Some(page) => {
            let at = page as usize * 256 + byte as usize;
            if at < words.len() { words[at] } else { 0 }
        }
    }
}

/// Whether a reference stands behind a path.
fn leads_on(words: &[u64], first: u32, path: &[u8]) -> bool
    requires { 0 < length path.now }
    ensures { result ≡ leads_on words.now first path.now }
{
    let last = path.len() - 1;
    word_behind(words, front_page(words, first, &path[..last]), path[last]) != 0
}

/// Whether the second string begins with the first and goes on.
fn is_proper_prefix(first: &[u8], second: &[u8]) -> bool
    ensures { result ≡ is_proper_prefix first.now second.now }
{
    first.len() < second.len() && second.starts_with(first)
}

/// Whether the first string stands before the second, or is the same.
fn is_at_most(first: &[u8], second: &[u8]) -> bool
    ensures { result ≡ at_most first.now second.now }
{
    first <= second
}

/// The place of the lesser of two paths, the one so far and one more.
fn lesser<L: Leaves>(leaves: &L, best: Option<usize>, at: usize) -> usize
    requires best { ForSome best (λ i. i < length (L.leaves leaves.now)) }
    requires at { at < length (L.leaves leaves.now) }
    ensures { (d : _) → result ≡ lesser (L.leaves leaves.now) best at d }
{
    match best {
        None => at,
        Some(best) => {
            if is_at_most(leaves.leaf(best).path(), leaves.leaf(at).path()) {
                best
            } else {
                at
            }
        }
    }
}

/// Whether a word stands at one of so many places of a page, from a byte on.
fn is_some_behind(words: &[u64], page: Option<u32>, byte: u8, count: usize) -> bool
    requires { byte + count ≤ 256 }
    ensures { result ≡ some_behind words.now page byte count }
{
    let mut some = false;
    for more in 0..count {
        some = some || word_behind(words, page, byte + more as u8) != 0;
    }
    some
}

/// Whether no path goes on from another. A run's paths have one page, so they need one walk.
fn none_goes_on(words: &[u64], first: u32, runs: &[Run]) -> bool
    requires stage { IsStage (all_of runs.now) first 4 words.now }
    requires short { AreShort 4 (all_of runs.now) }
    ensures { IsTrue result → NoneGoesOn (all_of runs.now) }
{
    for run in runs {
        let path = run.path();
        let last = path.len() - 1;
        let page = front_page(words, first, &path[..last]);
        if is_some_behind(words, page, path[last], run.count()) {
            return false;
        }
    }
    true
}

/// The place of the least path that another one goes on from.
fn least_front<L: Leaves>(words: &[u64], first: u32, leaves: &L) -> Option<usize>
    requires stage { IsStage (L.leaves leaves.now) first 4 words.now }
    requires short { AreShort 4 (L.leaves leaves.now) }
    ensures { let all = L.leaves leaves.now in IsLeastSoFar (is_front all) all (length all) result }
{
    let mut best = None;
    for at in 0..leaves.count() {
        let entry = leaves.leaf(at);
        let path = entry.path();
        if leads_on(words, first, path) {
            best = Some(lesser(leaves, best, at));
        }
    }
    best
}

/// The place of the least path that goes on from a string.
fn least_behind<L: Leaves>(front: &[u8], leaves: &L) -> Option<usize>
    ensures { let all = L.leaves leaves.now in
        IsLeastSoFar (is_proper_prefix front.now) all (length all) result }
{
    let mut best = None;
    for at in 0..leaves.count() {
        let entry = leaves.leaf(at);
        let path = entry.path();
        if is_proper_prefix(front, path) {
            best = Some(lesser(leaves, best, at));
        }
    }
    best
}

/// The places of the least path that another one goes on from, and of the least that goes on from it.
pub fn overlap<L: Leaves>(
    words: &[u64],
    first: u32,
    lengths: Lengths,
    leaves: &L,
    runs: &[Run],
) -> Option<(usize, usize)>
    requires runs { all_of runs.now ≡ L.leaves leaves.now }
    requires stage { IsStage (L.leaves leaves.now) first 4 words.now }
    requires short { AreShort 4 (L.leaves leaves.now) }
    requires longest { AreShort lengths.longest (L.leaves leaves.now) }
    requires shortest { AreLong lengths.shortest (L.leaves leaves.now) }
    ensures { let all = L.leaves leaves.now in
        MatchOption result (NoneGoesOn all) (λ o. IsOverlapAt all o.0 o.1) }
{
    if lengths.longest <= lengths.shortest {
        return None;
    }
    if none_goes_on(words, first, runs) {
        return None;
    }
    let front = least_front(words, first, leaves)?;
    let entry = leaves.leaf(front);
    match least_behind(entry.path(), leaves) {
        Some(beyond) => Some((front, beyond)),
        None => unreachable!(),
    }
}

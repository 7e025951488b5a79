//! The words that paths lead to, put into their pages.

ghost use Rattle.std.specs.Prelude.{◌≡◌, ◌≤◌, ◌<◌, ◌+◌, ◌-◌, ◌*◌, ◌^◌, take, length, get_or, Some};
ghost use Rattle.trie.specs.Fronts.{AreShort, pages};
ghost use Rattle.trie.specs.Runs.{all_of};
ghost use Rattle.trie.specs.Stages.{IsStage, Holds, NoneGoesOn, put_with, put_run};
ghost use Rattle.trie.specs.Words.{front_page};

use crate::marks::front_page;
use crate::run::Run;
use crate::words::HIT;

/// Puts a word where there is a page and no word yet.
#[inline(always)]
fn put(words: &mut Vec<u64>, page: Option<u32>, byte: u8, word: u64)
    ensures { words.new.items ≡ put_with words.old.items page byte word }
{
    if let Some(page) = page {
        let at = page as usize * 256 + byte as usize;
        if at < words.len() && words[at] == 0 {
            words[at] = word;
        }
    }
}

/// Puts words that grow by one, so many of them, where no word is yet.
fn put_cells(words: &mut [u64], page: u32, byte: u8, word: u64, count: usize)
    requires room { 256 * page + byte + count ≤ length words.old }
    requires small { word + count < 2 ^ 64 }
    ensures { words.new ≡ put_run words.old (Some page) byte word count }
{
    let start = page as usize * 256 + byte as usize;
    for more in 0..count {
        let cell = words[start + more];
        words[start + more] = if cell == 0 { word + more as u64 } else { cell };
    }
}

/// Puts words that grow by one, so many of them, from a byte of a page on.
fn put_run(words: &mut Vec<u64>, page: Option<u32>, byte: u8, word: u64, count: usize)
    requires room { byte + count ≤ 256 }
    requires small { word + count < 2 ^ 64 }
    ensures { words.new.items ≡ put_run words.old.items page byte word count }
{
    match page {
        Some(page) if page as usize * 256 + byte as usize + count <= words.len() => {
            put_cells(words.as_mut_slice(), page, byte, word, count);
        }
        _ => {
            for more in 0..count {
                put(words, page, byte + more as u8, word + more as u64);
            }
        }
    }
}

/// Puts each path's first word.
pub fn fill(words: &mut Vec<u64>, first: u32, runs: &[Run])
    requires stage { IsStage (all_of runs.now) first 4 words.old.items }
    requires short { AreShort 4 (all_of runs.now) }
    requires apart { NoneGoesOn (all_of runs.now) }
    requires size { length words.old.items ≡ 256 * (first + length (pages (all_of runs.now))) }
    ensures holds { Holds (all_of runs.now) (all_of runs.now) first words.new.items }
    ensures size { length words.new.items ≡ length words.old.items }
    ensures same { take (256 * first) words.new.items ≡ take (256 * first) words.old.items }
{
    for run in runs {
        let path = run.path();
        let last = path.len() - 1;
        let page = front_page(words.as_slice(), first, &path[..last]);
        put_run(words, page, path[last], HIT + run.word(), run.count());
    }
}

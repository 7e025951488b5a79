//! The files of a large input that the program makes itself.

ghost use Rattle.std.specs.Prelude.{◌≡◌, ◌<◌, ◌≤◌, ◌++◌, ◌+◌, ◌*◌, ◌%◌, IfOk, length, take};
ghost use Rattle.batch_jobs.specs.Limits.{made_charmaps, made_jobs, made_points, most_number};
ghost use Rattle.batch_jobs.specs.Generated.{next_seed, point_at, points, spelled, spelled_all, spelled_points};
ghost use Rattle.batch_jobs.specs.Packed.{ArePacked, packed_text, made_bytes};

use crate::limits::{MADE_BYTES, MADE_CHARMAPS, MADE_POINTS};
use crate::made_words::word_of;
use std::alloc::{AllocError, Global};

/// The next of the numbers that look like chance.
#[inline(always)]
fn next_seed(seed: u64) -> u64
    requires { seed < 2147483648 }
    ensures value { result ≡ next_seed seed }
    ensures range { result < 2147483648 }
{
    (1_103_515_245 * seed + 12_345) % 2_147_483_648
}

/// The one after it, which doesn't wait for it.
#[inline(always)]
#[tactic(auto, using(crate::proofs::MadeWords::second_seed_is))]
fn second_seed(seed: u64) -> u64
    requires { seed < 2147483648 }
    ensures value { result ≡ next_seed (next_seed seed) }
    ensures range { result < 2147483648 }
{
    (1_117_952_617 * seed + 1_406_932_606) % 2_147_483_648
}

/// Puts the text that a number stands for, and answers where the next one goes. A text of one byte
/// writes two as well.
#[inline(always)]
#[tactic(auto, using(std::proofs::lemmas::Slice::overwrites))]
fn put_word(bytes: &mut [u8], at: usize, word: u16) -> usize
    requires { at + 2 ≤ length bytes.old }
    ensures front { take result bytes.new ≡ take at bytes.old ++ packed_text word }
    ensures range { result ≤ at + 2 }
{
    bytes[at] = (word % 256) as u8;
    bytes[at + 1] = (word / 256) as u8;
    if word < 256 { at + 1 } else { at + 2 }
}

/// Puts the point of a seed as a charmap spells it, and answers where the next one goes.
#[inline(always)]
fn put_point(
    bytes: &mut [u8],
    at: usize,
    words: &[u16],
    number: u32,
    charmap: u32,
    seed: u64,
) -> usize
    requires room { at + 2 ≤ length bytes.old }
    requires words { ArePacked number words.now }
    requires charmap { charmap < made_charmaps }
    requires seed { seed < 2147483648 }
    ensures front { take result bytes.new
        ≡ take at bytes.old ++ spelled number charmap (point_at seed) }
    ensures range { result ≤ at + 2 }
{
    put_word(bytes, at, word_of(words, number, charmap, seed))
}

/// Puts the points that stand behind a seed as a charmap spells them, and answers where they end.
fn put_points(bytes: &mut [u8], words: &[u16], number: u32, charmap: u32, first: u64) -> usize
    requires room { length bytes.old ≡ made_bytes }
    requires words { ArePacked number words.now }
    requires charmap { charmap < made_charmaps }
    requires first { first < 2147483648 }
    ensures front { take result bytes.new ≡ spelled_all number charmap (points first made_points) }
    ensures range { result ≤ length bytes.new }
{
    let mut at = 0;
    let mut seed = first;
    'pairs: for pair in 0..MADE_POINTS / 2 {
        let one = next_seed(seed);
        seed = second_seed(seed);
        let middle = put_point(bytes, at, words, number, charmap, one);
        at = put_point(bytes, middle, words, number, charmap, seed);
    }
    at
}

/// The bytes of a job's input.
pub(crate) fn spelled_points(
    alloc: Global,
    number: u32,
    job: u32,
    words: &[u16],
) -> Result<Vec<u8>, AllocError>
    requires number { number ≤ most_number }
    requires job { job ≤ made_jobs }
    requires words { ArePacked number words.now }
    ensures { IfOk result (λ bytes. bytes.items ≡ spelled_points number job) }
{
    let mut bytes = vec![in alloc; 0; MADE_BYTES]?;
    let first = 64 * number as u64 + job as u64;
    let end = put_points(
        bytes.as_mut_slice(),
        words,
        number,
        job % MADE_CHARMAPS,
        first,
    );
    bytes.truncate(end);
    Ok(bytes)
}

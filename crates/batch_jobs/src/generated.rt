//! A large input that the program makes itself.

ghost use Rattle.std.specs.Prelude.{◌≡◌, ◌≤◌, ◌++◌, IfOk, codes, map, string_bytes};
ghost use Rattle.std.specs.List.{range_with_len};
ghost use Rattle.outside.specs.Stored.{file_of, shelf_of};
ghost use Rattle.batch_jobs.specs.Limits.{made_charmaps, made_jobs, most_number};
ghost use Rattle.batch_jobs.specs.Generated.{bindings_text, charmap_file, generated, input_file, input_of, jobs_text, modules_text};
ghost use Rattle.batch_jobs.specs.Packed.{ArePacked};

use crate::limits::{MADE_CHARMAPS, MADE_JOBS};
use crate::made_charmaps::charmap_text;
use crate::made_files::spelled_points;
use crate::made_lists::{bindings_text, jobs_text, modules_text};
use crate::made_words::packed_texts;
use std::alloc::{AllocError, Global};

/// The texts of a run, the charmaps of its library and the files of its jobs. The folder of the
/// charmaps is `gen`, and stands in front of their names here.
#[derive(Drop)]
pub struct Generated {
    pub modules: Vec<u8>,
    pub bindings: Vec<u8>,
    pub charmaps: Vec<(String, Vec<u8>)>,
    pub jobs: Vec<u8>,
    pub files: Vec<(String, Vec<u8>)>,
}

/// The file of this charmap.
fn charmap_file(alloc: Global, number: u32, charmap: u32) -> Result<(String, Vec<u8>), AllocError>
    requires number { number ≤ most_number }
    requires charmap { charmap ≤ made_charmaps }
    ensures { IfOk result (λ file. file_of file ≡ charmap_file number charmap) }
{
    let path = format!(in alloc; "gen/G{charmap}")?;
    let text = charmap_text(alloc, number, charmap)?;
    Ok((path, text))
}

/// The files of all charmaps.
#[tactic(auto, using(crate::proofs::Ranges::map_range_none))]
fn charmap_files(alloc: Global, number: u32) -> Result<Vec<(String, Vec<u8>)>, AllocError>
    requires { number ≤ most_number }
    ensures { IfOk result (λ files. shelf_of files.items
        ≡ map (charmap_file number) (range_with_len 0 made_charmaps)) }
{
    let mut files = Vec::new(alloc);
    'charmaps: for charmap in 0..MADE_CHARMAPS {
        files.push(charmap_file(alloc, number, charmap)?)?;
    }
    Ok(files)
}

/// The file of this job's input.
fn input_file(
    alloc: Global,
    number: u32,
    job: u32,
    words: &[u16],
) -> Result<(String, Vec<u8>), AllocError>
    requires number { number ≤ most_number }
    requires job { job ≤ made_jobs }
    requires words { ArePacked number words.now }
    ensures { IfOk result (λ file. file_of file ≡ input_file number job) }
{
    let path = format!(in alloc; "in-{job}")?;
    let bytes = spelled_points(alloc, number, job, words)?;
    Ok((path, bytes))
}

/// The files of all inputs.
#[tactic(auto, using(crate::proofs::Ranges::map_range_none))]
fn input_files(alloc: Global, number: u32) -> Result<Vec<(String, Vec<u8>)>, AllocError>
    requires { number ≤ most_number }
    ensures { IfOk result (λ files. shelf_of files.items
        ≡ map (input_file number) (range_with_len 1 made_jobs)) }
{
    let words = packed_texts(alloc, number)?;
    let mut files = Vec::new(alloc);
    'jobs: for job in 1..MADE_JOBS + 1 {
        files.push(input_file(alloc, number, job, words.as_slice())?)?;
    }
    Ok(files)
}

/// The input of this number, up to 1,000: 64 jobs between 8 sets of 1,152 points each.
pub fn generate(alloc: Global, number: u32) -> Result<Generated, AllocError>
    requires { number ≤ most_number }
    ensures { IfOk result (λ made. input_of made ≡ generated number) }
{
    Ok(Generated {
        modules: modules_text(alloc)?,
        bindings: bindings_text(alloc)?,
        charmaps: charmap_files(alloc, number)?,
        jobs: jobs_text(alloc)?,
        files: input_files(alloc, number)?,
    })
}

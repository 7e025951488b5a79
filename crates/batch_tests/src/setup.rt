//! What a run is made of: files, which calls are to fail, and where workers are held.

use crate::hex::bytes_of;
use crate::holds::{Holds, Place};
use crate::journals::Form;
use anyhow::{Context, Result, bail};
use batch_workers::Point;
use outside::{ShelfFiles, ShelfLibrary, ShelfSink};
use std::alloc::{AllocError, Global};

/// Letters to fill files with.
const LETTERS: &[u8; 64] = b"aaaaaaaaaaaaaaaaaaaaaaaaaaaaaaaaaaaaaaaaaaaaaaaaaaaaaaaaaaaaaaaa";

/// A file by its name.
#[derive(Drop)]
struct File {
    pub name: String,
    pub bytes: Vec<u8>,
}

/// What the next run is made of. Its charmaps are those of its files.
#[derive(Drop)]
pub struct Setup {
    files: Vec<File>,
    failing_files: Vec<u32>,
    failing_charmaps: Vec<u32>,
    failing_output: Vec<u32>,
    pub gate: Holds,
    pub form: Form,
}

/// The number of a word.
fn number(word: &str) -> Result<u32> {
    word.parse::<u32>()
        .context(format_args!("{word:?} is no number"))
}

/// The place of two words.
fn place(job: &str, point: &str) -> Result<Place> {
    let job = number(job)?;
    let point = match point {
        "taken" => Point::Taken,
        "opened" => Point::Opened,
        "ended" => Point::Ended,
        _ => bail!("this is no point"),
    };
    Ok(Place { job, point })
}

/// The form of a word.
fn form(word: &str) -> Result<Form> {
    match word {
        "whole" => Ok(Form::Whole),
        "letters" => Ok(Form::Letters),
        "count" => Ok(Form::Count),
        _ => bail!("this is no form"),
    }
}

/// The place of the file of a name, which is made where there is none.
fn place_of(alloc: Global, files: &mut Vec<File>, name: &str) -> Result<usize, AllocError> {
    if let Some(at) = files.iter().position(|file| file.name.as_str() == name) {
        return Ok(at);
    }
    files.push(File {
        name: String::from_str(alloc, name)?,
        bytes: Vec::new(alloc),
    })?;
    Ok(files.len() - 1)
}

/// The words as a line.
fn line_of(alloc: Global, words: &[&str]) -> Result<Vec<u8>, AllocError> {
    let mut line = Vec::new(alloc);
    for word in words {
        if !line.is_empty() {
            line.extend_from_slice(b" ")?;
        }
        line.extend_from_slice(word.as_bytes())?;
    }
    line.push(b'\n')?;
    Ok(line)
}

/// All these files.
fn copied(alloc: Global, files: &[File]) -> Result<Vec<(String, Vec<u8>)>, AllocError> {
    let mut all = Vec::new(alloc);
    for file in files {
        all.push((file.name.clone()?, file.bytes.clone()?))?;
    }
    Ok(all)
}

impl Setup {
    /// Nothing.
    pub fn new(alloc: Global) -> Setup {
        Setup {
            files: Vec::new(alloc),
            failing_files: Vec::new(alloc),
            failing_charmaps: Vec::new(alloc),
            failing_output: Vec::new(alloc),
            gate: Holds::new(alloc),
            form: Form::Whole,
        }
    }

    /// Appends bytes to a file, so many times.
    fn append(
        &mut self,
        alloc: Global,
        name: &str,
        bytes: &[u8],
        times: u32,
    ) -> Result<(), AllocError> {
        let at = place_of(alloc, &mut self.files, name)?;
        if let Some(file) = self.files.get_mut(at) {
            for _ in 0..times {
                file.bytes.extend_from_slice(bytes)?;
            }
        }
        Ok(())
    }

    /// Appends letters to a file, so that it has so many bytes.
    fn fill(&mut self, alloc: Global, name: &str, size: usize) -> Result<(), AllocError> {
        let at = place_of(alloc, &mut self.files, name)?;
        if let Some(file) = self.files.get_mut(at) {
            let more = size.saturating_sub(file.bytes.len());
            for _ in 0..more / LETTERS.len() {
                file.bytes.extend_from_slice(LETTERS)?;
            }
            for _ in 0..more % LETTERS.len() {
                file.bytes.push(b'a')?;
            }
        }
        Ok(())
    }

    /// Takes a line that appends to a file; the answer says whether it is one.
    fn takes_bytes(&mut self, alloc: Global, words: &[&str]) -> Result<bool> {
        match *words {
            ["line", name, ..] => {
                let line = line_of(alloc, &words[2..])?;
                self.append(alloc, name, line.as_slice(), 1)?
            }
            ["lines", times, name, ..] => {
                let line = line_of(alloc, &words[3..])?;
                self.append(alloc, name, line.as_slice(), number(times)?)?
            }
            ["bytes", name, hex] => self.append(alloc, name, bytes_of(alloc, hex)?.as_slice(), 1)?,
            ["size", name, size] => self.fill(alloc, name, number(size)? as usize)?,
            _ => return Ok(false),
        }
        Ok(true)
    }

    /// Takes which call of what is to fail.
    fn fail(&mut self, what: &str, at: u32) -> Result<()> {
        let pushed = match what {
            "files" => self.failing_files.push(at),
            "charmaps" => self.failing_charmaps.push(at),
            "output" => self.failing_output.push(at),
            _ => bail!("nothing else may fail"),
        };
        Ok(pushed?)
    }

    /// Takes a line that is for a run to come; the answer says whether it is one.
    pub fn takes(&mut self, alloc: Global, words: &[&str]) -> Result<bool> {
        match *words {
            ["forget"] => *self = Setup::new(alloc),
            ["fail", what, at] => self.fail(what, number(at)?)?,
            ["hold", job, at, "until", other, there] => {
                self.gate.add(place(job, at)?, place(other, there)?)?
            }
            ["journal", word] => self.form = form(word)?,
            _ => return self.takes_bytes(alloc, words),
        }
        Ok(true)
    }

    /// The files.
    pub fn files(&self, alloc: Global) -> Result<ShelfFiles, AllocError> {
        let files = copied(alloc, self.files.as_slice())?;
        Ok(ShelfFiles::new(files, self.failing_files.clone()?))
    }

    /// The library of charmaps.
    pub fn library(&self, alloc: Global) -> Result<ShelfLibrary, AllocError> {
        let files = copied(alloc, self.files.as_slice())?;
        Ok(ShelfLibrary::new(alloc, files, self.failing_charmaps.clone()?))
    }

    /// The output.
    pub fn output(&self, alloc: Global) -> Result<ShelfSink, AllocError> {
        Ok(ShelfSink::new(alloc, self.failing_output.clone()?))
    }
}

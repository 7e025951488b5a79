//! The files of the machine.

ghost use Rattle.std.specs.Prelude.{◌≡◌, ◌≢◌, ◌<◌, ◌≤◌, length, take, vec_len, None, IfOk, IfSome, MatchOption};
ghost use Rattle.outside.specs.Takes.{FitsLimit};

use crate::file_sets::{Files, Put, Taken};
use std::alloc::Global;
use std::fs::OpenFile;
use std::io::{ErrorKind, Read, Write};
use std::marker::Model;
use std::{fs, io};

/// The files of the machine. They don't tell what they hold.
///
/// Only a file that isn't there is absent: a folder, or a file that can't be read, is a fault.
#[derive(Drop)]
pub struct DiskFiles<'a, R: std::rt::Files> {
    rt: &'a R,
    takes: u64,
    puts: u64,
}

impl<'a, R: std::rt::Files> Model for DiskFiles<'a, R> {
    ghost use Rattle.std.specs.Prelude.{None};
    ghost use Rattle.outside.specs.Moments.{Outside};

    ghost Value = { Outside };

    ghost view = { λ d. record { told = None; takes = d.takes; puts = d.puts } };
}

impl<'a, R: std::rt::Files> DiskFiles<'a, R> {
    /// The files that the runtime reaches, of which no call has failed.
    pub fn new(rt: &'a R) -> Self
        ensures { result ≡ record { told = None; takes = 0; puts = 0 } }
    {
        DiskFiles {
            rt,
            takes: 0,
            puts: 0,
        }
    }
}

/// Reads at most `most` bytes; room is made for `room` bytes at once.
fn read_at_most<T: Read + Drop>(
    alloc: Global,
    reader: T,
    room: usize,
    most: u64,
) -> io::Result<Vec<u8>>
    ensures { IfOk result (λ got. IfSome (T.remaining reader)
        (λ bytes. got.items ≡ take most bytes)) }
{
    let mut got = Vec::new(alloc);
    got.reserve_exact(room)?;
    reader.take(most).read_to_end(&mut got)?;
    Ok(got)
}

/// Reads a whole reader, which is thought to have `size` bytes. Where it has more than `limit`, one
/// byte past the limit is read, and none is answered.
fn read_whole<T: Read + Drop>(
    alloc: Global,
    reader: T,
    size: u64,
    limit: u32,
) -> io::Result<Option<Vec<u8>>>
    ensures whole { IfOk result (λ whole. IfSome (T.remaining reader)
        (λ bytes. MatchOption whole (limit < length bytes) (λ got. got.items ≡ bytes))) }
    ensures fits { IfOk result (λ whole. IfSome whole (λ got. vec_len got ≤ limit)) }
{
    let most = limit as u64 + 1;
    // with room for one byte past all that is read, the read that finds the end needs no growth
    let room = size.min(most) + 1;
    let got = read_at_most(alloc, reader, room as usize, most)?;
    if got.len() > limit as usize {
        return Ok(None);
    }
    Ok(Some(got))
}

/// Reads an open file, of at most `limit` bytes. A regular file that is longer isn't read.
fn read_file<T: OpenFile + Read + Drop>(
    alloc: Global,
    file: T,
    limit: u32,
) -> io::Result<Option<Vec<u8>>>
    ensures { IfOk result (λ whole. IfSome whole (λ got. vec_len got ≤ limit)) }
{
    let about = file.metadata()?;
    if about.is_file() && about.len() > limit as u64 {
        return Ok(None);
    }
    read_whole(alloc, file, about.len(), limit)
}

/// Takes a file. Absent is a file that can't be opened since it isn't there, and nothing else.
fn take_file<R: std::rt::Files>(rt: &R, alloc: Global, name: &str, limit: u32) -> io::Result<Taken>
    ensures fits { IfOk result (λ taken. FitsLimit limit taken) }
    ensures failed { result ≢ Ok (Taken.Failed) }
{
    let file = match fs::open(rt, name) {
        Ok(file) => file,
        Err(e) if e.kind() == ErrorKind::NotFound => return Ok(Taken::Absent),
        Err(e) => return Err(e),
    };
    match read_file(alloc, file, limit)? {
        Some(bytes) => Ok(Taken::Bytes(bytes)),
        None => Ok(Taken::TooLarge),
    }
}

/// Writes a file, which is made or emptied first.
fn write_file<R: std::rt::Files>(rt: &R, name: &str, bytes: &[u8]) -> io::Result<()> {
    fs::create(rt, name)?.write_all(bytes)
}

impl<'a, R: std::rt::Files> Files for DiskFiles<'a, R> {
    ghost use Rattle.std.specs.Prelude.{None};

    ghost outside = { λ d. record { told = None; takes = d.takes; puts = d.puts } };

    fn take(&mut self, alloc: Global, name: &str, limit: u32) -> Taken {
        match take_file(self.rt, alloc, name, limit) {
            Ok(taken) => taken,
            Err(e) if e.kind() == ErrorKind::OutOfMemory => Taken::Memory,
            Err(_) => {
                self.takes = self.takes.saturating_add(1);
                Taken::Failed
            }
        }
    }

    fn put(&mut self, _alloc: Global, name: &str, bytes: &[u8]) -> Put {
        match write_file(self.rt, name, bytes) {
            Ok(()) => Put::Done,
            Err(_) => {
                self.puts = self.puts.saturating_add(1);
                Put::Failed
            }
        }
    }
}

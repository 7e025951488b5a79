//! Converts files from one character set to another.
#![tactic(auto)]

use batch_alone::Ended;
use batch_whole::{end_memory, end_usage, run};
use batch_words::Refusal;
use batch_workers::OpenGate;
use outside::{DirLibrary, DiskFiles, StdoutSink};
use std::env;
use std::io::ErrorKind;
use std::process::ExitCode;

/// The words behind the program's own name.
fn read_words(rt: &HostRuntime) -> Result<Vec<String>, Refusal> {
    let args = match env::args(rt) {
        Ok(args) => args,
        Err(e) if e.kind() == ErrorKind::OutOfMemory => return Err(Refusal::Memory),
        Err(_) => return Err(Refusal::Usage),
    };
    let mut words = Vec::new(rt.alloc());
    for word in args.skip(1) {
        if words.push(word).is_err() {
            return Err(Refusal::Memory);
        }
    }
    Ok(words)
}

fn main(rt: HostRuntime) -> ExitCode {
    let mut files = DiskFiles::new(&rt);
    let library = DirLibrary::new(&rt);
    let mut out = StdoutSink::new(&rt);
    let Ended {
        status,
        cause: _cause,
        library: _library,
        journal: _journal,
    } = match read_words(&rt) {
        Ok(words) => run(
            &rt,
            words.as_slice(),
            &mut files,
            library,
            &OpenGate,
            &mut out,
        ),
        Err(Refusal::Usage) => end_usage(rt.alloc(), library, &mut out),
        Err(Refusal::Memory) => end_memory(rt.alloc(), library, &mut out),
    };
    ExitCode::from(status)
}

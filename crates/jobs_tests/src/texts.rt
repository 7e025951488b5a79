//! Worked examples of the texts, each fault of a list of jobs, and how many jobs there may be.

ghost use Rattle.std.specs.Prelude.{◌≤◌, length};
ghost use Rattle.text_lines.specs.Limits.{longest_text};

use batch_jobs::{JobFault, Outcome, journal_text, read_jobs, report, report_line, sum_report};
use chain_search::Ordinals;
use charmap_reader::{MapFault, MapKind};
use code_pairs::Code;
use names_alias::{NameFault, Word, normal};
use runtime_histories::{
    Asked, End, Entry, Event, Load, Loads, ModuleTables, Refusal, Reply, TextFault,
};
use std::alloc::{AllocError, Global};
use std::snapshot::Snapshot;
use std::test::Fail;

#[test]
fn reads_jobs(rt: HostRuntime) {
    let text = b"# FROM TO IN OUT\r\n\nutf-8 \xff// a.txt o\xC3\xA9\r\n\t#\n A\tB i o".as_slice();
    match read_jobs(rt.alloc(), text) {
        Err(fault) => assert!(rt; false, "{fault:?}"),
        Ok(jobs) => {
            assert_eq!(rt; jobs.len(), 2);
            assert_eq!(rt; (jobs[0].line, jobs[1].line), (3, 5));
            assert!(rt; jobs[0].from.as_slice() == b"utf-8".as_slice());
            assert!(rt; jobs[0].to.as_slice() == b"\xff//".as_slice());
            assert!(rt; jobs[0].input.as_str() == "a.txt" && jobs[0].output.as_str() == "o\u{e9}");
        }
    }
}

#[test]
fn tells_the_first_fault(rt: HostRuntime) {
    for (text, want) in [
        (
            b"UTF-8 UTF-16LE a.txt".as_slice(),
            JobFault::WordCount { line: 1 },
        ),
        (b"A B i o\n#\nA B i o o", JobFault::WordCount { line: 3 }),
        (b"A B i\0 o", JobFault::NotText { line: 1 }),
        (b"A B i \xff", JobFault::NotText { line: 1 }),
        (b"A B \xff", JobFault::WordCount { line: 1 }),
        (b"A B i o\n\nA B \xff o\nA", JobFault::NotText { line: 3 }),
    ] {
        match read_jobs(rt.alloc(), text) {
            Ok(jobs) => assert!(rt; false, "{} jobs", jobs.len()),
            Err(fault) => assert_eq!(rt; fault, want),
        }
    }
}

#[test]
fn takes_as_many_jobs_as_there_may_be(rt: HostRuntime) -> Result<(), Fail> {
    for (last, want) in [
        (b"# A B i o".as_slice(), None),
        (b"A B i o", Some(JobFault::TooMany { line: 4_097 })),
        (b"A B i \xff", Some(JobFault::NotText { line: 4_097 })),
        (b"A B i", Some(JobFault::WordCount { line: 4_097 })),
    ] {
        let mut text = Vec::new(rt.alloc());
        for _ in 0..4_096 {
            text.extend_from_slice(b"A B i o\n")?;
        }
        text.extend_from_slice(last)?;
        assert!(rt; text.len() <= 16_777_216);
        match read_jobs(rt.alloc(), text.as_slice()) {
            Ok(jobs) => assert!(rt; want.is_none() && jobs.len() == 4_096),
            Err(fault) => assert_eq!(rt; Some(fault), want),
        }
    }
    Ok(())
}

#[test]
fn writes_reports(rt: HostRuntime) -> Result<(), Fail> {
    let alloc = rt.alloc();
    let outcomes = vec![in alloc;
        Outcome::Good { written: 2 },
        Outcome::Illegal { at: 1 },
        Outcome::Absent,
        Outcome::Refused(Refusal::NoConversion),
        Outcome::Good { written: 2 },
        Outcome::Good { written: 1 },
    ]?;
    let text = report(alloc, outcomes.as_slice(), 11, 7)?;
    assert!(rt;
        text.as_slice()
            == b"1: ok\n2: illegal at 1\n3: absent\n4: no conversion\n\
        5: ok\n6: ok\njobs 6 ok 3 failed 3 read 11 written 7\n"
                .as_slice()
    );
    let text = sum_report(alloc, outcomes.as_slice(), 11, 7, 513)?;
    assert!(rt; text.as_slice() == b"jobs 6 ok 3 failed 3 read 11 written 7\nsum 513\n".as_slice());
    Ok(())
}

/// The word of a charmap.
fn charmap() -> Word {
    match Word::new(b"CA") {
        Some(word) => word,
        None => unreachable!(),
    }
}

/// A bad name.
fn bad_name(which: End, fault: NameFault) -> Outcome {
    Outcome::Refused(Refusal::BadName { which, fault })
}

/// A charmap whose text gives no table.
fn bad_charmap(fault: TextFault) -> Outcome {
    Outcome::Refused(Refusal::BadCharmap {
        module: 0,
        charmap: charmap(),
        fault,
    })
}

#[test]
fn tells_each_cause(rt: HostRuntime) -> Result<(), Fail> {
    let alloc = rt.alloc();
    let symbol = MapFault {
        kind: MapKind::Symbol,
        line: 4,
    };
    let overlap = TextFault::Overlap {
        first: Code::from_bytes(b"\x8f"),
        second: Code::from_bytes(b"\x8f\xa0"),
    };
    for (outcome, want) in vec![in alloc;
        (Outcome::Incomplete { at: 0 }, "1: incomplete at 0\n"),
        (Outcome::TooLarge, "1: too large\n"),
        (Outcome::ReadFault, "1: read fault\n"),
        (Outcome::WriteFault, "1: write fault\n"),
        (
            bad_name(End::From, NameFault::Suffix { at: 7 }),
            "1: bad name from: suffix at 7\n"
        ),
        (
            bad_name(End::To, NameFault::Empty),
            "1: bad name to: empty\n"
        ),
        (
            bad_name(End::To, NameFault::LongName { len: 65 }),
            "1: bad name to: too long 65\n"
        ),
        (
            bad_name(End::From, NameFault::Reserved),
            "1: bad name from: reserved\n"
        ),
        (
            Outcome::Refused(Refusal::LibraryFault {
                module: 0,
                charmap: charmap()
            }),
            "1: charmap fault CA\n",
        ),
        (
            Outcome::Refused(Refusal::NoCharmap {
                module: 0,
                charmap: charmap()
            }),
            "1: no charmap CA\n",
        ),
        (
            bad_charmap(TextFault::Map(symbol)),
            "1: bad charmap CA: M4 line 4\n"
        ),
        (bad_charmap(overlap), "1: bad charmap CA: M10 8F 8FA0\n"),
        (
            Outcome::Refused(Refusal::StoreFull { need: 8, free: 7 }),
            "1: store full need 8 free 7\n",
        ),
        (
            Outcome::Refused(Refusal::JournalFull { length: 1 }),
            "1: journal full at 1\n"
        ),
    ]? {
        let line = report_line(alloc, 1, &outcome)?;
        assert!(rt; line.as_slice() == want.as_bytes(), "{want}");
    }
    Ok(())
}

/// A name as it was asked for.
fn asked(text: &[u8]) -> Asked
    requires { length text.now ≤ longest_text }
{
    match normal(text) {
        Ok(name) => Asked::Good(name),
        Err(fault) => Asked::Bad(fault),
    }
}

/// What caller 1 was answered for two names.
fn opening(from: &[u8], to: &[u8], reply: Reply) -> Entry
    requires from { length from.now ≤ longest_text }
    requires to { length to.now ≤ longest_text }
{
    Entry {
        caller: 1,
        event: Event::Opening {
            from: asked(from),
            to: asked(to),
            reply,
        },
    }
}

/// Caller 1 closes what was opened.
fn closing(number: u64) -> Entry {
    Entry {
        caller: 1,
        event: Event::Closing { number },
    }
}

/// A chain of two steps, and the pages of the modules that were loaded for it, from module 0 on.
fn opened(alloc: Global, chain: [u32; 2], pages: &[u32]) -> Result<Reply, AllocError> {
    let tables = ModuleTables::new(Vec::new(alloc));
    let mut loads = Vec::new(alloc);
    let mut module = 0u32;
    for count in pages {
        loads.push(Load {
            module,
            pages: *count,
            tables: Snapshot::of(&tables),
        })?;
        module = module.saturating_add(1);
    }
    let modules = Ordinals::new(Vec::new(alloc));
    Ok(Reply::Opened {
        chain: Ordinals::new(Vec::from_slice(alloc, &chain)?),
        cost: 2,
        loaded: Loads::new(loads),
        modules: Snapshot::of(&modules),
    })
}

#[test]
fn writes_journals(rt: HostRuntime) -> Result<(), Fail> {
    let alloc = rt.alloc();
    let entries = vec![in alloc;
        opening(b"utf-8", b"UTF-16LE", opened(alloc, [2, 7], &[])?),
        closing(0),
        opening(b"utf-8", b"KLINGON", Reply::Refused(Refusal::NoConversion)),
        opening(b"ISO-8859-1", b"utf-8", opened(alloc, [19, 3], &[4])?),
        closing(3),
        opening(b"SA", b"SB", opened(alloc, [16, 19], &[4, 24])?),
        opening(
            b"SA//X",
            b"SB",
            Reply::Refused(Refusal::BadName {
                which: End::From,
                fault: NameFault::Suffix { at: 4 },
            })
        ),
    ]?;
    let text = journal_text(alloc, entries.as_slice())?;
    assert!(rt;
        text.as_slice()
            == b"0 1 open UTF-8// UTF-16LE// ok cost 2 chain 2,7 loaded -\n\
        1 1 close 0\n\
        2 1 open UTF-8// KLINGON// refused no conversion\n\
        3 1 open ISO-8859-1// UTF-8// ok cost 2 chain 19,3 loaded 0:4\n\
        4 1 close 3\n\
        5 1 open SA// SB// ok cost 2 chain 16,19 loaded 0:4,1:24\n\
        6 1 open ? SB// refused bad name from: suffix at 4\n"
                .as_slice()
    );
    assert!(rt; journal_text(alloc, &[])?.is_empty());
    Ok(())
}

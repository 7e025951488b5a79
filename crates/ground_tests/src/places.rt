//! What no clause says: that each call can succeed, and what the machine's files answer.

use outside::{
    DirLibrary, DiskFiles, Fetched, Files, Library, Put, Sent, ShelfFiles, ShelfLibrary, ShelfSink,
    Sink, StdoutSink, SureFiles, SureLibrary, SureSink, Taken,
};
use std::alloc::{AllocError, Global};
use std::fs;
use std::fs::OpenFile;
use std::test::Fail;

/// Two files of one name, and one of another.
fn three_files(alloc: Global) -> Result<Vec<(String, Vec<u8>)>, AllocError> {
    let mut files = Vec::new(alloc);
    for (name, bytes) in [("a", b"first"), ("a", b"later"), ("b", b"other")] {
        files.push((String::from_str(alloc, name)?, bytes.to_vec(alloc)?))?;
    }
    Ok(files)
}

/// What was taken, in a word: its bytes where they are UTF-8.
fn word_of(taken: &Taken) -> &str {
    match taken {
        Taken::Bytes(bytes) => str::from_utf8(bytes.as_slice()).unwrap_or("other bytes"),
        Taken::Absent => "absent",
        Taken::TooLarge => "too large",
        Taken::Failed => "failed",
        Taken::Memory => "memory",
    }
}

/// A name, the most bytes that are wanted, and what is taken, in a word.
type Row = (&'static str, u32, &'static str);

/// Whether taking files one after another gives these rows.
fn are_taken<F: Files>(files: &mut F, alloc: Global, rows: &[Row]) -> bool {
    for row in rows {
        let taken = files.take(alloc, row.0, row.1);
        if word_of(&taken) != row.2 {
            return false;
        }
    }
    true
}

/// Whether fetching texts one after another gives these rows.
fn are_fetched<L: Library>(texts: &mut L, alloc: Global, rows: &[Row]) -> bool {
    for row in rows {
        let fetched: Fetched = texts.fetch(alloc, row.0, row.1);
        if word_of(&fetched) != row.2 {
            return false;
        }
    }
    true
}

/// Of memory where the second call is to fail.
const SECOND_FAILS: [Row; 4] = [
    ("a", 5, "first"),
    ("a", 5, "failed"),
    ("a", 4, "too large"),
    ("c", 5, "absent"),
];

#[test]
fn memory_takes(rt: HostRuntime) -> Result<(), Fail> {
    let mut files = ShelfFiles::new(three_files(rt.alloc())?, vec![in rt.alloc(); 2u32]?);
    assert!(rt; are_taken(&mut files, rt.alloc(), &SECOND_FAILS));
    Ok(())
}

#[test]
fn memory_fetches(rt: HostRuntime) -> Result<(), Fail> {
    let alloc = rt.alloc();
    let mut texts = ShelfLibrary::new(alloc, three_files(alloc)?, vec![in alloc; 2u32]?);
    assert!(rt; are_fetched(&mut texts, alloc, &SECOND_FAILS));
    assert_eq!(rt; texts.reads().len(), 4);
    let mut sure = SureLibrary::new(alloc, three_files(alloc)?);
    assert!(rt; are_fetched(&mut sure, alloc, &[("b", 5, "other")]));
    assert_eq!(rt; sure.reads().len(), 1);
    Ok(())
}

#[test]
fn memory_puts(rt: HostRuntime) -> Result<(), Fail> {
    let mut files = ShelfFiles::new(three_files(rt.alloc())?, vec![in rt.alloc(); 2u32]?);
    for (bytes, wanted) in [
        (b"new", Put::Done),
        (b"bad", Put::Failed),
        (b"end", Put::Done),
    ] {
        assert_eq!(rt; files.put(rt.alloc(), "a", bytes), wanted);
    }
    assert_eq!(rt; files.content("a"), Some(b"end".as_slice()));
    Ok(())
}

#[test]
fn memory_is_sure(rt: HostRuntime) -> Result<(), Fail> {
    let mut files = SureFiles::new(three_files(rt.alloc())?);
    assert_eq!(rt; files.put(rt.alloc(), "a", b"new"), Put::Done);
    assert!(rt; are_taken(&mut files, rt.alloc(), &[("a", 3, "new")]));
    assert_eq!(rt; files.content("b"), Some(b"other".as_slice()));
    Ok(())
}

#[test]
fn memory_is_written(rt: HostRuntime) -> Result<(), Fail> {
    let mut failing = ShelfSink::new(rt.alloc(), vec![in rt.alloc(); 2u32]?);
    let mut sure = SureSink::new(rt.alloc());
    for (piece, wanted) in [
        (b"one", Sent::Done),
        (b"two", Sent::Failed),
        (b"end", Sent::Done),
    ] {
        assert_eq!(rt; failing.put(piece), wanted);
        assert_eq!(rt; sure.put(piece), Sent::Done);
    }
    assert_eq!(rt; failing.written(), b"oneend".as_slice());
    assert_eq!(rt; sure.written(), b"onetwoend".as_slice());
    Ok(())
}

/// Puts files to a folder, which is there, and says what became of each.
fn put_rows<F: Files>(files: &mut F, alloc: Global) -> [Put; 5] {
    [
        files.put(alloc, "outside_test/file", b"a longer text"),
        files.put(alloc, "outside_test/file", b"text"),
        files.put(alloc, "outside_test/empty", b""),
        files.put(alloc, "outside_test/folder", b"text"),
        files.put(alloc, "outside_test/absent/file", b"text"),
    ]
}

/// What a folder answers: of a file's name and a limit. The file `vast` has no blocks on the disk
/// and more bytes than any limit; it is refused unread.
const FOLDER: [Row; 9] = [
    ("outside_test/file", 4, "text"),
    ("outside_test/file", 3, "too large"),
    ("outside_test/file", 0, "too large"),
    ("outside_test/file", u32::MAX, "text"),
    ("outside_test/empty", 0, ""),
    ("outside_test/vast", u32::MAX, "too large"),
    ("outside_test/absent", 4, "absent"),
    ("outside_test/folder", 4, "failed"),
    ("outside_test/file/below", 4, "failed"),
];

#[test]
fn a_folder_answers(rt: HostRuntime) -> Result<(), Fail> {
    fs::create_dir_all(&rt, "outside_test/folder")?;
    fs::create(&rt, "outside_test/vast")?.set_len(1 << 33)?;
    let mut files = DiskFiles::new(&rt);
    let put = put_rows(&mut files, rt.alloc());
    assert_eq!(rt;
        put,
        [Put::Done, Put::Done, Put::Done, Put::Failed, Put::Failed]
    );
    assert!(rt; are_taken(&mut files, rt.alloc(), &FOLDER));
    let mut texts = DirLibrary::new(&rt);
    assert!(rt; are_fetched(&mut texts, rt.alloc(), &FOLDER));
    fs::remove_dir_all(&rt, "outside_test")?;
    Ok(())
}

#[test]
fn output_is_written(rt: HostRuntime) -> Result<(), Fail> {
    let mut sink = StdoutSink::new(&rt);
    assert_eq!(rt; sink.put(b"standard output\n"), Sent::Done);
    assert_eq!(rt; sink.put(b""), Sent::Done);
    Ok(())
}

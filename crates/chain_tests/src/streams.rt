//! Streams in pieces as their callers convert them.

ghost use Rattle.std.specs.Prelude.{◌≡◌, ◌+◌, ◌<◌, ◌≤◌, length, IfOk};
ghost use Rattle.code_pairs.specs.Tables.{Tables, IsPoint, IsWellFormed};
ghost use Rattle.chain_steps.specs.Chains.{CanRun};

use crate::small_tables::{make_pair, make_small_table, make_tables};
use chain_steps::{Bound, Converter, Joints, Recipe, Runner, Set};
use code_pairs::{Charmap, Code, Pair};
use code_table::{CodeTable, Owned};
use std::alloc::{AllocError, Global};
use std::test::Fail;
use step_buffers::{Fed, Finish, Session, Whole};
use step_unicode::Uni;

/// A chain between two sets without a table.
fn runner(alloc: Global, reader: Uni, writer: Uni) -> Runner
    ensures { (ts : Tables) → CanRun ts result.recipe }
{
    Runner::new(Recipe {
        reader: Set::Unicode(reader),
        joints: Joints::none(alloc),
        writer: Set::Unicode(writer),
    })
}

/// Feeds a short piece of a short stream.
fn feed<C: Converter>(
    session: &mut Session,
    converter: &mut C,
    piece: &[u8],
) -> Result<Fed, AllocError>
    requires ready { C.ready converter.old }
    requires piece { length piece.now ≤ 64 }
    requires taken { session.old.taken ≤ 4096 }
    ensures ready { C.ready converter.new }
    ensures taken { session.new.taken ≤ session.old.taken + length piece.now }
{
    session.feed(converter, piece)
}

/// The conversion of a stream that comes in two pieces, over the memory of another one.
fn in_two<C: Converter>(
    alloc: Global,
    converter: &mut C,
    first: &[u8],
    second: &[u8],
) -> Result<Whole, AllocError>
    requires ready { C.ready converter.old }
    requires first { length first.now ≤ 64 }
    requires second { length second.now ≤ 64 }
{
    let mut session = Session::new(alloc)?;
    let _ = feed(&mut session, converter, first)?;
    let _ = feed(&mut session, converter, second)?;
    Ok(session.finish(converter))
}

/// The same of a stream that comes byte by byte, in memory that another session gave back.
fn in_bytes<C: Converter>(
    alloc: Global,
    converter: &mut C,
    input: &[u8],
) -> Result<Whole, AllocError>
    requires ready { C.ready converter.old }
    requires input { length input.now ≤ 64 }
{
    let (buffers, _) = Session::new(alloc)?.end(converter);
    let mut session = Session::over(alloc, buffers, input.len() as u64)?;
    for byte in input {
        let _ = feed(&mut session, converter, &[*byte])?;
    }
    Ok(session.finish(converter))
}

fn is_same(one: &Whole, other: &Whole) -> bool {
    one.finish == other.finish && one.bytes == other.bytes
}

const SETS: [Uni; 6] = [
    Uni::Ascii,
    Uni::Utf8,
    Uni::Utf16,
    Uni::Utf16Le,
    Uni::Utf16Be,
    Uni::Ucs4,
];

/// Nothing; one byte; plain text; points of one to four bytes; the same, cut off; an overlong form and
/// a surrogate in UTF-8; texts with marks of either order; a surrogate alone; UCS-4, and past its end.
const INPUTS: [&[u8]; 12] = [
    &[],
    &[0x41],
    &[0x70, 0x6C, 0x61, 0x69, 0x6E],
    &[0x41, 0xC3, 0xA9, 0xE3, 0x81, 0x82, 0xF0, 0x9F, 0x98, 0x80],
    &[0xE3, 0x81, 0x82, 0xF0, 0x9F, 0x98],
    &[0x41, 0xC0, 0x80],
    &[0x41, 0xED, 0xA0, 0x80],
    &[0xFF, 0xFE, 0x41, 0x00, 0x3D, 0xD8, 0x00, 0xDE],
    &[0xFE, 0xFF, 0x00, 0x41, 0xD8, 0x3D, 0xDE, 0x00],
    &[0x3D, 0xD8, 0x41, 0x00],
    &[0x00, 0x00, 0x00, 0x41, 0x00, 0x01, 0xF6, 0x00],
    &[0x00, 0x10, 0xFF, 0xFF, 0x00, 0x11],
];

/// The conversion of a stream in two pieces.
fn cut_in_two(
    alloc: Global,
    reader: Uni,
    writer: Uni,
    first: &[u8],
    second: &[u8],
) -> Result<Whole, AllocError>
    requires first { length first.now ≤ 64 }
    requires second { length second.now ≤ 64 }
{
    let mut runner = runner(alloc, reader, writer);
    let mut tables = Owned {
        tables: Vec::new(alloc),
    };
    let mut bound = Bound {
        runner: &mut runner,
        tables: &mut tables,
    };
    in_two(alloc, &mut bound, first, second)
}

/// The conversion of a stream byte by byte.
fn cut_in_bytes(alloc: Global, reader: Uni, writer: Uni, input: &[u8]) -> Result<Whole, AllocError>
    requires { length input.now ≤ 64 }
{
    let mut runner = runner(alloc, reader, writer);
    let mut tables = Owned {
        tables: Vec::new(alloc),
    };
    let mut bound = Bound {
        runner: &mut runner,
        tables: &mut tables,
    };
    in_bytes(alloc, &mut bound, input)
}

/// Whether an input gives the same in one piece, byte by byte, and in every cut into two.
fn is_the_same_in_every_cut(
    alloc: Global,
    reader: Uni,
    writer: Uni,
    input: &[u8],
) -> Result<bool, AllocError>
    requires { length input.now ≤ 64 }
{
    let whole = cut_in_two(alloc, reader, writer, input, &[])?;
    if !is_same(&cut_in_bytes(alloc, reader, writer, input)?, &whole) {
        return Ok(false);
    }
    for cut in 0..input.len() {
        let parts = cut_in_two(alloc, reader, writer, &input[..cut], &input[cut..])?;
        if !is_same(&parts, &whole) {
            return Ok(false);
        }
    }
    Ok(true)
}

#[test]
fn cuts_change_nothing(rt: HostRuntime) -> Result<(), AllocError> {
    for reader in SETS {
        for writer in SETS {
            for input in INPUTS {
                assert!(&rt; input.len() <= 64);
                assert!(&rt; is_the_same_in_every_cut(rt.alloc(), reader, writer, input)?);
            }
        }
    }
    Ok(())
}

/// Whether the stream goes on after a piece, with that output so far.
fn gives<C: Converter>(
    session: &mut Session,
    converter: &mut C,
    piece: &[u8],
    output: &[u8],
) -> Result<bool, AllocError>
    requires ready { C.ready converter.old }
    requires piece { length piece.now ≤ 64 }
    requires taken { session.old.taken ≤ 4096 }
    ensures ready { C.ready converter.new }
    ensures taken { session.new.taken ≤ session.old.taken + length piece.now }
{
    let fed = feed(session, converter, piece)?;
    Ok(fed == Fed::Going && session.output() == output)
}

#[test]
fn a_point_comes_in_four_pieces(rt: HostRuntime) -> Result<(), AllocError> {
    let mut runner = runner(rt.alloc(), Uni::Utf8, Uni::Utf16Be);
    let mut tables = Owned {
        tables: Vec::new(rt.alloc()),
    };
    let mut bound = Bound {
        runner: &mut runner,
        tables: &mut tables,
    };
    let mut session = Session::new(rt.alloc())?;
    assert!(&rt; gives(&mut session, &mut bound, &[0xF0], &[])?);
    assert!(&rt; gives(&mut session, &mut bound, &[0x9F], &[])?);
    assert!(&rt; gives(&mut session, &mut bound, &[0x98], &[])?);
    assert!(&rt; gives(&mut session, &mut bound, &[0x80], &[0xD8, 0x3D, 0xDE, 0x00])?);
    let whole = session.finish(&mut bound);
    assert!(&rt; whole.finish == Finish::Done);
    assert!(&rt; whole.bytes.as_slice() == [0xD8, 0x3D, 0xDE, 0x00].as_slice());
    Ok(())
}

/// A reader of ISO-2022-JP over these tables, which writes UTF-8.
fn jp_runner(alloc: Global, tables: &Owned) -> Runner
    requires { length tables.now.tables.items ≡ 2 }
    ensures { CanRun tables.now.tables.items result.recipe }
{
    Runner::new(Recipe {
        reader: Set::Iso2022Jp { roman: 0, kanji: 1 },
        joints: Joints::none(alloc),
        writer: Set::Unicode(Uni::Utf8),
    })
}

#[test]
fn escapes_come_in_three_pieces(rt: HostRuntime) -> Result<(), Fail> {
    let roman = make_small_table(rt.alloc(), make_pair(0xA5, &[0x5C]))?;
    let kanji = make_small_table(rt.alloc(), make_pair(0x3042, &[0x24, 0x22]))?;
    let mut tables = make_tables(rt.alloc(), roman, kanji)?;
    let mut runner = jp_runner(rt.alloc(), &tables);
    let mut bound = Bound {
        runner: &mut runner,
        tables: &mut tables,
    };
    let mut session = Session::new(rt.alloc())?;
    let all = b"A\xE3\x81\x82";
    assert!(&rt; gives(&mut session, &mut bound, b"A\x1B$", b"A")?);
    assert!(&rt; gives(&mut session, &mut bound, b"B$", b"A")?);
    assert!(&rt; gives(&mut session, &mut bound, b"\"\x1B(B", all)?);
    let whole = session.finish(&mut bound);
    assert!(&rt; whole.finish == Finish::Done);
    assert!(&rt; whole.bytes.as_slice() == all.as_slice());
    Ok(())
}

//! Calls with little room, a joint, and the states of ISO-2022-JP.

ghost use Rattle.std.specs.Prelude.{◌≡◌, ◌<◌, ◌≤◌, length, IfOk};
ghost use Rattle.code_pairs.specs.Tables.{IsPoint, IsWellFormed};
ghost use Rattle.chain_steps.specs.Chains.{CanRun};
ghost use Rattle.chain_steps.specs.Sets.{IsInRange};
ghost use Rattle.chain_steps.specs.Carry.{AreInRange};

use crate::small_tables::{make_pair, make_small_table, make_table, make_tables};
use chain_steps::{Bound, Converter, Joint, Joints, Progress, Recipe, Reset, Runner, Set, Verdict};
use code_pairs::{Charmap, Code, Pair};
use code_table::{CodeTable, Lookup, Owned};
use std::alloc::Global;
use std::test::Fail;
use step_unicode::Uni;

fn make_progress(consumed: usize, produced: usize, verdict: Verdict) -> Progress {
    Progress {
        consumed,
        produced,
        verdict,
    }
}

/// A chain over some tables, in its initial states.
fn make_runner<T: Lookup>(tables: &T, reader: Set, joints: Joints, writer: Set) -> Runner
    requires reads { IsInRange (T.tables tables.now) reader }
    requires joints { AreInRange (T.tables tables.now) joints }
    requires writes { IsInRange (T.tables tables.now) writer }
    ensures { CanRun (T.tables tables.now) result.recipe }
{
    Runner::new(Recipe {
        reader,
        joints,
        writer,
    })
}

/// Whether a call with some room of an output of AA bytes answers that and leaves those bytes.
fn converts<T: Lookup>(
    runner: &mut Runner,
    tables: &mut T,
    input: &[u8],
    room: usize,
    want: Progress,
    bytes: [u8; 8],
) -> bool
    requires ready { T.ready tables.old }
    requires range { CanRun (T.tables tables.old) runner.old.recipe }
    requires room { room ≤ 8 }
    ensures range { CanRun (T.tables tables.new) runner.new.recipe }
    ensures ready { T.ready tables.new }
{
    let mut output = [0xAA; 8];
    let progress = runner.convert(tables, input, &mut output[..room]);
    progress == want && output == bytes
}

/// Whether a return with some room of an output of AA bytes answers that and leaves those bytes.
fn resets<T: Lookup>(
    runner: &mut Runner,
    tables: &mut T,
    room: usize,
    want: Reset,
    bytes: [u8; 4],
) -> bool
    requires ready { T.ready tables.old }
    requires range { CanRun (T.tables tables.old) runner.old.recipe }
    requires room { room ≤ 4 }
    ensures range { CanRun (T.tables tables.new) runner.new.recipe }
    ensures ready { T.ready tables.new }
{
    let mut output = [0xAA; 4];
    let reset = runner.reset(tables, &mut output[..room]);
    reset == want && output == bytes
}

#[test]
fn stops_where_room_ends(rt: HostRuntime) -> Result<(), Fail> {
    let alloc = rt.alloc();
    let mut none = Owned {
        tables: Vec::new(alloc),
    };
    let smile = b"A\xF0\x9F\x98\x80".as_slice();
    for (reader, input, writer, room, want, bytes) in [
        (
            Uni::Utf8,
            smile,
            Uni::Utf16Le,
            3,
            make_progress(1, 2, Verdict::Full),
            [0x41, 0x00, 0xAA, 0xAA, 0xAA, 0xAA, 0xAA, 0xAA],
        ),
        (
            Uni::Utf8,
            smile,
            Uni::Utf16Le,
            0,
            make_progress(0, 0, Verdict::Full),
            [0xAA; 8],
        ),
        (
            Uni::Utf8,
            b"\xC0",
            Uni::Utf16Le,
            0,
            make_progress(0, 0, Verdict::Illegal),
            [0xAA; 8],
        ),
        (
            Uni::Utf16Be,
            b"\0A\xD8",
            Uni::Ucs4,
            8,
            make_progress(2, 4, Verdict::Incomplete),
            [0x00, 0x00, 0x00, 0x41, 0xAA, 0xAA, 0xAA, 0xAA],
        ),
        (
            Uni::Utf8,
            b"A\xC3\xA9",
            Uni::Ascii,
            8,
            make_progress(1, 1, Verdict::Illegal),
            [0x41, 0xAA, 0xAA, 0xAA, 0xAA, 0xAA, 0xAA, 0xAA],
        ),
    ] {
        let mut runner = make_runner(
            &none,
            Set::Unicode(reader),
            Joints::none(alloc),
            Set::Unicode(writer),
        );
        assert!(&rt; converts(&mut runner, &mut none, input, room, want, bytes));
    }
    Ok(())
}

#[test]
fn a_full_call_is_made_again(rt: HostRuntime) -> Result<(), Fail> {
    let alloc = rt.alloc();
    let mut none = Owned {
        tables: Vec::new(alloc),
    };
    let utf8 = Set::Unicode(Uni::Utf8);
    let utf16 = Set::Unicode(Uni::Utf16);
    let mut runner = make_runner(&none, utf8, Joints::none(alloc), utf16);
    let full = make_progress(0, 0, Verdict::Full);
    assert!(&rt; converts(&mut runner, &mut none, b"A", 3, full, [0xAA; 8]));
    let done = make_progress(1, 4, Verdict::Done);
    let bytes = [0xFF, 0xFE, 0x41, 0x00, 0xAA, 0xAA, 0xAA, 0xAA];
    assert!(&rt; converts(&mut runner, &mut none, b"A", 4, done, bytes));
    Ok(())
}

#[test]
fn a_joint_changes_points_or_has_none(rt: HostRuntime) -> Result<(), Fail> {
    let alloc = rt.alloc();
    let written = make_table(alloc, make_pair(0x41, &[0x41]), make_pair(0x42, &[0x42]))?;
    let read = make_small_table(alloc, make_pair(0x43, &[0x41]))?;
    let mut tables = make_tables(alloc, written, read)?;
    let joint = Joint {
        writer: Set::Table(0),
        reader: Set::Table(1),
    };
    let utf8 = Set::Unicode(Uni::Utf8);
    let joints = Joints::new(vec![in alloc; joint]?);
    let mut runner = make_runner(&tables, utf8, joints, utf8);
    let want = make_progress(1, 1, Verdict::Illegal);
    let bytes = [0x43, 0xAA, 0xAA, 0xAA, 0xAA, 0xAA, 0xAA, 0xAA];
    assert!(&rt; converts(&mut runner, &mut tables, b"AB", 8, want, bytes));
    Ok(())
}

/// A Roman and a Kanji table.
fn make_jp_tables(alloc: Global) -> Result<Owned, Fail>
    ensures { IfOk result (λ owned. length owned.tables.items ≡ 2) }
{
    let roman = make_table(alloc, make_pair(0xA5, &[0x5C]), make_pair(0x203E, &[0x7E]))?;
    let kanji = make_small_table(alloc, make_pair(0x3042, &[0x24, 0x22]))?;
    make_tables(alloc, roman, kanji)
}

#[test]
fn an_escape_is_cut(rt: HostRuntime) -> Result<(), Fail> {
    let mut tables = make_jp_tables(rt.alloc())?;
    let jp = Set::Iso2022Jp { roman: 0, kanji: 1 };
    let utf8 = Set::Unicode(Uni::Utf8);
    let mut runner = make_runner(&tables, jp, Joints::none(rt.alloc()), utf8);
    let want = make_progress(1, 1, Verdict::Incomplete);
    let bytes = [0x41, 0xAA, 0xAA, 0xAA, 0xAA, 0xAA, 0xAA, 0xAA];
    assert!(&rt; converts(&mut runner, &mut tables, b"A\x1B$", 8, want, bytes));
    Ok(())
}

#[test]
fn a_reset_returns_to_ascii(rt: HostRuntime) -> Result<(), Fail> {
    let mut tables = make_jp_tables(rt.alloc())?;
    let jp = Set::Iso2022Jp { roman: 0, kanji: 1 };
    let utf8 = Set::Unicode(Uni::Utf8);
    let mut runner = make_runner(&tables, utf8, Joints::none(rt.alloc()), jp);
    let want = make_progress(4, 6, Verdict::Done);
    let bytes = [0x41, 0x1B, 0x24, 0x42, 0x24, 0x22, 0xAA, 0xAA];
    assert!(&rt; converts(&mut runner, &mut tables, b"A\xE3\x81\x82", 8, want, bytes));
    let closed = Reset::Closed { produced: 3 };
    assert!(&rt; resets(&mut runner, &mut tables, 2, Reset::Full, [0xAA; 4]));
    assert!(&rt;
        resets(
            &mut runner,
            &mut tables,
            3,
            closed,
            [0x1B, 0x28, 0x42, 0xAA]
        )
    );
    let mut bound = Bound {
        runner: &mut runner,
        tables: &mut tables,
    };
    let mut output = [0xAA; 4];
    assert!(&rt; bound.reset(&mut output[..0]) == Reset::Closed { produced: 0 });
    assert!(&rt; bound.convert(b"A", &mut output) == make_progress(1, 1, Verdict::Done));
    Ok(())
}

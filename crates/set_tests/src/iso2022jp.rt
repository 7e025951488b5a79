//! Short texts of ISO-2022-JP over two small tables: the two points in which JIS X 0201 Roman
//! differs from ASCII, and one letter of Hiragana.

ghost use Rattle.std.specs.Prelude.{◌≡◌, ◌<◌, ◌≤◌, length, IfOk};
ghost use Rattle.code_pairs.specs.Tables.{IsWellFormed};
ghost use Rattle.step_iso2022jp.specs.Shifts.{IsShiftState};

use crate::pairs::make_pair;
use code_pairs::{Charmap, Code, Pair};
use code_table::{CodeTable, Owned};
use std::alloc::Global;
use std::process::Abort;
use std::test::Fail;
use step_iso2022jp::{close_shift, read_unit, write, write_unit};
use step_unicode::{State, Unit, Wrote};

fn got(point: u32, used: u32, state: State) -> Unit {
    Unit::Got {
        point: Some(point),
        used,
        state,
    }
}

fn escape(state: State) -> Unit {
    Unit::Got {
        point: None,
        used: 3,
        state,
    }
}

/// Asserts what the two tables give for an input in a state.
fn reads(rt: &impl Abort, tables: &mut Owned, state: State, input: &[u8], want: Unit)
    requires state { IsShiftState state }
{
    assert!(rt; 0 < input.len() && tables.tables.len() == 2);
    assert!(rt;
        read_unit(tables, 0, 1, state, input) == want,
        "at {input:?}"
    );
}

/// Asserts how a point is spelled from a state; no bytes stand for want of it.
fn spells(rt: &impl Abort, tables: &mut Owned, state: State, point: u32, want: &[u8])
    requires state { IsShiftState state }
{
    assert!(rt; tables.tables.len() == 2);
    match write_unit(tables, 0, 1, state, point) {
        Some((bytes, _)) => assert!(rt; bytes.as_slice() == want, "at {point}"),
        None => assert!(rt; want.is_empty(), "at {point}"),
    }
}

fn roman_table(alloc: Global) -> Result<CodeTable, Fail>
    ensures { IfOk result IsWellFormed }
{
    let pairs = vec![in alloc; make_pair(0xA5, &[0x5C]), make_pair(0x203E, &[0x7E])]?;
    Ok(CodeTable::build(alloc, &Charmap { pairs })?)
}

fn kanji_table(alloc: Global) -> Result<CodeTable, Fail>
    ensures { IfOk result IsWellFormed }
{
    let pairs = vec![in alloc; make_pair(0x3042, &[0x24, 0x22]), make_pair(0xFF, &[0x30])]?;
    Ok(CodeTable::build(alloc, &Charmap { pairs })?)
}

fn two_tables(alloc: Global) -> Result<Owned, Fail> {
    let roman = roman_table(alloc)?;
    let kanji = kanji_table(alloc)?;
    Ok(Owned {
        tables: vec![in alloc; roman, kanji]?,
    })
}

#[test]
fn units_go_by_the_state(rt: HostRuntime) -> Result<(), Fail> {
    let mut tables = two_tables(rt.alloc())?;
    let tables = &mut tables;
    reads(
        &rt,
        tables,
        State::Plain,
        &[0x5C],
        got(0x5C, 1, State::Plain),
    );
    reads(
        &rt,
        tables,
        State::Roman,
        &[0x5C],
        got(0xA5, 1, State::Roman),
    );
    reads(&rt, tables, State::Roman, &[0x41], Unit::Illegal);
    reads(
        &rt,
        tables,
        State::Kanji,
        &[0x24, 0x22],
        got(0x3042, 2, State::Kanji),
    );
    reads(&rt, tables, State::Kanji, &[0x24], Unit::Incomplete);
    reads(&rt, tables, State::Kanji, &[0x25], Unit::Illegal);
    reads(&rt, tables, State::Kanji, &[0x30, 0x24], Unit::Illegal);
    reads(&rt, tables, State::Kanji, &[0x24, 0x0A], Unit::Illegal);
    reads(
        &rt,
        tables,
        State::Kanji,
        &[0x0A],
        got(0x0A, 1, State::Kanji),
    );
    reads(
        &rt,
        tables,
        State::Kanji,
        &[0x1B, 0x28, 0x42],
        escape(State::Plain),
    );
    reads(
        &rt,
        tables,
        State::Plain,
        &[0x1B, 0x28, 0x4A],
        escape(State::Roman),
    );
    reads(
        &rt,
        tables,
        State::Plain,
        &[0x1B, 0x24, 0x40],
        escape(State::Kanji),
    );
    reads(
        &rt,
        tables,
        State::Plain,
        &[0x1B, 0x24, 0x42],
        escape(State::Kanji),
    );
    reads(&rt, tables, State::Plain, &[0x1B, 0x24], Unit::Incomplete);
    reads(
        &rt,
        tables,
        State::Plain,
        &[0x1B, 0x28, 0x40],
        Unit::Illegal,
    );
    reads(&rt, tables, State::Plain, &[0x80], Unit::Illegal);
    Ok(())
}

#[test]
fn escapes_stand_where_the_class_changes(rt: HostRuntime) -> Result<(), Fail> {
    let mut tables = two_tables(rt.alloc())?;
    let tables = &mut tables;
    spells(&rt, tables, State::Plain, 0x41, &[0x41]);
    spells(
        &rt,
        tables,
        State::Plain,
        0x3042,
        &[0x1B, 0x24, 0x42, 0x24, 0x22],
    );
    spells(&rt, tables, State::Kanji, 0x3042, &[0x24, 0x22]);
    spells(&rt, tables, State::Plain, 0xA5, &[0x1B, 0x28, 0x4A, 0x5C]);
    spells(&rt, tables, State::Roman, 0x203E, &[0x7E]);
    spells(&rt, tables, State::Roman, 0x5C, &[0x1B, 0x28, 0x42, 0x5C]);
    spells(&rt, tables, State::Plain, 0x1B, &[]);
    spells(&rt, tables, State::Plain, 0xFF, &[]);
    Ok(())
}

#[test]
fn a_text_is_closed_in_ascii(rt: HostRuntime) -> Result<(), Fail> {
    let mut tables = two_tables(rt.alloc())?;
    assert!(&rt; tables.tables.len() == 2);
    assert!(&rt; close_shift(State::Plain).as_slice().is_empty());
    assert!(&rt; close_shift(State::Kanji).as_slice() == [0x1B, 0x28, 0x42].as_slice());
    let mut output = [0x55; 6];
    assert!(&rt; write(&mut tables, 0, 1, State::Plain, 0x3042, &mut output, 2) == Wrote::Full);
    assert!(&rt; output.as_slice() == [0x55; 6].as_slice());
    let wrote = Wrote::Bytes {
        count: 5,
        state: State::Kanji,
    };
    assert!(&rt; write(&mut tables, 0, 1, State::Plain, 0x3042, &mut output, 1) == wrote);
    assert!(&rt; output.as_slice() == [0x55, 0x1B, 0x24, 0x42, 0x24, 0x22].as_slice());
    Ok(())
}

//! Codes of EUC-JP and GB 18030 with one to four bytes, in a table of one's own.

ghost use Rattle.std.specs.Prelude.{◌≡◌, ◌<◌, ◌≤◌, length};

use crate::pairs::make_pair;
use code_pairs::{Charmap, Code, Pair};
use code_table::{CodeTable, Owned};
use std::test::Fail;
use step_table::{read_unit, write, write_unit};
use step_unicode::{State, Unit, Wrote};

fn got(point: u32, used: u32) -> Unit {
    Unit::Got {
        point: Some(point),
        used,
        state: State::Plain,
    }
}

#[test]
fn codes_of_one_to_four_bytes_are_units(rt: HostRuntime) -> Result<(), Fail> {
    let alloc = rt.alloc();
    let pairs = vec![in alloc;
        make_pair(0x41, &[0x41]),
        make_pair(0x3042, &[0xA4, 0xA2]),
        make_pair(0x4E02, &[0x8F, 0xB0, 0xA1]),
        make_pair(0x80, &[0x81, 0x30, 0x81, 0x30]),
    ]?;
    let table = CodeTable::build(alloc, &Charmap { pairs })?;
    let mut tables = Owned {
        tables: vec![in alloc; table]?,
    };
    let rows: [(&[u8], Unit); 7] = [
        (&[0x41, 0xA4], got(0x41, 1)),
        (&[0xA4, 0xA2], got(0x3042, 2)),
        (&[0x8F, 0xB0, 0xA1, 0x41], got(0x4E02, 3)),
        (&[0x81, 0x30, 0x81, 0x30], got(0x80, 4)),
        (&[0x8F, 0xB0], Unit::Incomplete),
        (&[0x8F, 0xA4], Unit::Illegal),
        (&[0x42], Unit::Illegal),
    ];
    for (input, want) in rows {
        assert!(&rt; 0 < input.len() && tables.tables.len() == 1);
        assert!(&rt;
            read_unit(&mut tables, 0, State::Plain, input) == want,
            "at {input:?}"
        );
    }
    Ok(())
}

#[test]
fn points_are_written_as_their_codes(rt: HostRuntime) -> Result<(), Fail> {
    let alloc = rt.alloc();
    let pairs = vec![in alloc;
        make_pair(0x4E02, &[0x8F, 0xB0, 0xA1]),
        make_pair(0x80, &[0x81, 0x30, 0x81, 0x30]),
    ]?;
    let table = CodeTable::build(alloc, &Charmap { pairs })?;
    let mut tables = Owned {
        tables: vec![in alloc; table]?,
    };
    let code = write_unit(&mut tables, 0, 0x4E02).ok_or("no code")?;
    assert!(&rt; code.as_slice() == [0x8F, 0xB0, 0xA1].as_slice());
    assert!(&rt; write_unit(&mut tables, 0, 0x41).is_none());
    let mut output = [0x55; 4];
    assert!(&rt; write(&mut tables, 0, State::Plain, 0x80, &mut output, 1) == Wrote::Full);
    assert!(&rt; write(&mut tables, 0, State::Plain, 0x41, &mut output, 1) == Wrote::Lacks);
    assert!(&rt; output.as_slice() == [0x55, 0x55, 0x55, 0x55].as_slice());
    let wrote = Wrote::Bytes {
        count: 3,
        state: State::Plain,
    };
    assert!(&rt; write(&mut tables, 0, State::Plain, 0x4E02, &mut output, 1) == wrote);
    assert!(&rt; output.as_slice() == [0x55, 0x8F, 0xB0, 0xA1].as_slice());
    Ok(())
}

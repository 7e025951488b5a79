//! Tables of a few pairs.

ghost use Rattle.std.specs.Prelude.{◌≡◌, ◌<◌, ◌≤◌, length};
ghost use Rattle.code_pairs.specs.Tables.{IsPoint};

use code_pairs::{Charmap, Code, Pair};
use code_table::{CodeTable, Look, Lookup, Owned, TableFault};
use std::test::Fail;

fn make_pair(point: u32, code: &[u8]) -> Pair
    requires some { 0 < length code.now }
    requires few { length code.now ≤ 4 }
    ensures { result.point ≡ point }
{
    Pair {
        point,
        code: Code::from_bytes(code),
    }
}

#[test]
fn a_table_answers_both_ways(rt: HostRuntime) -> Result<(), Fail> {
    let alloc = rt.alloc();
    let pairs = vec![in alloc;
        make_pair(0x41, &[0x81, 0xfe]),
        make_pair(0x42, &[0x81, 0xff]),
        make_pair(0x43, &[0x82, 0x00]),
        make_pair(0x44, &[0x82, 0x01]),
    ]?;
    let table = CodeTable::build(alloc, &Charmap { pairs })?;
    assert!(&rt; table.pages() == 6);
    assert!(&rt; table.code(&[0x81]) == Look::Prefix);
    assert!(&rt; table.code(&[]) == Look::Prefix);
    assert!(&rt; table.code(&[0x81, 0xfd]) == Look::Nothing);
    assert!(&rt;
        table.code(&[0x82, 0x00, 0x41])
            == Look::Point {
                point: 0x43,
                used: 2
            }
    );
    assert!(&rt; table.bytes(0x42) == Some(Code::from_bytes(&[0x81, 0xff])));
    assert!(&rt; table.bytes(0x45) == None);
    assert!(&rt; table.bytes(0x110041) == None);
    Ok(())
}

#[test]
fn a_range_passes_from_row_to_row(rt: HostRuntime) -> Result<(), Fail> {
    let alloc = rt.alloc();
    let pairs = vec![in alloc;
        make_pair(0xFE, &[0x81, 0xfd]),
        make_pair(0xFF, &[0x81, 0xfe]),
        make_pair(0x100, &[0x81, 0xff]),
        make_pair(0x101, &[0x82, 0x00]),
        make_pair(0x102, &[0x82, 0x01]),
        make_pair(0x102, &[0x82, 0x02]),
    ]?;
    let table = CodeTable::build(alloc, &Charmap { pairs })?;
    // the root, two rows of codes; the root, a plane, two rows of points
    assert!(&rt; table.pages() == 7);
    assert!(&rt;
        table.code(&[0x81, 0xff])
            == Look::Point {
                point: 0x100,
                used: 2
            }
    );
    assert!(&rt;
        table.code(&[0x82, 0x02])
            == Look::Point {
                point: 0x102,
                used: 2
            }
    );
    assert!(&rt; table.code(&[0x82, 0x03]) == Look::Nothing);
    assert!(&rt; table.bytes(0x100) == Some(Code::from_bytes(&[0x81, 0xff])));
    assert!(&rt; table.bytes(0x102) == Some(Code::from_bytes(&[0x82, 0x01])));
    assert!(&rt; table.bytes(0x103) == None);
    assert!(&rt; table.last() == 0x102);
    Ok(())
}

#[test]
fn an_image_has_these_words(rt: HostRuntime) -> Result<(), Fail> {
    let alloc = rt.alloc();
    let pairs = vec![in alloc; make_pair(0x41, &[0x41]), make_pair(0x41, &[0x42])]?;
    let table = CodeTable::build(alloc, &Charmap { pairs })?;
    assert!(&rt; table.pages() == 4);
    assert!(&rt; table.layout().root == 1);
    assert!(&rt; table.word(0, 65) == (1 << 62) + 65);
    assert!(&rt; table.word(0, 66) == (1 << 62) + 65);
    assert!(&rt; table.word(3, 65) == (1 << 62) + (1 << 32) + 65);
    let mut owned = Owned {
        tables: vec![in alloc; table]?,
    };
    assert!(&rt;
        owned.code(0, &[0x42])
            == Look::Point {
                point: 0x41,
                used: 1
            }
    );
    assert!(&rt; owned.bytes(0, 0x41) == Some(Code::from_bytes(&[0x41])));
    Ok(())
}

#[test]
fn the_last_point_is_the_greatest(rt: HostRuntime) -> Result<(), Fail> {
    let alloc = rt.alloc();
    let pairs = vec![in alloc;
        make_pair(0xA5, &[0x5C]),
        make_pair(0x203E, &[0x7E]),
        make_pair(0x41, &[0x41]),
    ]?;
    let none = Vec::new(alloc);
    let some = CodeTable::build(alloc, &Charmap { pairs })?;
    let empty = CodeTable::build(alloc, &Charmap { pairs: none })?;
    assert!(&rt; some.last() == 0x203E);
    assert!(&rt; empty.last() == 0);
    let owned = Owned {
        tables: vec![in alloc; empty, some]?,
    };
    assert!(&rt; owned.last(0) == 0);
    assert!(&rt; owned.last(1) == 0x203E);
    Ok(())
}

#[test]
fn a_table_is_double_where_each_code_is(rt: HostRuntime) -> Result<(), Fail> {
    let alloc = rt.alloc();
    let pairs = vec![in alloc;
        make_pair(0x3042, &[0x24, 0x22]),
        make_pair(0x4E9C, &[0x30, 0x21]),
    ]?;
    let double = CodeTable::build(alloc, &Charmap { pairs })?;
    assert!(&rt; double.is_double());
    let owned = Owned {
        tables: vec![in alloc; double]?,
    };
    assert!(&rt; owned.is_double(0));
    Ok(())
}

#[test]
fn a_table_with_another_code_is_not(rt: HostRuntime) -> Result<(), Fail> {
    let alloc = rt.alloc();
    let pairs = vec![in alloc;
        make_pair(0x3042, &[0x24, 0x22]),
        make_pair(0x4E9C, &[0x30, 0xA1]),
    ]?;
    let other = CodeTable::build(alloc, &Charmap { pairs })?;
    assert!(&rt; !other.is_double());
    Ok(())
}

#[test]
fn an_overlap_is_told(rt: HostRuntime) -> Result<(), Fail> {
    let alloc = rt.alloc();
    let pairs = vec![in alloc;
        make_pair(1, &[0x43]),
        make_pair(2, &[0x43, 0x40]),
        make_pair(3, &[0x41, 0x42, 0x43]),
        make_pair(4, &[0x41]),
        make_pair(5, &[0x41, 0x42]),
    ]?;
    let Err(fault) = CodeTable::build(alloc, &Charmap { pairs }) else {
        panic!(&rt; "an overlap was expected");
    };
    let overlap = TableFault::Overlap {
        first: Code::from_bytes(&[0x41]),
        second: Code::from_bytes(&[0x41, 0x42]),
    };
    assert!(&rt; fault == overlap);
    Ok(())
}

//! Each fault with its line, and texts at the limits.

use charmap_reader::{Charmap, MapFault, MapKind, ReadFault, read_charmap};
use std::alloc::{AllocError, Global};

/// A text with these mapping lines, of which the first is line 4.
fn charmap(alloc: Global, lines: &[u8]) -> Result<Vec<u8>, AllocError> {
    let mut text = Vec::new(alloc);
    text.extend_from_slice(b"<escape_char> /\n<comment_char> %\nCHARMAP\n")?;
    text.extend_from_slice(lines)?;
    text.extend_from_slice(b"\nEND CHARMAP\n")?;
    Ok(text)
}

/// The fault that a reading gives.
fn fault_in(read: Result<Charmap, ReadFault>) -> Option<MapFault> {
    match read {
        Err(ReadFault::Text(fault)) => Some(fault),
        _ => None,
    }
}

fn fault(kind: MapKind, line: u32) -> Option<MapFault> {
    Some(MapFault { kind, line })
}

#[test]
fn reads_pairs_in_order(rt: HostRuntime) {
    let alloc = rt.alloc();
    let lines =
        b"<U0041>..<U0044> /x81/xfe x\r\n\n % END CHARMAP\n%IRREVERSIBLE%<U0041> /x41\n<U0041> /d65";
    let text = charmap(alloc, lines).expect(&rt, "memory");
    let map = read_charmap(alloc, &text).expect(&rt, "a charmap");
    let mut told = Vec::new(alloc);
    for pair in &map.pairs {
        told.push((pair.point, pair.code.value()))
            .expect(&rt, "memory");
    }
    let pairs = [
        (0x41, 0x81fe),
        (0x42, 0x81ff),
        (0x43, 0x8200),
        (0x44, 0x8201),
        (0x41, 0x41),
    ];
    assert!(&rt; told.as_slice() == pairs.as_slice());
}

#[test]
fn tells_each_fault_with_its_line(rt: HostRuntime) {
    let alloc = rt.alloc();
    let rows: [(&[u8], MapKind, u32); 12] = [
        (b"A /x41", MapKind::Symbol, 4),
        (b"END WIDTH", MapKind::Symbol, 4),
        (b"<U0041>", MapKind::BadLine, 4),
        (b"<U0041> /x4", MapKind::BadCode, 4),
        (b"<U0041> /d256", MapKind::BadCode, 4),
        (b"<U0041> /x01/x02/x03/x04/x05", MapKind::CodeLength, 4),
        (b"<U0044>..<U0041> /x41", MapKind::BadRange, 4),
        (b"<U0041>..<U0043> /xfe", MapKind::BadRange, 4),
        (b"<UD7FF>..<UE000> /x40/x00", MapKind::BadRange, 4),
        (b"<U0041> /x41\n\n%\n<U0042> /x4\nA", MapKind::BadCode, 7),
        (b"<U0041>..<U0042> /xff/xff/xff/xff", MapKind::BadRange, 4),
        (b"<U00110000> /x41", MapKind::Symbol, 4),
    ];
    for (lines, kind, line) in rows {
        let text = charmap(alloc, lines).expect(&rt, "memory");
        assert!(&rt; fault_in(read_charmap(alloc, &text)) == fault(kind, line));
    }
    let texts: [(&[u8], MapKind, u32); 8] = [
        (b"", MapKind::NoStart, 0),
        (b"CHARMAP", MapKind::NoEnd, 1),
        (b"\x1f\x8b\x08", MapKind::Compressed, 0),
        (b"<code_set_name> X\n# CHARMAP\n\n", MapKind::NoStart, 3),
        (
            b"<comment_char> E\nCHARMAP\nEND CHARMAP\n",
            MapKind::NoEnd,
            3,
        ),
        (
            b"<mb_cur_max> 1\n<include> X\nCHARMAP\nEND CHARMAP\n",
            MapKind::BadLine,
            2,
        ),
        (
            b"\n<escape_char>\nCHARMAP\nEND CHARMAP\n",
            MapKind::BadLine,
            2,
        ),
        (
            b"<comment_char> <\nCHARMAP\nEND CHARMAP\n",
            MapKind::BadLine,
            1,
        ),
    ];
    for (text, kind, line) in texts {
        assert!(&rt; fault_in(read_charmap(alloc, text)) == fault(kind, line));
    }
    assert!(&rt; MapKind::BadRange.number() == 7 && MapKind::TooManyPairs.number() == 11);
}

#[test]
fn reads_up_to_its_limits(rt: HostRuntime) {
    let alloc = rt.alloc();
    let twice = b"<U00010000>..<U0010FFFF> /x00/x00/x00\n<U00010000>..<U0010FFFF> /x10/x00/x00";
    let text = charmap(alloc, twice).expect(&rt, "memory");
    let map = read_charmap(alloc, &text).expect(&rt, "a charmap");
    assert!(&rt; map.pairs.len() == 2_097_152);
    let mut lines = Vec::new(alloc);
    lines.extend_from_slice(twice).expect(&rt, "memory");
    lines
        .extend_from_slice(b"\n<U0041> /x41")
        .expect(&rt, "memory");
    let text = charmap(alloc, &lines).expect(&rt, "memory");
    assert!(&rt; fault_in(read_charmap(alloc, &text)) == fault(MapKind::TooManyPairs, 6));

    let mut text = Vec::new(alloc);
    text.extend_from_slice(b"CHARMAP\nEND CHARMAP\n")
        .expect(&rt, "memory");
    text.resize(16_777_216, b'\n').expect(&rt, "memory");
    assert!(&rt;
        read_charmap(alloc, &text)
            .expect(&rt, "a charmap")
            .pairs
            .is_empty()
    );
    text.push(b'\n').expect(&rt, "memory");
    assert!(&rt; fault_in(read_charmap(alloc, &text)) == fault(MapKind::TooLong, 0));
}

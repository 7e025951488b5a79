//! Units and spellings from outside: the Unicode Standard's Table 3-7 and its examples of the
//! encoding forms, and the examples of RFC 2781.

ghost use Rattle.std.specs.Prelude.{◌≡◌};
ghost use Rattle.step_unicode.specs.declared.set.State.TheVariants.{Plain};
ghost use Rattle.step_unicode.specs.Sets.{IsStateOf};

use std::process::Abort;
use step_unicode::{State, Uni, Unit, Wrote, ascii, read_unit, ucs4, utf8, utf16, write_unit};

fn got(point: u32, used: u32, state: State) -> Unit {
    Unit::Got {
        point: Some(point),
        used,
        state,
    }
}

fn mark(state: State) -> Unit {
    Unit::Got {
        point: None,
        used: 2,
        state,
    }
}

#[test]
fn utf8_reads_well_formed_sequences_alone(rt: HostRuntime) {
    let rows: [(&[u8], Unit); 18] = [
        (&[0x4D], got(0x4D, 1, State::Plain)),
        (&[0xD0, 0xB0, 0x21], got(0x430, 2, State::Plain)),
        (&[0xE4, 0xBA, 0x8C], got(0x4E8C, 3, State::Plain)),
        (&[0xF0, 0x90, 0x8C, 0x82], got(0x10302, 4, State::Plain)),
        (&[0xF4, 0x8F, 0xBF, 0xBF], got(0x10FFFF, 4, State::Plain)),
        (&[0xED, 0x9F, 0xBF], got(0xD7FF, 3, State::Plain)),
        (&[0xC3, 0xA9], got(0xE9, 2, State::Plain)),
        (&[0xE2, 0x82], Unit::Incomplete),
        (&[0xF0, 0x9F, 0x98], Unit::Incomplete),
        (&[0xC2], Unit::Incomplete),
        (&[0xC0], Unit::Illegal),
        (&[0xC0, 0x80], Unit::Illegal),
        (&[0xED, 0xA0], Unit::Illegal),
        (&[0xED, 0xA0, 0x80], Unit::Illegal),
        (&[0xE0, 0x9F], Unit::Illegal),
        (&[0xF0, 0x8F], Unit::Illegal),
        (&[0xF4, 0x90], Unit::Illegal),
        (&[0x80], Unit::Illegal),
    ];
    for (input, want) in rows {
        assert!(rt; 0 < input.len());
        assert!(rt; utf8::read(State::Plain, input) == want, "at {input:?}");
    }
}

#[test]
fn utf16_reads_marks_in_the_initial_state_alone(rt: HostRuntime) {
    let rows: [(&[u8], Unit); 6] = [
        (&[0xFE, 0xFF, 0xD8, 0x08], mark(State::Big)),
        (&[0xFF, 0xFE, 0x08, 0xD8], mark(State::Little)),
        (&[0x41, 0x00], got(0x41, 2, State::Little)),
        (&[0x08, 0xD8, 0x45, 0xDF], got(0x12345, 4, State::Little)),
        (&[0xFE], Unit::Incomplete),
        (&[0x00, 0xDC], Unit::Illegal),
    ];
    for (input, want) in rows {
        assert!(rt; 0 < input.len());
        assert!(rt; utf16::read(State::Plain, input) == want, "at {input:?}");
    }
    assert!(rt; utf16::read(State::Little, &[0xFF, 0xFE]) == got(0xFEFF, 2, State::Little));
    assert!(rt; utf16::read(State::Big, &[0xFE, 0xFF]) == got(0xFEFF, 2, State::Big));
}

#[test]
fn utf16_reads_pairs_high_byte_first(rt: HostRuntime) {
    let rows: [(&[u8], Unit); 8] = [
        (&[0xD8, 0x08, 0xDF, 0x45], got(0x12345, 4, State::Plain)),
        (&[0x00, 0x3D], got(0x3D, 2, State::Plain)),
        (&[0xFE, 0xFF], got(0xFEFF, 2, State::Plain)),
        (&[0xD8], Unit::Incomplete),
        (&[0xD8, 0x3D, 0xDE], Unit::Incomplete),
        (&[0xDC], Unit::Illegal),
        (&[0xD8, 0x00, 0x00], Unit::Illegal),
        (&[0xD8, 0x00, 0xD8], Unit::Illegal),
    ];
    for (input, want) in rows {
        assert!(rt; 0 < input.len());
        assert!(rt;
            utf16::read_big(State::Plain, input) == want,
            "at {input:?}"
        );
    }
}

#[test]
fn ucs4_reads_points_alone(rt: HostRuntime) {
    let rows: [(&[u8], Unit); 6] = [
        (&[0x00, 0x01, 0xF6, 0x00], got(0x1F600, 4, State::Plain)),
        (&[0x00], Unit::Incomplete),
        (&[0x00, 0x00, 0xE0], Unit::Incomplete),
        (&[0x01], Unit::Illegal),
        (&[0x00, 0x11], Unit::Illegal),
        (&[0x00, 0x00, 0xD8], Unit::Illegal),
    ];
    for (input, want) in rows {
        assert!(rt; 0 < input.len());
        assert!(rt; ucs4::read(State::Plain, input) == want, "at {input:?}");
    }
}

#[test]
fn each_set_reads_its_unit(rt: HostRuntime) {
    let ra = got(0x12345, 4, State::Plain);
    assert!(rt; read_unit(Uni::Ascii, State::Plain, &[0x41]) == got(0x41, 1, State::Plain));
    assert!(rt; read_unit(Uni::Ascii, State::Plain, &[0x80]) == Unit::Illegal);
    assert!(rt; read_unit(Uni::Utf8, State::Plain, &[0xF0, 0x92, 0x8D, 0x85]) == ra);
    assert!(rt; read_unit(Uni::Utf16, State::Plain, &[0xFE, 0xFF]) == mark(State::Big));
    assert!(rt; read_unit(Uni::Utf16Le, State::Plain, &[0x08, 0xD8, 0x45, 0xDF]) == ra);
    assert!(rt; read_unit(Uni::Utf16Be, State::Plain, &[0xD8, 0x08, 0xDF, 0x45]) == ra);
    assert!(rt; read_unit(Uni::Ucs4, State::Plain, &[0x00, 0x01, 0x23, 0x45]) == ra);
}

/// Asserts that a set spells a point so from the initial state; no bytes stand for want of it.
fn spells(rt: &impl Abort, set: Uni, point: u32, want: &[u8])
    requires { IsStateOf set Plain }
{
    match write_unit(set, State::Plain, point) {
        Some((bytes, _)) => assert!(rt; bytes.as_slice() == want, "at {point}"),
        None => assert!(rt; want.is_empty(), "at {point}"),
    }
}

#[test]
fn each_set_spells_its_points(rt: HostRuntime) {
    spells(&rt, Uni::Ascii, 0x7F, &[0x7F]);
    spells(&rt, Uni::Ascii, 0x80, &[]);
    spells(&rt, Uni::Utf8, 0x430, &[0xD0, 0xB0]);
    spells(&rt, Uni::Utf8, 0x4E8C, &[0xE4, 0xBA, 0x8C]);
    spells(&rt, Uni::Utf8, 0x10302, &[0xF0, 0x90, 0x8C, 0x82]);
    spells(&rt, Uni::Utf8, 0xD800, &[]);
    spells(&rt, Uni::Utf16, 0x41, &[0xFF, 0xFE, 0x41, 0x00]);
    spells(
        &rt,
        Uni::Utf16,
        0x12345,
        &[0xFF, 0xFE, 0x08, 0xD8, 0x45, 0xDF],
    );
    spells(&rt, Uni::Utf16Le, 0x12345, &[0x08, 0xD8, 0x45, 0xDF]);
    spells(&rt, Uni::Utf16Le, 0xFEFF, &[0xFF, 0xFE]);
    spells(&rt, Uni::Utf16Be, 0x1F600, &[0xD8, 0x3D, 0xDE, 0x00]);
    spells(&rt, Uni::Ucs4, 0x10FFFF, &[0x00, 0x10, 0xFF, 0xFF]);
    spells(&rt, Uni::Ucs4, 0x110000, &[]);
}

#[test]
fn a_writer_that_lacks_room_writes_nothing(rt: HostRuntime) {
    let mut output = [0x55; 4];
    assert!(rt; utf16::write(State::Plain, 0x41, &mut output, 1) == Wrote::Full);
    assert!(rt; utf8::write(State::Plain, 0x4E8C, &mut output, 2) == Wrote::Full);
    assert!(rt; ucs4::write(State::Plain, 0x41, &mut output, 1) == Wrote::Full);
    assert!(rt; ascii::write(State::Plain, 0x80, &mut output, 4) == Wrote::Lacks);
    assert!(rt; output.as_slice() == [0x55, 0x55, 0x55, 0x55].as_slice());
    let wrote = Wrote::Bytes {
        count: 4,
        state: State::Little,
    };
    assert!(rt; utf16::write(State::Plain, 0x41, &mut output, 0) == wrote);
    assert!(rt; output.as_slice() == [0xFF, 0xFE, 0x41, 0x00].as_slice());
}

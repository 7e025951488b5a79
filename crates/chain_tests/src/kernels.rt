//! Calls whose blocks end at each place, in outputs of each size.

ghost use Rattle.std.specs.Prelude.{◌≡◌, ◌≤◌, length};
ghost use Rattle.chain_steps.specs.Chains.{CanRun};

use chain_steps::{Joints, Progress, Recipe, Runner, Set, Verdict};
use code_table::Owned;
use std::alloc::Global;
use std::test::Fail;
use step_unicode::Uni;

/// The most room that a test gives, and what stands behind it.
const ROOM: usize = 176;

/// A unit that is read, and its point as it is written.
type Unit = (&'static [u8], &'static [u8]);

/// Whether a call with some room of an output of AA bytes ends there, for that reason, and leaves the bytes
/// behind as they were.
fn converts(
    alloc: Global,
    pair: (Uni, Uni),
    input: &[u8],
    want: &[u8],
    room: usize,
    ends: (usize, usize),
    verdict: Verdict,
) -> bool
    requires { room ≤ 176 }
{
    let mut none = Owned {
        tables: Vec::new(alloc),
    };
    let mut runner = Runner::new(Recipe {
        reader: Set::Unicode(pair.0),
        joints: Joints::none(alloc),
        writer: Set::Unicode(pair.1),
    });
    let mut output = [0xAA; ROOM];
    let progress = runner.convert(&mut none, input, &mut output[..room]);
    let told = progress
        == Progress {
            consumed: ends.0,
            produced: ends.1,
            verdict,
        };
    let mut same = true;
    for at in 0..ROOM {
        let byte = if at < ends.1 {
            want.get(at).copied().unwrap_or(0)
        } else {
            0xAA
        };
        same = same && output[at] == byte;
    }
    told && same
}

/// Tries forty units, of which one may be another, in rooms of 0 to 175 bytes.
fn tries(alloc: Global, pair: (Uni, Uni), usual: Unit, other: Unit) -> Result<bool, Fail> {
    let mut all = true;
    for place in 0..40usize {
        let mut input = Vec::new(alloc);
        let mut want = Vec::new(alloc);
        let mut ends = Vec::new(alloc);
        for unit in 0..40usize {
            let (read, written) = if unit == place { other } else { usual };
            input.extend_from_slice(read)?;
            want.extend_from_slice(written)?;
            ends.push((input.len(), want.len()))?;
        }
        for room in 0..ROOM {
            let mut end = (0, 0);
            for next in &ends {
                if next.1 <= room {
                    end = *next;
                }
            }
            let verdict = if end.0 == input.len() {
                Verdict::Done
            } else {
                Verdict::Full
            };
            all = all
                && converts(
                    alloc,
                    pair,
                    input.as_slice(),
                    want.as_slice(),
                    room,
                    end,
                    verdict,
                );
        }
    }
    Ok(all)
}

/// Tries forty units with bytes among them, at each place, that are none and begin none.
fn tries_wrong(
    alloc: Global,
    pair: (Uni, Uni),
    usual: Unit,
    wrong: &'static [u8],
) -> Result<bool, Fail> {
    let mut all = true;
    for place in 0..41usize {
        let mut input = Vec::new(alloc);
        let mut want = Vec::new(alloc);
        let mut end = (0, 0);
        for unit in 0..41usize {
            if unit == place {
                end = (input.len(), want.len());
                input.extend_from_slice(wrong)?;
            } else {
                input.extend_from_slice(usual.0)?;
                want.extend_from_slice(usual.1)?;
            }
        }
        all = all
            && converts(
                alloc,
                pair,
                input.as_slice(),
                want.as_slice(),
                ROOM,
                end,
                Verdict::Illegal,
            );
    }
    Ok(all)
}

#[test]
fn blocks_end_at_each_place(rt: HostRuntime) -> Result<(), Fail> {
    let alloc = rt.alloc();
    let low = (Uni::Utf16Le, Uni::Utf8);
    let letter: Unit = (b"A\0", b"A");
    let accent: Unit = (b"\xE9\0", b"\xC3\xA9");
    let kanji: Unit = (b"\xE5\x65", b"\xE6\x97\xA5");
    let smile: Unit = (b"\x3D\xD8\0\xDE", b"\xF0\x9F\x98\x80");
    assert!(&rt; tries(alloc, low, letter, accent)?);
    assert!(&rt; tries(alloc, low, accent, kanji)?);
    assert!(&rt; tries(alloc, low, kanji, letter)?);
    assert!(&rt; tries(alloc, low, kanji, smile)?);
    let big = (Uni::Utf16Be, Uni::Utf16Le);
    assert!(&rt;
        tries(
            alloc,
            big,
            (b"\x65\xE5", b"\xE5\x65"),
            (b"\xD8\x3D\xDE\0", b"\x3D\xD8\0\xDE")
        )?
    );
    let four = (Uni::Utf8, Uni::Ucs4);
    assert!(&rt;
        tries(
            alloc,
            four,
            (b"A", b"\0\0\0A"),
            (b"\xC3\xA9", b"\0\0\0\xE9")
        )?
    );
    Ok(())
}

#[test]
fn units_of_utf8_end_at_each_place(rt: HostRuntime) -> Result<(), Fail> {
    let alloc = rt.alloc();
    let pair = (Uni::Utf8, Uni::Utf16Le);
    let letter: Unit = (b"A", b"A\0");
    let accent: Unit = (b"\xC3\xA9", b"\xE9\0");
    let kanji: Unit = (b"\xE6\x97\xA5", b"\xE5\x65");
    let smile: Unit = (b"\xF0\x9F\x98\x80", b"\x3D\xD8\0\xDE");
    for (usual, other) in [
        (letter, accent),
        (accent, kanji),
        (kanji, letter),
        (accent, smile),
    ] {
        assert!(&rt; tries(alloc, pair, usual, other)?);
    }
    Ok(())
}

#[test]
fn units_of_utf8_end_before_what_is_none(rt: HostRuntime) -> Result<(), Fail> {
    let alloc = rt.alloc();
    let pair = (Uni::Utf8, Uni::Utf16Be);
    let accent: Unit = (b"\xC3\xA9", b"\0\xE9");
    let kanji: Unit = (b"\xE6\x97\xA5", b"\x65\xE5");
    for wrong in [
        b"\x80".as_slice(),
        b"\xC1\xBF",
        b"\xC3A",
        b"\xE0\x9F\xBF",
        b"\xED\xA0\x80",
        b"\xE6\x97A",
        b"\xFF",
    ] {
        assert!(&rt; tries_wrong(alloc, pair, accent, wrong)?);
        assert!(&rt; tries_wrong(alloc, pair, kanji, wrong)?);
    }
    Ok(())
}

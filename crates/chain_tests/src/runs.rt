//! Runs of every length, which end at each place.

use ascii_lanes::{ascii_run, plain_units};

/// The first bytes, as many as are asked for and there.
fn front(bytes: &[u8; 130], len: usize) -> &[u8] {
    &bytes[..len.min(130)]
}

#[test]
fn a_run_of_bytes_ends_at_each_place(rt: HostRuntime) {
    assert_eq!(&rt; ascii_run(b"AB\xC3\xA9"), 2);
    assert_eq!(&rt; ascii_run(b""), 0);
    for len in 0..131usize {
        let mut bytes = [0x41; 130];
        assert_eq!(&rt; ascii_run(front(&bytes, len)), len);
        for at in 0..len.min(130) {
            bytes[at] = 0x80;
            assert_eq!(&rt; ascii_run(front(&bytes, len)), at);
            bytes[at] = 0x41;
        }
    }
}

#[test]
fn a_run_of_units_ends_at_each_place(rt: HostRuntime) {
    assert_eq!(&rt; plain_units(b"A\0\x3D\xD8\0\xDE", false), 2);
    for len in 0..131usize {
        let mut bytes = [0x41; 130];
        let all = len / 2 * 2;
        for big in [false, true] {
            assert_eq!(&rt; plain_units(front(&bytes, len), big), all);
            for at in 0..len.min(130) {
                bytes[at] = 0xDC;
                let is_high = (at % 2 == 0) == big;
                let want = if is_high && at < all { at / 2 * 2 } else { all };
                assert_eq!(&rt; plain_units(front(&bytes, len), big), want);
                bytes[at] = 0x41;
            }
        }
    }
}

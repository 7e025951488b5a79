//! Codes as their callers use them.

use code_pairs::{Code, Pair};

#[test]
fn a_code_is_its_bytes(rt: HostRuntime) {
    let code = Code::from_bytes(&[0x81, 0xfe]);
    assert!(&rt; code.len() == 2);
    assert!(&rt; code.value() == 0x81fe);
    assert!(&rt; code.byte(0) == 0x81);
    assert!(&rt; code.byte(1) == 0xfe);
    assert!(&rt; code == Code::new(2, 0x81fe));
    assert!(&rt; code != Code::new(3, 0x81fe));
    assert!(&rt; code.plus(2) == Code::from_bytes(&[0x82, 0x00]));
    let longest = Code::from_bytes(&[0x8e, 0xa1, 0xa2, 0xff]);
    assert!(&rt; longest.byte(0) == 0x8e);
    assert!(&rt; longest.byte(3) == 0xff);
    assert!(&rt; longest.plus(1).byte(2) == 0xa3);
    let pair = Pair {
        point: 0x41,
        code: Code::from_bytes(&[0x41]),
    };
    assert!(&rt; pair.code.len() == 1);
}

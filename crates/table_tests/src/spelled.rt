//! Each call once on its happy path.

use charmap_words::{CodeFault, Span, read_code, read_span};
use code_pairs::Code;

#[test]
fn reads_spans(rt: HostRuntime) {
    let letters = Span {
        first: 0x41,
        last: 0x5a,
    };
    assert!(&rt; read_span(b"<U0041>..<U005A>") == Some(letters));
    assert!(&rt; read_span(b"<U00000041>...<U005a>") == Some(letters));
    let grin = Span {
        first: 0x1f600,
        last: 0x1f600,
    };
    assert!(&rt; read_span(b"<U0001F600>") == Some(grin));
    assert!(&rt; read_span(b"<UDFFF>") == None);
}

#[test]
fn reads_codes(rt: HostRuntime) {
    let code = Code::from_bytes(&[0x8e, 0xa1, 0xfe, 0x41]);
    assert!(&rt; read_code(b'/', b"/x8e/xA1/d254/101") == Ok(code));
    assert!(&rt; read_code(b'\\', b"\\x5c") == Ok(Code::from_bytes(b"\\")));
    assert!(&rt; read_code(b'/', b"/d256") == Err(CodeFault::BadCode));
    assert!(&rt; read_code(b'/', b"/x01/x02/x03/x04/x05") == Err(CodeFault::CodeLength));
}

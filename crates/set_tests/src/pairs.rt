//! Pairs of a point and a code.

ghost use Rattle.std.specs.Prelude.{◌≡◌, ◌<◌, ◌≤◌, length};

use code_pairs::{Code, Pair};

/// The pair of a point and a code.
pub fn make_pair(point: u32, code: &[u8]) -> Pair
    requires some { 0 < length code.now }
    requires few { length code.now ≤ 4 }
    ensures { result.point ≡ point }
{
    Pair {
        point,
        code: Code::from_bytes(code),
    }
}

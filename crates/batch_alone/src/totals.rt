//! How many bytes were put, and what their values come to.

ghost use Rattle.std.specs.Prelude.{◌≡◌, ◌+◌, ◌*◌, ◌≤◌, ◌<◌, ◌^◌, length, sum};
ghost use Rattle.batch_alone.specs.Steps.{AreCounted};

/// How many bytes were put, and, where they are summed, what their values come to.
#[derive(Clone, Copy, Debug, PartialEq, Eq)]
pub struct Totals {
    pub written: u64,
    pub sum: u64,
}

/// The sum of the values of all bytes.
fn sum_of(bytes: &[u8]) -> u64
    requires { length bytes.now ≤ 2 ^ 32 }
    ensures value { result ≡ sum bytes.now }
    ensures low { result ≤ 255 * length bytes.now }
{
    let mut total = 0u64;
    'bytes: for byte in bytes {
        total += *byte as u64;
    }
    total
}

/// The totals of some bytes, whose values are summed where that is wanted.
pub fn totals_of(sums: bool, bytes: &[u8]) -> Totals
    requires { length bytes.now ≤ 2 ^ 32 }
    ensures counted { AreCounted sums result bytes.now }
    ensures sum { result.sum ≤ 255 * result.written }
{
    Totals {
        written: bytes.len() as u64,
        sum: if sums { sum_of(bytes) } else { 0 },
    }
}

/// The totals of no bytes.
pub fn no_totals() -> Totals
    ensures { result ≡ record { written = 0; sum = 0 } }
{
    Totals { written: 0, sum: 0 }
}

/// The totals of both.
pub fn both(first: Totals, second: Totals) -> Totals
    requires written { first.written + second.written < 2 ^ 64 }
    requires sum { first.sum + second.sum < 2 ^ 64 }
    ensures { result ≡ record {
      written = first.written + second.written;
      sum = first.sum + second.sum;
    } }
{
    Totals {
        written: first.written + second.written,
        sum: first.sum + second.sum,
    }
}

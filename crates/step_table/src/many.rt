//! Eight points written at once.

ghost use Rattle.std.specs.Prelude.{◌≡◌, ℕ, List, ◌+◌, ◌*◌, ◌<◌, ◌≤◌, ◌++◌, length, take, drop, IfSome, MatchOption};
ghost use Rattle.std.specs.List.{AllByRecursion, flat_map};
ghost use Rattle.code_pairs.specs.Tables.{table_at};
ghost use Rattle.code_table.specs.HandsBack.{HandsBack};
ghost use Rattle.step_table.specs.Many.{ArePut};
ghost use Rattle.step_table.specs.Sets.{IsInTable};

use crate::put::put;
use code_pairs::Code;
use code_table::Lookup;

/// Puts codes behind the first `at` bytes of `output`, one behind another.
#[inline(always)]
fn put_codes(codes: &[Code], output: &mut [u8], at: usize) -> usize
    requires room { at + 4 * length codes.now ≤ length output.old }
    ensures within { at + result ≤ length output.new }
    ensures front { take (at + result) output.new ≡ take at output.old ++ flat_map (λ (c : List ℕ). c) codes.now }
    ensures rest { drop (at + result) output.new ≡ drop (at + result) output.old }
{
    let mut end = at;
    for code in codes {
        let count = code.len();
        put(code, output, end);
        end += count;
    }
    end - at
}

/// Writes eight points behind the first `at` bytes of `output`; `None` exactly where the table lacks one
/// of them.
#[inline(always)]
pub fn write_eight<T: Lookup>(
    tables: &mut T,
    table: u32,
    points: [u16; 8],
    output: &mut [u8],
    at: usize,
) -> Option<usize>
    requires ready { T.ready tables.old }
    requires within { table < length (T.tables tables.old) }
    requires room { at + 32 ≤ length output.old }
    ensures put { let t = table_at (T.tables tables.old) table in
        MatchOption result (¬ (AllByRecursion (IsInTable t) points) × (output.new ≡ output.old))
        (ArePut t points at output.old output.new) }
    ensures back { HandsBack T.tables T.ready T.kept tables.old tables.new }
{
    let codes = tables.codes(table, &points)?;
    Some(put_codes(&codes.list, output, at))
}

//! Tables of one and two pairs.

ghost use Rattle.std.specs.Prelude.{◌≡◌, ◌<◌, ◌≤◌, length, IfOk};
ghost use Rattle.code_pairs.specs.Tables.{IsPoint, IsWellFormed};

use code_pairs::{Charmap, Code, Pair};
use code_table::{CodeTable, Owned};
use std::alloc::Global;
use std::test::Fail;

/// The pair of a point and a code.
pub fn make_pair(point: u32, code: &[u8]) -> Pair
    requires some { 0 < length code.now }
    requires few { length code.now ≤ 4 }
    ensures { result.point ≡ point }
{
    Pair {
        point,
        code: Code::from_bytes(code),
    }
}

/// A table of two pairs.
pub fn make_table(alloc: Global, first: Pair, second: Pair) -> Result<CodeTable, Fail>
    requires first { IsPoint first.point }
    requires second { IsPoint second.point }
    ensures { IfOk result IsWellFormed }
{
    let pairs = vec![in alloc; first, second]?;
    Ok(CodeTable::build(alloc, &Charmap { pairs })?)
}

/// A table of one pair.
pub fn make_small_table(alloc: Global, only: Pair) -> Result<CodeTable, Fail>
    requires { IsPoint only.point }
    ensures { IfOk result IsWellFormed }
{
    let pairs = vec![in alloc; only]?;
    Ok(CodeTable::build(alloc, &Charmap { pairs })?)
}

/// Two tables.
pub fn make_tables(alloc: Global, first: CodeTable, second: CodeTable) -> Result<Owned, Fail>
    requires first { IsWellFormed first }
    requires second { IsWellFormed second }
    ensures { IfOk result (λ owned. length owned.tables.items ≡ 2) }
{
    let tables = vec![in alloc; first, second]?;
    Ok(Owned { tables })
}

//! Tables that were built are of points.
ghost use Rattle.std.specs.List.{AllByRecursion};
ghost use Rattle.code_pairs.specs.Tables.{HasPoints};

use code_table::CodeTable;
use runtime_histories::ModuleTables;

/// Each of these tables is of points.
fn see_tables(tables: &[CodeTable])
    ensures { AllByRecursion HasPoints tables.now }
{
    for table in tables {
        table.is_of_points();
    }
}

/// Each table of these modules is of points.
pub fn see_points(all: &[ModuleTables])
    ensures { AllByRecursion (AllByRecursion HasPoints) all.now }
{
    for tables in all {
        see_tables(tables.as_slice());
    }
}

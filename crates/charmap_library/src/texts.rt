//! Tables from texts.
ghost use Rattle.std.specs.Prelude.{◌≡◌, ℕ, List, Ok, IfOk, IfErr};
ghost use Rattle.code_pairs.specs.Tables.{Table, IsWellFormed};
ghost use Rattle.code_table.specs.Faults.{IsTableFault};
ghost use Rattle.charmap_reader.specs.Faults.{Fails};
ghost use Rattle.charmap_reader.specs.Charmap.{charmap_of};
ghost use Rattle.charmap_library.specs.Builds.{IsBuildFault};

use charmap_reader::{ReadFault, read_charmap};
use code_table::{CodeTable, TableFault};
use runtime_histories::TextFault;
use std::alloc::Global;

/// Why a text gives no table.
#[derive(Clone, Copy, Debug, PartialEq, Eq)]
pub enum BuildFault {
    Text(TextFault),
    Memory,
}

/// Why a charmap gives no table.
fn table_fault(fault: TableFault) -> BuildFault
    ensures { (text : List ℕ) (table : Table) → charmap_of text ≡ Ok table → IsTableFault table fault
        → IsBuildFault text result }
{
    match fault {
        TableFault::Overlap { first, second } => {
            BuildFault::Text(TextFault::Overlap { first, second })
        }
        TableFault::Memory => BuildFault::Memory,
    }
}

/// Why a text gives no charmap.
fn read_fault(fault: ReadFault) -> BuildFault
    ensures { (text : List ℕ) → Fails fault (charmap_of text) → IsBuildFault text result }
{
    match fault {
        ReadFault::Text(fault) => BuildFault::Text(TextFault::Map(fault)),
        ReadFault::Memory => BuildFault::Memory,
    }
}

/// The table that a charmap text stands for.
pub fn build_table(alloc: Global, text: &[u8]) -> Result<CodeTable, BuildFault>
    ensures pairs { IfOk result (λ table. charmap_of text.now ≡ Ok table) }
    ensures apart { IfOk result IsWellFormed }
    ensures err { IfErr result (IsBuildFault text.now) }
{
    let map = match read_charmap(alloc, text) {
        Ok(map) => map,
        Err(fault) => return Err(read_fault(fault)),
    };
    match CodeTable::build(alloc, &map) {
        Ok(table) => Ok(table),
        Err(fault) => Err(table_fault(fault)),
    }
}

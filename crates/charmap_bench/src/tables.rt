//! From the text of a charmap to its table.

ghost use Rattle.std.specs.Prelude.{◌≡◌, [], ◌∷◌, IfOk, IfErr};
ghost use Rattle.code_pairs.specs.Tables.{IsWellFormed};
ghost use Rattle.charmap_bench.specs.Tables.{IsBuilt, IsRefusal};

use anyhow::{Context, Result, bail};
use charmap_reader::{ReadFault, read_charmap};
use code_pairs::Code;
use code_table::{CodeTable, Owned, TableFault};
use std::alloc::Global;
use std::{fmt, fs};

/// The table of a charmap, and how many pairs it has.
#[derive(Drop)]
pub struct Built {
    pub pairs: usize,
    pub table: CodeTable,
}

/// Why a text gives no table.
#[derive(Debug, Drop)]
pub enum Refusal {
    /// The first fault of the text.
    Text(ReadFault),
    /// What is wrong with its pairs.
    Table(TableFault),
}

/// Writes the bytes of a code as hexadecimal digits.
fn write_code<W: fmt::Write>(f: &mut fmt::Formatter<W>, code: &Code) -> fmt::Result {
    for place in 0..code.len() {
        let byte = code.byte(place);
        write!(f, "{byte:02X}")?;
    }
    Ok(())
}

impl fmt::Display for Refusal {
    fn fmt<W: fmt::Write>(&self, f: &mut fmt::Formatter<W>) -> fmt::Result {
        match self {
            Refusal::Text(ReadFault::Text(fault)) => {
                write!(f, "M{} line {}", fault.kind.number(), fault.line)
            }
            Refusal::Table(TableFault::Overlap { first, second }) => {
                write!(f, "M10 ")?;
                write_code(f, first)?;
                write!(f, " ")?;
                write_code(f, second)
            }
            Refusal::Text(ReadFault::Memory) => write!(f, "fault"),
            Refusal::Table(TableFault::Memory) => write!(f, "fault"),
        }
    }
}

/// Reads a text and builds its table.
pub fn build_table(alloc: Global, text: &[u8]) -> std::result::Result<Built, Refusal>
    ensures built { IfOk result (IsBuilt text.now) }
    ensures refused { IfErr result (IsRefusal text.now) }
{
    let map = match read_charmap(alloc, text) {
        Ok(map) => map,
        Err(fault) => return Err(Refusal::Text(fault)),
    };
    match CodeTable::build(alloc, &map) {
        Ok(table) => Ok(Built {
            pairs: map.pairs.len(),
            table,
        }),
        Err(fault) => Err(Refusal::Table(fault)),
    }
}

/// The table of a charmap file.
pub fn read_table(rt: &HostRuntime, alloc: Global, name: &str) -> Result<CodeTable>
    ensures { IfOk result IsWellFormed }
{
    let text = fs::read(rt, name).context(format_args!("{name}"))?;
    match build_table(alloc, text.as_slice()) {
        Ok(built) => Ok(built.table),
        Err(refusal) => bail!("{name} {refusal}"),
    }
}

/// Two tables in order.
pub fn two_tables(alloc: Global, first: CodeTable, second: CodeTable) -> Result<Owned>
    requires first { IsWellFormed first }
    requires second { IsWellFormed second }
    ensures { IfOk result (λ owned. owned.tables.items ≡ first ∷ second ∷ []) }
{
    let tables = vec![in alloc; first, second]?;
    Ok(Owned { tables })
}

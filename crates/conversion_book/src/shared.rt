//! Tables that several descriptors share.

ghost use Rattle.std.specs.Prelude.{◌≡◌, ◌++◌, ◌∷◌, [], List, length, map, IfOk, OnOk};
ghost use Rattle.std.specs.Arc.{arc_value};
ghost use Rattle.code_pairs.specs.Tables.{IsWellFormed};
ghost use Rattle.code_table.specs.WellFormed.{AreWellFormed};

use code_pairs::Code;
use code_table::{CodeTable, Codes, Eight, Look, Lookup};
use runtime_histories::ModuleTables;
use std::alloc::{AllocError, Global};
use std::marker::Model;
use std::sync::Arc;

/// Tables, each of which may be shared with others. A clause sees their list.
#[derive(Drop)]
pub struct SharedTables {
    list: Vec<Arc<CodeTable, Global>>,
}

impl Model for SharedTables {
    ghost use Rattle.std.specs.Prelude.{map};
    ghost use Rattle.std.specs.Arc.{arc_value};
    ghost use Rattle.code_pairs.specs.Tables.{Tables};
    ghost use Rattle.code_table.specs.WellFormed.{AreWellFormed};

    ghost Value = { Tables };

    ghost view = { λ s. map arc_value s.list.items };

    ghost invariant = { λ s. AreWellFormed (map arc_value s.list.items) };
}

/// Appends a table, so that it can be shared.
fn push_shared(
    alloc: Global,
    list: &mut Vec<Arc<CodeTable, Global>>,
    table: CodeTable,
) -> Result<(), AllocError>
    ensures { OnOk result (map arc_value list.new.items ≡ map arc_value list.old.items ++ table ∷ []) }
{
    match Arc::new(alloc, table) {
        Ok(shared) => {
            list.push(shared)?;
            Ok(())
        }
        Err(_) => Err(AllocError),
    }
}

/// The same tables, so that they can be shared.
fn share_all(
    alloc: Global,
    tables: Vec<CodeTable>,
) -> Result<Vec<Arc<CodeTable, Global>>, AllocError>
    ensures { IfOk result (λ v. map arc_value v.items ≡ tables.items) }
{
    let mut list = Vec::new(alloc);
    let mut rest = tables.into_iter();
    while let Some(table) = rest.next() {
        push_shared(alloc, &mut list, table)?;
    }
    Ok(list)
}

/// Appends a table that is shared with another list.
fn push_again(
    list: &mut Vec<Arc<CodeTable, Global>>,
    table: &Arc<CodeTable, Global>,
) -> Result<(), AllocError>
    ensures { OnOk result (map arc_value list.new.items ≡ map arc_value list.old.items ++ arc_value table.now ∷ []) }
{
    list.push(Arc::try_clone(table)?)?;
    Ok(())
}

/// Appends tables that are shared with another list.
fn push_all(
    list: &mut Vec<Arc<CodeTable, Global>>,
    tables: &[Arc<CodeTable, Global>],
) -> Result<(), AllocError>
    ensures { OnOk result (map arc_value list.new.items ≡ map arc_value list.old.items ++ map arc_value tables.now) }
{
    for table in tables {
        push_again(list, table)?;
    }
    Ok(())
}

/// Two lists of shared tables, the second behind the first.
fn joined(
    first: Vec<Arc<CodeTable, Global>>,
    second: &[Arc<CodeTable, Global>],
) -> Result<Vec<Arc<CodeTable, Global>>, AllocError>
    ensures { IfOk result (λ v. map arc_value v.items ≡ map arc_value first.items ++ map arc_value second.now) }
{
    let mut list = first;
    push_all(&mut list, second)?;
    Ok(list)
}

impl SharedTables {
    /// No table.
    pub fn new(alloc: Global) -> SharedTables
        ensures { result ≡ [] }
    {
        SharedTables {
            list: Vec::new(alloc),
        }
    }

    /// The tables of a module.
    pub fn of(alloc: Global, tables: ModuleTables) -> Result<SharedTables, AllocError>
        ensures { IfOk result (λ s. s ≡ tables) }
    {
        let list = share_all(alloc, tables.into_list())?;
        Ok(SharedTables { list })
    }

    /// These tables and others behind them.
    pub fn with(self, others: &SharedTables) -> Result<SharedTables, AllocError>
        ensures { IfOk result (λ s. s ≡ self ++ others.now) }
    {
        let SharedTables { list } = self;
        let list = joined(list, others.list.as_slice())?;
        Ok(SharedTables { list })
    }
}

impl Lookup for SharedTables {
    ghost use Rattle.std.specs.Prelude.{◌≡◌, refl};
    ghost use Rattle.std.proofs.Common.{◌∙◌};
    ghost use Rattle.code_table.specs.WellFormed.{AreWellFormed, well_formed_at};

    ghost tables = { λ shared. shared };

    ghost ready = { λ shared. AreWellFormed shared };

    ghost kept = { λ before after. after ≡ before };

    ghost well_formed = { λ shared k ready. well_formed_at shared k ready };

    ghost kept_none = { λ _. refl };

    ghost kept_twice = { λ _ _ _ first second. second ∙ first };

    #[inline(always)]
    fn code(&mut self, table: u32, bytes: &[u8]) -> Look {
        self.list[table as usize].code(bytes)
    }

    #[inline(always)]
    fn bytes(&mut self, table: u32, point: u32) -> Option<Code> {
        self.list[table as usize].bytes(point)
    }

    #[inline(always)]
    fn eight(&mut self, table: u32, input: &[u8]) -> Option<Eight> {
        self.list[table as usize].eight(input)
    }

    #[inline(always)]
    fn codes(&mut self, table: u32, points: &[u16]) -> Option<Codes> {
        self.list[table as usize].codes(points)
    }

    #[inline(always)]
    fn last(&self, table: u32) -> u32 {
        self.list[table as usize].last()
    }

    #[inline(always)]
    fn is_double(&self, table: u32) -> bool {
        self.list[table as usize].is_double()
    }

    #[inline(always)]
    fn is_ascii(&self, table: u32) -> bool {
        self.list[table as usize].is_ascii()
    }
}

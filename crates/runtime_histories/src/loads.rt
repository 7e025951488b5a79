//! What an opening loaded.

use crate::module_tables::ModuleTables;
use std::marker::Model;
use std::snapshot::Snapshot;

/// A module that was loaded, and how many pages its tables have. Contracts alone see the tables.
#[derive(Drop)]
pub struct Load {
    pub module: u32,
    pub pages: u32,
    pub tables: Snapshot<ModuleTables>,
}

/// Modules that were loaded, in the order of the chain.
#[derive(Drop)]
pub struct Loads {
    list: Vec<Load>,
}

impl Model for Loads {
    ghost use Rattle.std.specs.Prelude.{List};
    ghost use Rattle.runtime_histories.specs.declared.loads.Load.{Load};

    ghost Value = { List Load };

    ghost view = { λ l. l.list.items };
}

impl Loads {
    ghost use Rattle.std.specs.Prelude.{◌≡◌};

    /// These loads.
    pub fn new(list: Vec<Load>) -> Loads
        ensures { result ≡ list.items }
    {
        Loads { list }
    }

    /// The loads.
    pub fn as_slice(&self) -> &[Load]
        ensures { result.now ≡ self.now }
    {
        self.list.as_slice()
    }
}

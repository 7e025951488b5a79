//! The accepted lines of a gconv-modules text.

use names_alias::{Name, Word};
use std::alloc::{AllocError, Global};
use std::marker::Model;

/// A module line: a conversion from one set to another. Lines count from 1; the cost is 1 to
/// 2,147,483,647.
#[derive(Drop)]
pub struct EdgeLine {
    pub line: u32,
    pub source: Name,
    pub target: Name,
    pub module: Word,
    pub cost: u32,
}

/// An alias line. Lines count from 1.
#[derive(Drop)]
pub struct AliasLine {
    pub line: u32,
    pub alias: Name,
    pub original: Name,
}

/// Module lines in order.
#[derive(Drop)]
pub struct EdgeLines {
    list: Vec<EdgeLine>,
}

impl Model for EdgeLines {
    ghost use Rattle.std.specs.Prelude.{List};
    ghost use Rattle.modules_conf.specs.declared.lines.EdgeLine.{EdgeLine};

    ghost Value = { List EdgeLine };

    ghost view = { λ lines. lines.list.items };
}

impl EdgeLines {
    ghost use Rattle.std.specs.Prelude.{◌≡◌, [], ◌∷◌, ◌++◌, OnOk, OnErr};

    /// No line.
    pub fn new(alloc: Global) -> Self
        ensures { result ≡ [] }
    {
        EdgeLines {
            list: Vec::new(alloc),
        }
    }

    /// Appends a line.
    pub fn push(&mut self, line: EdgeLine) -> Result<(), AllocError>
        ensures ok { OnOk result (self.new ≡ self.old ++ line ∷ []) }
        ensures err { OnErr result (self.new ≡ self.old) }
    {
        self.list.push(line)?;
        Ok(())
    }

    /// The lines.
    pub fn as_slice(&self) -> &[EdgeLine]
        ensures { result.now ≡ self.now }
    {
        self.list.as_slice()
    }
}

/// Alias lines in order.
#[derive(Drop)]
pub struct AliasLines {
    list: Vec<AliasLine>,
}

impl Model for AliasLines {
    ghost use Rattle.std.specs.Prelude.{List};
    ghost use Rattle.modules_conf.specs.declared.lines.AliasLine.{AliasLine};

    ghost Value = { List AliasLine };

    ghost view = { λ lines. lines.list.items };
}

impl AliasLines {
    ghost use Rattle.std.specs.Prelude.{◌≡◌, [], ◌∷◌, ◌++◌, OnOk, OnErr};

    /// No line.
    pub fn new(alloc: Global) -> Self
        ensures { result ≡ [] }
    {
        AliasLines {
            list: Vec::new(alloc),
        }
    }

    /// Appends a line.
    pub fn push(&mut self, line: AliasLine) -> Result<(), AllocError>
        ensures ok { OnOk result (self.new ≡ self.old ++ line ∷ []) }
        ensures err { OnErr result (self.new ≡ self.old) }
    {
        self.list.push(line)?;
        Ok(())
    }

    /// The lines.
    pub fn as_slice(&self) -> &[AliasLine]
        ensures { result.now ≡ self.now }
    {
        self.list.as_slice()
    }
}

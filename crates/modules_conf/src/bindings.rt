//! The lines of a bindings text.

use crate::kind::Kind;
use names_alias::Word;
use std::alloc::{AllocError, Global};
use std::marker::Model;

/// A binding: the modules of this name are of this kind. Lines count from 1.
#[derive(Drop)]
pub struct Binding {
    pub line: u32,
    pub name: Word,
    pub kind: Kind,
}

/// Bindings in order.
#[derive(Drop)]
pub struct Bindings {
    list: Vec<Binding>,
}

impl Model for Bindings {
    ghost use Rattle.std.specs.Prelude.{List};
    ghost use Rattle.modules_conf.specs.declared.bindings.Binding.{Binding};

    ghost Value = { List Binding };

    ghost view = { λ bindings. bindings.list.items };
}

impl Bindings {
    ghost use Rattle.std.specs.Prelude.{◌≡◌, [], ◌∷◌, ◌++◌, OnOk, OnErr};

    /// No binding.
    pub fn new(alloc: Global) -> Self
        ensures { result ≡ [] }
    {
        Bindings {
            list: Vec::new(alloc),
        }
    }

    /// Appends a binding.
    pub fn push(&mut self, binding: Binding) -> Result<(), AllocError>
        ensures ok { OnOk result (self.new ≡ self.old ++ binding ∷ []) }
        ensures err { OnErr result (self.new ≡ self.old) }
    {
        self.list.push(binding)?;
        Ok(())
    }

    /// The bindings.
    pub fn as_slice(&self) -> &[Binding]
        ensures { result.now ≡ self.now }
    {
        self.list.as_slice()
    }
}

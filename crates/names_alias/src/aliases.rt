//! Aliases of names.

ghost use Rattle.std.specs.Prelude.{◌≡◌, unwrap_or};
ghost use Rattle.text_lines.specs.Limits.{longest_text};
ghost use Rattle.names_alias.specs.Builtin.{builtin_aliases};
ghost use Rattle.names_alias.specs.Aliases.{original_of};

use crate::builtin::{is_builtin, is_internal};
use crate::fault::NameFault;
use crate::form::normal;
use crate::name::Name;
use indexmap::{IndexMap, IndexSet};
use std::alloc::{AllocError, Global};
use std::marker::Model;

/// Names that are never aliases, and what each alias stands for. A name is looked up once: what an
/// alias stands for isn't looked up again.
#[derive(Drop)]
pub struct Aliases {
    fixed: IndexSet<Name>,
    originals: IndexMap<Name, Name>,
}

impl Model for Aliases {
    ghost use Rattle.names_alias.specs.Aliases.{AliasTable};

    ghost Value = { AliasTable };

    ghost view = { λ a. record { fixed = a.fixed.keys; pairs = a.originals.entries } };
}

impl Aliases {
    ghost use Rattle.std.specs.Prelude.{◌≡◌, ◌≤◌, [], length, OnOk, OnErr};
    ghost use Rattle.names_alias.specs.Aliases.{with_fixed, with_pair, resolved, caller_name_of};

    /// No alias and no fixed name.
    pub fn new(alloc: Global) -> Self
        ensures { result ≡ record { fixed = []; pairs = [] } }
    {
        Aliases {
            fixed: IndexSet::new(alloc),
            originals: IndexMap::new(alloc),
        }
    }

    /// Makes a name one that is never an alias.
    pub fn fix(&mut self, name: &Name) -> Result<(), AllocError>
        ensures ok { OnOk result (self.new ≡ with_fixed self.old name.now) }
        ensures err { OnErr result (self.new ≡ self.old) }
    {
        self.fixed.insert(name.copied())?;
        Ok(())
    }

    /// Lets `alias` stand for `original`. A second pair of an alias has no effect.
    pub fn add(&mut self, alias: &Name, original: &Name) -> Result<(), AllocError>
        ensures ok { OnOk result (self.new ≡ with_pair self.old alias.now original.now) }
        ensures err { OnErr result (self.new ≡ self.old) }
    {
        if !self.originals.contains_key(alias) {
            self.originals.insert(alias.copied(), original.copied())?;
        }
        Ok(())
    }

    /// What a name stands for: itself where it is built in or fixed, else the original of its first
    /// pair, else that of its built-in alias, else itself.
    pub fn resolve(&self, name: &Name) -> Name
        ensures { result ≡ resolved self.now name.now }
    {
        if is_builtin(name) || self.fixed.contains(name) {
            return name.copied();
        }
        match self.originals.get(name) {
            Some(original) => original.copied(),
            None => builtin_original(name),
        }
    }

    /// What the normal form of a text stands for. It refuses as `normal` does, and then INTERNAL.
    pub fn caller_name(&self, text: &[u8]) -> Result<Name, NameFault>
        requires { length text.now ≤ longest_text }
        ensures { result ≡ caller_name_of self.now text.now }
    {
        let name = self.resolve(&normal(text)?);
        if is_internal(&name) {
            return Err(NameFault::Reserved);
        }
        Ok(name)
    }
}

/// The original of a built-in alias, or the name itself.
fn builtin_original(name: &Name) -> Name
    ensures { result ≡ unwrap_or (original_of builtin_aliases name.now) name.now }
{
    let bytes = name.as_bytes();
    if bytes == b"UTF8//".as_slice() {
        Name::from_bytes(b"UTF-8//")
    } else if bytes == b"UTF16//".as_slice() {
        Name::from_bytes(b"UTF-16//")
    } else if bytes == b"UCS4//".as_slice() {
        Name::from_bytes(b"UCS-4//")
    } else if bytes == b"US-ASCII//".as_slice() {
        Name::from_bytes(b"ASCII//")
    } else {
        name.copied()
    }
}

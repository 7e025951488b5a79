//! Chains as callers see them.
ghost use Rattle.std.specs.Prelude.{◌≡◌};

use std::marker::Model;

/// The ordinals of the edges of a chain, from its first edge to its last.
#[derive(Drop)]
pub struct Ordinals {
    list: Vec<u32>,
}

impl Model for Ordinals {
    ghost use Rattle.std.specs.Prelude.{List, ℕ};

    ghost Value = { List ℕ };

    ghost view = { λ o. o.list.items };
}

impl Ordinals {
    /// Those of a list.
    pub fn new(list: Vec<u32>) -> Ordinals
        ensures { result ≡ list.items }
    {
        Ordinals { list }
    }

    /// The list of them.
    pub fn as_slice(&self) -> &[u32]
        ensures { result.now ≡ self.now }
    {
        &self.list
    }
}

/// A chain by the ordinals of its edges, with the sum of their costs.
#[derive(Drop)]
pub struct Chain {
    pub ordinals: Ordinals,
    pub cost: u64,
}

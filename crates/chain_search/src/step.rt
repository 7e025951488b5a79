//! The first step of a chain to the target.
ghost use Rattle.std.specs.Prelude.{◌≡◌, ◌⊎◌, ◌↔◌, IsTrue, Some, false};
ghost use Rattle.chain_search.specs.Steps.{NoGreater};

/// The cost and the length of a chain, the ordinal of its first edge, and the node to which that
/// edge leads.
#[derive(Clone, Copy, Debug)]
pub struct Step {
    pub cost: u64,
    pub length: u32,
    pub ordinal: u32,
    pub next: u32,
}

impl Step {
    /// Whether the step comes no later than another: by cost, then by length, then by ordinal.
    pub fn is_no_greater(self, other: Step) -> bool
        ensures yes { IsTrue result → NoGreater self other }
        ensures no { result ≡ false → NoGreater other self }
    {
        self.cost < other.cost
            || self.cost == other.cost
                && (self.length < other.length
                    || self.length == other.length && self.ordinal <= other.ordinal)
    }
}

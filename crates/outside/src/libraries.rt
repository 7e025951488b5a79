//! A library of texts, which are fetched by their paths.

pub use crate::file_sets::Taken as Fetched;
use std::alloc::Global;

/// A library of texts by path.
///
/// A count says how often a fetch has failed. A library in memory tells its texts, and which paths
/// it was asked for; a real one doesn't.
pub trait Library {
    ghost use Rattle.std.specs.Prelude.{◌≡◌, ◌≤◌, IfSome};
    ghost use Rattle.outside.specs.Faults.{Rose};
    ghost use Rattle.outside.specs.Moments.{Holdings};
    ghost use Rattle.outside.specs.Shelves.{content_of};
    ghost use Rattle.outside.specs.Takes.{Takes, FitsLimit};
    ghost use Rattle.outside.specs.Fetches.{paths_after};

    /// The texts and the paths that were asked for, where told, and how often `fetch` has failed.
    ghost holdings: { Self → Holdings };

    /// Fetches all bytes of a text, of which at most `limit` are wanted.
    fn fetch(&mut self, alloc: Global, path: &str, limit: u32) -> Fetched
        ensures fetched { IfSome (holdings self.old).told
            (λ texts. Takes (content_of texts path.now) limit result) }
        ensures fits { FitsLimit limit result }
        ensures told { (holdings self.new).told ≡ (holdings self.old).told }
        ensures paths { (holdings self.new).paths ≡
            paths_after result path.now (holdings self.old).paths }

        ensures count { (holdings self.old).faults ≤ (holdings self.new).faults }
        ensures failed { result ≡ Fetched.Failed →
            Rose (holdings self.old).faults (holdings self.new).faults };
}

//! A set of characters that a chain reads and writes.

use ascii_lanes::Lanes;
use code_table::Lookup;
use step_unicode::{State, Unit, Wrote};
use wide_lanes::{Ends, ReadEnds, Wide};

/// So many bytes are left of the input and of the room where a block is tried: no block takes more, read or
/// written, and a kernel may look at a few that it leaves.
pub const BLOCK: usize = 80;

/// The units of sixteen points below 80 hex at the front of an input: the points, and how many bytes
/// the units take.
#[derive(Clone, Copy)]
pub struct Block {
    pub lanes: Lanes,
    pub used: usize,
}

/// The units of eight points below 10000 hex, none a surrogate, at the front of an input, and how many
/// bytes the units take.
#[derive(Clone, Copy)]
pub struct WideBlock {
    pub wide: Wide,
    pub used: usize,
}

/// A set of characters: one type for each, so that a loop is made for each pair of them.
pub trait Charset {
    ghost use Rattle.std.specs.Prelude.{◌≡◌, ◌+◌, ◌<◌, ◌≤◌, length, IfSome, MatchOption};
    ghost use Rattle.ascii_lanes.specs.Plain.{ArePlain};
    ghost use Rattle.wide_lanes.specs.Wide.{AreWide};
    ghost use Rattle.wide_lanes.specs.Ends.{picked};
    ghost use Rattle.code_table.specs.HandsBack.{HandsBack};
    ghost use Rattle.step_unicode.specs.Answers.{IsAnswer, IsWrote};
    ghost use Rattle.chain_steps.specs.declared.recipe.Set.{Set};
    ghost use Rattle.chain_steps.specs.Blocks.{IsBlock, IsBlockPut};
    ghost use Rattle.chain_steps.specs.declared.charset.TheConstants.{BLOCK};
    ghost use Rattle.chain_steps.specs.Sets.{IsUnitOf, IsSpellableIn, spelling_in, IsStateIn, IsInRange};

    /// The set that it is.
    ghost set: { Self → Set };

    /// The unit that the input begins with.
    fn read<T: Lookup>(&self, tables: &mut T, state: State, input: &[u8]) -> Unit
        requires ready { T.ready tables.old }
        requires range { IsInRange (T.tables tables.old) (set self.now) }
        requires state { IsStateIn (set self.now) state }
        requires some { 0 < length input.now }
        ensures unit { IsAnswer (IsUnitOf (T.tables tables.old) (set self.now)) state
            input.now result }
        ensures back { HandsBack T.tables T.ready T.kept tables.old tables.new };

    /// Writes a point behind the first `at` bytes of `output`.
    fn write<T: Lookup>(
        &self,
        tables: &mut T,
        state: State,
        point: u32,
        output: &mut [u8],
        at: usize,
    ) -> Wrote
        requires ready { T.ready tables.old }
        requires range { IsInRange (T.tables tables.old) (set self.now) }
        requires state { IsStateIn (set self.now) state }
        requires at { at ≤ length output.old }
        ensures wrote { let ts = T.tables tables.old in
            IsWrote (IsSpellableIn ts (set self.now)) (spelling_in ts (set self.now))
            state point at output.old output.new result }
        ensures back { HandsBack T.tables T.ready T.kept tables.old tables.new };

    /// The units of sixteen points below 80 hex at the front of the input, where the set can tell them
    /// at once.
    #[inline(always)]
    fn block<T: Lookup>(&self, tables: &T, state: State, input: &[u8]) -> Option<Block>
        requires ready { T.ready tables.now }
        requires range { IsInRange (T.tables tables.now) (set self.now) }
        requires state { IsStateIn (set self.now) state }
        requires some { BLOCK ≤ length input.now }
        ensures { IfSome result (λ b.
            IsBlock ArePlain (IsUnitOf (T.tables tables.now) (set self.now)) state
            input.now b.lanes.points b.used) }
    {
        None
    }

    /// Writes sixteen points below 80 hex behind the first `at` bytes of `output`, where the set can
    /// write them at once.
    #[inline(always)]
    fn put_block<T: Lookup>(
        &self,
        tables: &T,
        state: State,
        lanes: Lanes,
        output: &mut [u8],
        at: usize,
    ) -> Option<usize>
        requires ready { T.ready tables.now }
        requires range { IsInRange (T.tables tables.now) (set self.now) }
        requires state { IsStateIn (set self.now) state }
        requires plain { ArePlain lanes.points }
        requires room { at + BLOCK ≤ length output.old }
        ensures { let ts = T.tables tables.now in MatchOption result (output.new ≡ output.old)
            (λ n. IsBlockPut (IsSpellableIn ts (set self.now)) (spelling_in ts (set self.now))
            state lanes.points at output.old output.new n) }
    {
        None
    }

    /// The units of eight points below 10000 hex, none a surrogate, at the front of the input, where the
    /// set can tell them at once.
    #[inline(always)]
    fn wide<T: Lookup>(&self, tables: &mut T, state: State, input: &[u8]) -> Option<WideBlock>
        requires ready { T.ready tables.old }
        requires range { IsInRange (T.tables tables.old) (set self.now) }
        requires state { IsStateIn (set self.now) state }
        requires some { BLOCK ≤ length input.now }
        ensures block { IfSome result (λ b.
            IsBlock AreWide (IsUnitOf (T.tables tables.old) (set self.now)) state
            input.now b.wide.points b.used) }
        ensures back { HandsBack T.tables T.ready T.kept tables.old tables.new }
    {
        None
    }

    /// Writes eight such points behind the first `at` bytes of `output`, where the set can write them at
    /// once.
    #[inline(always)]
    fn put_wide<T: Lookup>(
        &self,
        tables: &mut T,
        state: State,
        wide: Wide,
        output: &mut [u8],
        at: usize,
    ) -> Option<usize>
        requires ready { T.ready tables.old }
        requires range { IsInRange (T.tables tables.old) (set self.now) }
        requires state { IsStateIn (set self.now) state }
        requires wide { AreWide wide.points }
        requires room { at + BLOCK ≤ length output.old }
        ensures put { let ts = T.tables tables.old in MatchOption result (output.new ≡ output.old)
            (λ n. IsBlockPut (IsSpellableIn ts (set self.now)) (spelling_in ts (set self.now))
            state wide.points at output.old output.new n) }
        ensures back { HandsBack T.tables T.ready T.kept tables.old tables.new }
    {
        None
    }

    /// The points below 10000 hex, none a surrogate, whose units end in the first sixteen bytes of the
    /// input, where the set can tell them at once.
    #[inline(always)]
    fn ends<T: Lookup>(&self, tables: &T, state: State, input: &[u8]) -> Option<ReadEnds>
        requires ready { T.ready tables.now }
        requires range { IsInRange (T.tables tables.now) (set self.now) }
        requires state { IsStateIn (set self.now) state }
        requires some { BLOCK ≤ length input.now }
        ensures { IfSome result (λ r.
            IsBlock AreWide (IsUnitOf (T.tables tables.now) (set self.now)) state
            input.now (picked r.ends.mask r.ends.numbers) r.used) }
    {
        None
    }

    /// Writes such points behind the first `at` bytes of `output`, where the set can write them at once.
    #[inline(always)]
    fn put_ends<T: Lookup>(
        &self,
        tables: &T,
        state: State,
        ends: Ends,
        output: &mut [u8],
        at: usize,
    ) -> Option<usize>
        requires ready { T.ready tables.now }
        requires range { IsInRange (T.tables tables.now) (set self.now) }
        requires state { IsStateIn (set self.now) state }
        requires wide { AreWide (picked ends.mask ends.numbers) }
        requires room { at + BLOCK ≤ length output.old }
        ensures { let ts = T.tables tables.now in MatchOption result (output.new ≡ output.old)
            (λ n. IsBlockPut (IsSpellableIn ts (set self.now)) (spelling_in ts (set self.now))
            state (picked ends.mask ends.numbers) at output.old output.new n) }
    {
        None
    }
}

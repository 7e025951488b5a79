//! ASCII as a set of a chain.

ghost use Rattle.step_unicode.specs.declared.set.Uni.TheVariants.{Ascii};
ghost use Rattle.chain_steps.specs.declared.recipe.Set.TheVariants.{Unicode};

use crate::charset::{Block, Charset};
use ascii_lanes::{Lanes, load_plain, put_plain};
use code_table::Lookup;
use step_unicode::{State, Unit, Wrote};

/// ASCII.
#[derive(Clone, Copy)]
pub struct Ascii;

impl Charset for Ascii {
    ghost set = { λ _. Unicode Ascii };

    #[inline(always)]
    fn read<T: Lookup>(&self, _tables: &mut T, state: State, input: &[u8]) -> Unit {
        step_unicode::ascii::read(state, input)
    }

    #[inline(always)]
    fn write<T: Lookup>(
        &self,
        _tables: &mut T,
        state: State,
        point: u32,
        output: &mut [u8],
        at: usize,
    ) -> Wrote {
        step_unicode::ascii::write(state, point, output, at)
    }

    #[inline(always)]
    fn block<T: Lookup>(&self, _tables: &T, _state: State, input: &[u8]) -> Option<Block> {
        let lanes = load_plain(input)?;
        Some(Block { lanes, used: 16 })
    }

    #[inline(always)]
    fn put_block<T: Lookup>(
        &self,
        _tables: &T,
        _state: State,
        lanes: Lanes,
        output: &mut [u8],
        at: usize,
    ) -> Option<usize> {
        put_plain(lanes, output, at);
        Some(16)
    }
}

//! UTF-8 as a set of a chain.

ghost use Rattle.step_unicode.specs.declared.set.Uni.TheVariants.{Utf8};
ghost use Rattle.chain_steps.specs.declared.recipe.Set.TheVariants.{Unicode};

use crate::charset::{Block, Charset, WideBlock};
use ascii_lanes::{Lanes, load_plain, put_plain};
use code_table::Lookup;
use step_unicode::{State, Unit, Wrote};
use wide_lanes::{ReadEnds, Wide, load_ends, load_utf8, put_utf8};

/// UTF-8.
#[derive(Clone, Copy)]
pub struct Utf8;

impl Charset for Utf8 {
    ghost set = { λ _. Unicode Utf8 };

    #[inline(always)]
    fn read<T: Lookup>(&self, _tables: &mut T, state: State, input: &[u8]) -> Unit {
        step_unicode::utf8::read(state, input)
    }

    #[inline(always)]
    fn write<T: Lookup>(
        &self,
        _tables: &mut T,
        state: State,
        point: u32,
        output: &mut [u8],
        at: usize,
    ) -> Wrote {
        step_unicode::utf8::write(state, point, output, at)
    }

    #[inline(always)]
    fn block<T: Lookup>(&self, _tables: &T, _state: State, input: &[u8]) -> Option<Block> {
        let lanes = load_plain(input)?;
        Some(Block { lanes, used: 16 })
    }

    #[inline(always)]
    fn put_block<T: Lookup>(
        &self,
        _tables: &T,
        _state: State,
        lanes: Lanes,
        output: &mut [u8],
        at: usize,
    ) -> Option<usize> {
        put_plain(lanes, output, at);
        Some(16)
    }

    #[inline(always)]
    fn wide<T: Lookup>(&self, _tables: &mut T, _state: State, input: &[u8]) -> Option<WideBlock> {
        let read = load_utf8(input)?;
        Some(WideBlock {
            wide: read.wide,
            used: read.used,
        })
    }

    #[inline(always)]
    fn put_wide<T: Lookup>(
        &self,
        _tables: &mut T,
        _state: State,
        wide: Wide,
        output: &mut [u8],
        at: usize,
    ) -> Option<usize> {
        Some(put_utf8(wide, output, at))
    }

    #[inline(always)]
    fn ends<T: Lookup>(&self, _tables: &T, _state: State, input: &[u8]) -> Option<ReadEnds> {
        let read = load_ends(input)?;
        Some(read)
    }
}

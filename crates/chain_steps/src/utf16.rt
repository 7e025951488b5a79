//! UTF-16 in its three forms as sets of a chain.

ghost use Rattle.step_unicode.specs.declared.set.Uni.TheVariants.{Utf16, Utf16Le, Utf16Be};
ghost use Rattle.chain_steps.specs.declared.recipe.Set.TheVariants.{Unicode};

use crate::charset::{Block, Charset, WideBlock};
use ascii_lanes::{Lanes, load_high_first, load_low_first, put_high_first, put_low_first};
use code_table::Lookup;
use step_unicode::{State, Unit, Wrote};
use wide_lanes::{Ends, Wide, put_ends_high_first, put_ends_low_first};

/// UTF-16 with a mark.
#[derive(Clone, Copy)]
pub struct Utf16;

impl Charset for Utf16 {
    ghost set = { λ _. Unicode Utf16 };

    #[inline(always)]
    fn read<T: Lookup>(&self, _tables: &mut T, state: State, input: &[u8]) -> Unit {
        step_unicode::utf16::read(state, input)
    }

    #[inline(always)]
    fn write<T: Lookup>(
        &self,
        _tables: &mut T,
        state: State,
        point: u32,
        output: &mut [u8],
        at: usize,
    ) -> Wrote {
        step_unicode::utf16::write(state, point, output, at)
    }

    #[inline(always)]
    fn block<T: Lookup>(&self, _tables: &T, state: State, input: &[u8]) -> Option<Block> {
        match state {
            State::Little => {
                let lanes = load_low_first(input)?;
                Some(Block { lanes, used: 32 })
            }
            State::Big => {
                let lanes = load_high_first(input)?;
                Some(Block { lanes, used: 32 })
            }
            State::Plain | State::Roman | State::Kanji => None,
        }
    }

    #[inline(always)]
    fn put_block<T: Lookup>(
        &self,
        _tables: &T,
        state: State,
        lanes: Lanes,
        output: &mut [u8],
        at: usize,
    ) -> Option<usize> {
        match state {
            State::Little => {
                put_low_first(lanes, output, at);
                Some(32)
            }
            State::Big => {
                put_high_first(lanes, output, at);
                Some(32)
            }
            State::Plain | State::Roman | State::Kanji => None,
        }
    }

    #[inline(always)]
    fn wide<T: Lookup>(&self, _tables: &mut T, state: State, input: &[u8]) -> Option<WideBlock> {
        match state {
            State::Little => {
                let wide = wide_lanes::load_low_first(input)?;
                Some(WideBlock { wide, used: 16 })
            }
            State::Big => {
                let wide = wide_lanes::load_high_first(input)?;
                Some(WideBlock { wide, used: 16 })
            }
            State::Plain | State::Roman | State::Kanji => None,
        }
    }

    #[inline(always)]
    fn put_wide<T: Lookup>(
        &self,
        _tables: &mut T,
        state: State,
        wide: Wide,
        output: &mut [u8],
        at: usize,
    ) -> Option<usize> {
        match state {
            State::Little => {
                wide_lanes::put_low_first(wide, output, at);
                Some(16)
            }
            State::Big => {
                wide_lanes::put_high_first(wide, output, at);
                Some(16)
            }
            State::Plain | State::Roman | State::Kanji => None,
        }
    }

    #[inline(always)]
    fn put_ends<T: Lookup>(
        &self,
        _tables: &T,
        state: State,
        ends: Ends,
        output: &mut [u8],
        at: usize,
    ) -> Option<usize> {
        match state {
            State::Little => Some(put_ends_low_first(ends, output, at)),
            State::Big => Some(put_ends_high_first(ends, output, at)),
            State::Plain | State::Roman | State::Kanji => None,
        }
    }
}

/// UTF-16, low bytes first.
#[derive(Clone, Copy)]
pub struct Utf16Le;

impl Charset for Utf16Le {
    ghost set = { λ _. Unicode Utf16Le };

    #[inline(always)]
    fn read<T: Lookup>(&self, _tables: &mut T, state: State, input: &[u8]) -> Unit {
        step_unicode::utf16::read_little(state, input)
    }

    #[inline(always)]
    fn write<T: Lookup>(
        &self,
        _tables: &mut T,
        state: State,
        point: u32,
        output: &mut [u8],
        at: usize,
    ) -> Wrote {
        step_unicode::utf16::write_little(state, point, output, at)
    }

    #[inline(always)]
    fn block<T: Lookup>(&self, _tables: &T, _state: State, input: &[u8]) -> Option<Block> {
        let lanes = load_low_first(input)?;
        Some(Block { lanes, used: 32 })
    }

    #[inline(always)]
    fn put_block<T: Lookup>(
        &self,
        _tables: &T,
        _state: State,
        lanes: Lanes,
        output: &mut [u8],
        at: usize,
    ) -> Option<usize> {
        put_low_first(lanes, output, at);
        Some(32)
    }

    #[inline(always)]
    fn wide<T: Lookup>(&self, _tables: &mut T, _state: State, input: &[u8]) -> Option<WideBlock> {
        let wide = wide_lanes::load_low_first(input)?;
        Some(WideBlock { wide, used: 16 })
    }

    #[inline(always)]
    fn put_wide<T: Lookup>(
        &self,
        _tables: &mut T,
        _state: State,
        wide: Wide,
        output: &mut [u8],
        at: usize,
    ) -> Option<usize> {
        wide_lanes::put_low_first(wide, output, at);
        Some(16)
    }

    #[inline(always)]
    fn put_ends<T: Lookup>(
        &self,
        _tables: &T,
        _state: State,
        ends: Ends,
        output: &mut [u8],
        at: usize,
    ) -> Option<usize> {
        Some(put_ends_low_first(ends, output, at))
    }
}

/// UTF-16, high bytes first.
#[derive(Clone, Copy)]
pub struct Utf16Be;

impl Charset for Utf16Be {
    ghost set = { λ _. Unicode Utf16Be };

    #[inline(always)]
    fn read<T: Lookup>(&self, _tables: &mut T, state: State, input: &[u8]) -> Unit {
        step_unicode::utf16::read_big(state, input)
    }

    #[inline(always)]
    fn write<T: Lookup>(
        &self,
        _tables: &mut T,
        state: State,
        point: u32,
        output: &mut [u8],
        at: usize,
    ) -> Wrote {
        step_unicode::utf16::write_big(state, point, output, at)
    }

    #[inline(always)]
    fn block<T: Lookup>(&self, _tables: &T, _state: State, input: &[u8]) -> Option<Block> {
        let lanes = load_high_first(input)?;
        Some(Block { lanes, used: 32 })
    }

    #[inline(always)]
    fn put_block<T: Lookup>(
        &self,
        _tables: &T,
        _state: State,
        lanes: Lanes,
        output: &mut [u8],
        at: usize,
    ) -> Option<usize> {
        put_high_first(lanes, output, at);
        Some(32)
    }

    #[inline(always)]
    fn wide<T: Lookup>(&self, _tables: &mut T, _state: State, input: &[u8]) -> Option<WideBlock> {
        let wide = wide_lanes::load_high_first(input)?;
        Some(WideBlock { wide, used: 16 })
    }

    #[inline(always)]
    fn put_wide<T: Lookup>(
        &self,
        _tables: &mut T,
        _state: State,
        wide: Wide,
        output: &mut [u8],
        at: usize,
    ) -> Option<usize> {
        wide_lanes::put_high_first(wide, output, at);
        Some(16)
    }

    #[inline(always)]
    fn put_ends<T: Lookup>(
        &self,
        _tables: &T,
        _state: State,
        ends: Ends,
        output: &mut [u8],
        at: usize,
    ) -> Option<usize> {
        Some(put_ends_high_first(ends, output, at))
    }
}

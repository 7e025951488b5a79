//! The numbers of `specs/Limits.antt`, for the code.

/// The name of a set has at most this many bytes.
pub const LONGEST_NAME: usize = 16_777_216;

/// So many pages the store has at most, and so many where none are named.
pub const MOST_PAGES: u32 = 65_536;

pub const USUAL_PAGES: u32 = 16_384;

/// So many workers there are at most, and so many where none are named.
pub const MOST_WORKERS: u32 = 64;

pub const USUAL_WORKERS: u32 = 4;

/// The numbers for which an input is made go from 1 to this.
pub const MOST_NUMBER: u32 = 1_000;

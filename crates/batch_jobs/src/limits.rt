//! The numbers of `specs/Limits.antt`, for the code, and those that are the code's own.

/// The most jobs.
pub const MOST_JOBS: usize = 4_096;

/// The greatest number of an input that the program makes itself.
pub const MOST_NUMBER: u32 = 1_000;

/// The charmaps of such an input.
pub(crate) const MADE_CHARMAPS: u32 = 8;

/// The lines of each of its charmaps that map a point to two bytes.
pub(crate) const MADE_LINES: u32 = 1_024;

/// Its jobs.
pub(crate) const MADE_JOBS: u32 = 64;

/// The points of the input of each of its jobs.
pub(crate) const MADE_POINTS: u32 = 65_536;

/// So many bytes have room for them.
pub(crate) const MADE_BYTES: usize = 131_072;

/// How many points the charmaps spell for the upper halves of seeds: 32,768 each.
pub(crate) const MADE_PLACES: u32 = 262_144;

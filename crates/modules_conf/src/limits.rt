//! The limits of a configuration.

/// The most module lines, alias lines or bindings lines.
pub const MOST_LINES: usize = 16_384;

/// The largest cost of a module line.
pub const MOST_COST: u32 = 2_147_483_647;

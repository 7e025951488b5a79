//! The numbers of `specs/Limits.antt`, for the code, and those that are the code's own.

/// A piece has at most this many bytes.
pub const LONGEST_PIECE: usize = 65_536;

/// All pieces of a stream together have at most this many bytes.
pub const LONGEST_STREAM: u64 = 281_474_976_710_656;

/// So many bytes of output are taken for each byte of input, and once more for the return sequence.
pub const ROOM: usize = 8;

/// So many bytes of a piece are joined to those that wait: then a unit begins in the piece.
pub const BRIDGE: usize = 8;

/// There is room for so many bytes that wait, with those that are joined to them.
pub const TAIL_ROOM: usize = 16;

/// A session converts through a scratch of so many bytes, which stays in the cache.
pub const SCRATCH: usize = 131_072;

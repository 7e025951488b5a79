//! The sets, their states, and what reading one unit gives.

/// A set of characters that needs no table.
#[derive(Clone, Copy, Debug, PartialEq, Eq)]
pub enum Uni {
    /// Bytes below 80 hex.
    Ascii,
    /// Unicode Table 3-7.
    Utf8,
    /// RFC 2781 with a mark of the byte order; little-endian where there is none.
    Utf16,
    /// RFC 2781, low byte first, without marks.
    Utf16Le,
    /// RFC 2781, high byte first, without marks.
    Utf16Be,
    /// Four bytes a point, highest byte first.
    Ucs4,
}

/// Where a set stands between two units. `Plain` is the initial state of every set.
#[derive(Clone, Copy, Debug, PartialEq, Eq)]
pub enum State {
    /// No mark was met, no escape holds.
    Plain,
    /// UTF-16, low byte first.
    Little,
    /// UTF-16, high byte first.
    Big,
    /// ISO-2022-JP after the escape to its Roman set.
    Roman,
    /// ISO-2022-JP after an escape to its Kanji set.
    Kanji,
}

/// The unit that an input begins with.
#[derive(Clone, Copy, Debug, PartialEq, Eq)]
pub enum Unit {
    /// A unit of `used` bytes; a mark or an escape gives no point.
    Got {
        point: Option<u32>,
        used: u32,
        state: State,
    },
    /// The whole input is a proper prefix of a unit.
    Incomplete,
    /// The input begins with no unit and is no proper prefix of one.
    Illegal,
}

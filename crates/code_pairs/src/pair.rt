//! A point beside its code.

use crate::code::Code;

/// A Unicode scalar value and the code that stands for it in some table.
#[derive(Clone, Copy, Debug, PartialEq, Eq)]
pub struct Pair {
    pub point: u32,
    pub code: Code,
}

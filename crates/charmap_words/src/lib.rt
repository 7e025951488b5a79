//! The words of a charmap's mapping lines: symbols such as `<U0041>`, ranges of two of them, and
//! codes such as `/x81/xfe`.
#![tactic(auto)]

mod codes;
mod digits;
mod spelled;
mod symbols;

pub use codes::{CodeFault, read_code};
pub use symbols::{Span, read_span};

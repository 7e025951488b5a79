//! The configuration of conversions: gconv-modules, as the GNU C Library has it, and the bindings
//! text, which says by which charmaps a module reads and writes.
#![tactic(auto)]

mod binding_reader;
mod binding_words;
mod bindings;
mod charmaps;
mod conf;
mod cost;
mod fault;
mod kind;
mod limits;
mod lines;
mod modules;
mod resolution;
mod words;

pub use binding_reader::read_bindings;
pub use bindings::{Binding, Bindings};
pub use conf::Conf;
pub use fault::{BindFault, ConfFault};
pub use kind::Kind;
pub use limits::{MOST_COST, MOST_LINES};
pub use lines::{AliasLine, AliasLines, EdgeLine, EdgeLines};
pub use modules::read_modules;
pub use resolution::aliases_of;

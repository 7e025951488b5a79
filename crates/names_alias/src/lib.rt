//! Names of character sets: their normal form, the names that are built in, and aliases.
//!
//! A name is two parts, each ended by a slash, in upper case: `ISO-8859-1//`, `ISO-10646/UCS4/`.
#![tactic(auto)]

mod aliases;
mod builtin;
mod fault;
mod form;
mod front;
mod laws;
mod name;
mod word;

pub use aliases::Aliases;
pub use builtin::{builtin_set, internal, is_builtin, is_internal};
pub use fault::NameFault;
pub use form::normal;
pub use laws::caller_names_are_good;
pub use name::Name;
pub use word::Word;

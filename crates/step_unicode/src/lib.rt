//! One unit read or one point written, in the sets that need no table: ASCII, UTF-8, UTF-16 with
//! and without marks, and UCS-4.
#![tactic(auto)]

pub mod ascii;
mod laws;
mod runs;
mod set;
mod small;
pub mod ucs4;
mod units;
pub mod utf16;
pub mod utf8;
mod wrote;

pub use laws::{spellings_join, spellings_read_back, states_stay, units_are_apart};
pub use runs::plain_run;
pub use set::{State, Uni, Unit};
pub use small::Small;
pub use units::{read_unit, write_at, write_unit};
pub use wrote::Wrote;

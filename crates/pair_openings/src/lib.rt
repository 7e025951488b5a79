//! What an opening of a pair is answered: the names that it asks for, the least chain between them,
//! the tables of modules that aren't resident, and the pages that these get.
#![tactic(auto)]

mod answer;
mod begun;
mod enter;
mod loads;
mod names;
mod parts;
mod planning;
mod search;

pub use answer::decide;
pub use begun::{Begun, begin, begin_asked};
pub use enter::{enter_opening, enter_refusal};
pub use loads::loads_of;
pub use names::asked;
pub use parts::{cut, pages_needed};
pub use planning::{Opening, plan};
pub use search::find_chain;

//! A run in one thread: the texts are read, the inputs taken, the jobs done one after another, and the
//! journal and the report written.
#![tactic(auto)]

mod finish;
mod halt;
mod inputs;
mod lines;
mod one_by_one;
mod puts;
mod run;
mod runtime;
mod settling;
mod single;
mod texts;
mod totals;
mod work;

pub use finish::{Ended, NO_MEMORY, cause_of, put_journal, status_of, write};
pub use halt::Halt;
pub use inputs::{Input, Inputs, take_inputs};
pub use puts::{Ending, put_one};
pub use run::{Aim, MOST_ENTRIES, run_prepared, run_texts, tell_short, tell_stop};
pub use runtime::{Closed, Runtime};
pub use settling::{all_good, report_text};
pub use single::run_single;
pub use texts::{Ready, prepare};
pub use totals::{Totals, both, no_totals};
pub use work::Worked;

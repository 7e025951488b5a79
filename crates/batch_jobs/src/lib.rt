//! The texts around a batch of conversions: the list of its jobs is read, its report and its journal
//! are written, and a large input is made for a number.
#![tactic(auto)]

mod generated;
mod job_reader;
mod jobs;
mod journals;
mod limits;
mod made_charmaps;
mod made_files;
mod made_lists;
mod made_words;
mod numbers;
mod outcomes;
mod refusal_texts;
mod reports;

pub use generated::{Generated, generate};
pub use job_reader::read_jobs;
pub use jobs::{Job, JobFault};
pub use journals::journal_text;
pub use limits::{MOST_JOBS, MOST_NUMBER};
pub use outcomes::{Outcome, is_good};
pub use reports::{report, report_line, sum_report};

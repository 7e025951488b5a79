//! Lines and words of a text of bytes, for the readers of configurations, charmaps and jobs.
//!
//! A line ends at each byte 0A; what stands behind the last one is a line where it isn't empty.
//! A word is a longest run of bytes that aren't blank: 09, 0B, 0C, 0D and 20 are. So a line that
//! ends with CR LF has the words of one that ends with LF. Nothing is allocated for a line or a word.
#![tactic(auto)]

mod limits;
mod line;
mod word;

pub use limits::LONGEST_TEXT;
pub use line::next_line;
pub use word::{first_words, next_word};

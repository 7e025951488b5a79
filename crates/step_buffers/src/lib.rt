//! Streams that are converted piece by piece, however they are cut.
//!
//! A session keeps what was written and what of the stream isn't converted yet.
//! `specs/Stands.antt` says when a session and its converter stand for a stream; each call speaks
//! of every stream that they stand for.
#![tactic(auto)]

mod answers;
mod feeding;
mod laws;
mod limits;
mod parts;
mod session;
mod through;

pub use answers::{Fed, Finish, Whole};
pub use laws::{stop_stays, stream_is_one};
pub use limits::{LONGEST_PIECE, LONGEST_STREAM};
pub use parts::Buffers;
pub use session::Session;

//! What a session answers.

/// What came of a piece.
#[derive(Clone, Copy, Debug, PartialEq, Eq)]
pub enum Fed {
    /// The stream so far may go on.
    Going,
    /// The stream is illegal at `offset`, in bytes from its beginning, whatever follows.
    Stopped { offset: u64 },
}

/// How a whole stream ends.
#[derive(Clone, Copy, Debug, PartialEq, Eq)]
pub enum Finish {
    /// All of it was converted.
    Done,
    /// What stands at `offset` begins with no unit that carries.
    Illegal { offset: u64 },
    /// What stands at `offset` is a proper prefix of a unit.
    Incomplete { offset: u64 },
}

/// All bytes of a stream's conversion, and how the stream ends.
#[derive(Drop)]
pub struct Whole {
    pub bytes: Vec<u8>,
    pub finish: Finish,
}

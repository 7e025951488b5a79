//! What a worker hands back.

use batch_alone::Worked;

/// What a worker hands back of a job: the job's place, from 0, what its work gave, and the bytes.
#[derive(Drop)]
pub struct Piece {
    pub place: u32,
    pub worked: Worked,
    pub output: Vec<u8>,
}

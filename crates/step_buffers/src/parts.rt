//! The memory of a session.

ghost use Rattle.std.specs.Prelude.{◌≡◌, ◌+◌, ◌≤◌, ◌++◌, length, drop};
ghost use Rattle.std.specs.Prelude.{vec_len, vec_capacity};

/// The output and the scratch of a session, which can be handed from one stream to the next.
#[derive(Drop)]
pub struct Buffers {
    pub output: Vec<u8>,
    pub scratch: Vec<u8>,
}

/// What a piece changes: what was written, what waits for the next piece, and a scratch.
#[derive(Drop)]
pub struct Parts {
    pub output: Vec<u8>,
    pub tail: Vec<u8>,
    pub scratch: Vec<u8>,
}

/// Appends bytes for which there is room.
pub fn append_within(to: &mut Vec<u8>, bytes: &[u8])
    requires { vec_len to.old + length bytes.now ≤ vec_capacity to.old }
    ensures items { to.new.items ≡ to.old.items ++ bytes.now }
    ensures len { vec_len to.new ≡ vec_len to.old + length bytes.now }
    ensures capacity { vec_capacity to.old ≤ vec_capacity to.new }
{
    if to.extend_from_slice(bytes).is_err() {
        unreachable!();
    }
}

/// Drops the first bytes.
pub fn drop_front(bytes: &mut Vec<u8>, count: usize)
    requires { count ≤ vec_len bytes.old }
    ensures items { bytes.new.items ≡ drop count bytes.old.items }
    ensures len { vec_len bytes.new + count ≡ vec_len bytes.old }
    ensures capacity { vec_capacity bytes.old ≤ vec_capacity bytes.new }
{
    let len = bytes.len();
    bytes.as_mut_slice().copy_within(count..len, 0);
    bytes.truncate(len - count);
}

//! Numbers in texts.

ghost use Rattle.std.specs.Prelude.{◌≡◌, ◌++◌, OnOk};
ghost use Rattle.std.specs.Fmt.{decimal};

use std::alloc::{AllocError, Global};

/// Appends a number in decimal digits.
pub(crate) fn add_number(alloc: Global, text: &mut Vec<u8>, number: u64) -> Result<(), AllocError>
    ensures { OnOk result (text.new.items ≡ text.old.items ++ decimal number) }
{
    let digits = format!(in alloc; "{number}")?;
    text.extend_from_slice(digits.as_bytes())
}

/// Appends some bytes and a number.
pub(crate) fn add_at(
    alloc: Global,
    text: &mut Vec<u8>,
    front: &[u8],
    number: u64,
) -> Result<(), AllocError>
    ensures { OnOk result (text.new.items ≡ text.old.items ++ (front.now ++ decimal number)) }
{
    text.extend_from_slice(front)?;
    add_number(alloc, text, number)
}

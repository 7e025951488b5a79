//! Texts of module lines that are made.

ghost use Rattle.std.specs.Prelude.{◌<◌, ◌^◌};

use std::alloc::{AllocError, Global};

/// Appends a module line.
fn push_line(
    alloc: Global,
    text: &mut Vec<u8>,
    source: u32,
    target: u32,
    cost: u32,
) -> Result<(), AllocError> {
    let line = format!(in alloc; "module N{source}// N{target}// M {cost}\n")?;
    text.extend_from_slice(line.as_bytes())?;
    Ok(())
}

/// Lines round a ring of nodes, and then round it again by ever longer steps.
pub fn ring(alloc: Global, lines: u32, nodes: u32) -> Result<Vec<u8>, AllocError>
    requires { 0 < nodes }
{
    let mut text = Vec::new(alloc);
    for line in 0..lines {
        let source = line % nodes;
        let step = (line / nodes).wrapping_mul(13).wrapping_add(1);
        let target = source.wrapping_add(step) % nodes;
        push_line(alloc, &mut text, source, target, 1 + line % 7)?;
    }
    Ok(text)
}

/// Lines with two nodes of their own.
pub fn pairs(alloc: Global, lines: u32) -> Result<Vec<u8>, AllocError>
    requires { lines < 2 ^ 30 }
{
    let mut text = Vec::new(alloc);
    for line in 0..lines {
        push_line(alloc, &mut text, 2 * line, 2 * line + 1, 1 + line % 7)?;
    }
    Ok(text)
}

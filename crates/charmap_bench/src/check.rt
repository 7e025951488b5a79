//! Says of each charmap file what it gives.

ghost use Rattle.std.specs.Prelude.{◌≤◌};

use crate::tables::build_table;
use anyhow::Result;
use std::alloc::Global;
use std::fs;
use std::io::{self, ErrorKind};

/// Writes a line for the file of that name. The answer says whether it gives a table.
fn check_one(rt: &HostRuntime, alloc: Global, name: &str) -> io::Result<bool> {
    let text = match fs::read(rt, name) {
        Ok(text) => text,
        Err(e) if e.kind() == ErrorKind::NotFound => {
            println!(rt; "{name} absent")?;
            return Ok(false);
        }
        Err(_) => {
            println!(rt; "{name} fault")?;
            return Ok(false);
        }
    };
    match build_table(alloc, text.as_slice()) {
        Ok(built) => {
            let pages = built.table.pages();
            println!(rt; "{name} ok {} pairs {pages} pages", built.pairs)?;
            Ok(true)
        }
        Err(refusal) => {
            println!(rt; "{name} {refusal}")?;
            Ok(false)
        }
    }
}

/// Writes a line for each file, and how many of them give a table.
pub fn check_all(rt: &HostRuntime, names: &[String]) -> Result<()> {
    let alloc = rt.alloc();
    let mut accepted: usize = 0;
    for name in names {
        if check_one(rt, alloc, name.as_str())? {
            accepted = accepted.saturating_add(1);
        }
    }
    println!(rt; "accepted {accepted} of {}", names.len())?;
    Ok(())
}

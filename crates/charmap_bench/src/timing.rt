//! How long a charmap takes to read, and its table to build.

use anyhow::{Context, Result, bail};
use charmap_reader::{Charmap, ReadFault, read_charmap};
use code_table::CodeTable;
use std::alloc::Global;
use std::time::{CpuClock, Duration};
use std::{fs, io};

/// The microseconds of processor time that were used since.
pub fn micros_since(rt: &HostRuntime, start: Duration) -> io::Result<u128> {
    Ok(rt.process_cpu_time()?.saturating_sub(start).as_micros())
}

/// Reads and builds a charmap so many times, and writes the least time of each.
pub fn time_table(rt: &HostRuntime, name: &str, times: u32) -> Result<()> {
    let alloc = rt.alloc();
    let text = fs::read(rt, name).context(format_args!("{name}"))?;
    let mut reading = u128::MAX;
    let mut building = u128::MAX;
    for _ in 0..times {
        let start = rt.process_cpu_time()?;
        let Ok(map) = read_charmap(alloc, text.as_slice()) else {
            bail!("{name} isn't read");
        };
        reading = reading.min(micros_since(rt, start)?);
        let start = rt.process_cpu_time()?;
        let Ok(_table) = CodeTable::build(alloc, &map) else {
            bail!("{name} has no table");
        };
        building = building.min(micros_since(rt, start)?);
    }
    write_millis(rt, "reading", reading)?;
    write_millis(rt, "building", building)?;
    Ok(())
}

/// Writes microseconds as milliseconds.
fn write_millis(rt: &HostRuntime, what: &str, micros: u128) -> io::Result<()> {
    println!(rt; "{what} {}.{:03} ms", micros / 1000, micros % 1000)
}

//! A generated application and its schedule.

use anyhow::{Result, ensure};
use rows::{Line, made, quoted};
use std::alloc::Global;
use std::str;

/// The schedule of so many clicks, or the application.
pub fn generated(alloc: Global, line: &Line) -> Result<String> {
    let clicks = u32::try_from(line.number(0)?)?;
    ensure!(1 <= clicks && clicks <= 6000, "too few or too many");
    let generated = made(mt_gen::generate(alloc, clicks))?;
    match line.call() {
        "schedule" => quoted(alloc, str::from_utf8(generated.schedule.items())?),
        _ => quoted(alloc, str::from_utf8(generated.application.items())?),
    }
}

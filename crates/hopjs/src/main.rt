//! The program `hopjs`: carries out a command over the system's files, standard output and a wire in memory,
//! and ends with the number of its status. All that it does is `mt_top::run`.
#![tactic(auto)]

mod files;
mod output;

use crate::files::SystemFiles;
use crate::output::StandardOutput;
use mt_outside::{ClosedDoor, MemoryWire};
use mt_top::{Status, run};
use mt_tree::NoMemory;
use std::env;
use std::io::ErrorKind;
use std::process::ExitCode;

/// The most bytes that the wire gives at once.
const PIECE: usize = 4096;

/// The words after the program's name. Words that are not UTF-8 are no command, and count as none.
fn words(rt: &HostRuntime) -> Result<Vec<String>, NoMemory> {
    let mut words = Vec::new(rt.alloc());
    let arguments = match env::args(rt) {
        Ok(arguments) => arguments,
        Err(error) if error.kind() == ErrorKind::OutOfMemory => return Err(NoMemory),
        Err(_not_text) => return Ok(words),
    };
    for word in arguments.skip(1) {
        match words.push(word) {
            Ok(()) => {}
            Err(_refused) => return Err(NoMemory),
        }
    }
    Ok(words)
}

fn main(rt: HostRuntime) -> ExitCode {
    let status = match words(&rt) {
        Ok(words) => carry_out(rt, &words),
        Err(NoMemory) => Status::NoMemory,
    };
    ExitCode::from(status.code())
}

fn carry_out(rt: HostRuntime, words: &[String]) -> Status {
    let alloc = rt.alloc();
    let mut files = SystemFiles::new(rt);
    let mut out = StandardOutput::new(rt.stdout());
    let mut wire = MemoryWire::new(alloc, Vec::new(alloc), Vec::new(alloc), PIECE);
    let mut door = ClosedDoor::new();
    run(alloc, words, &mut files, &mut out, &mut wire, &mut door)
}

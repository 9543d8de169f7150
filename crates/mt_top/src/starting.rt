ghost use Rattle.std.specs.Prelude.{◌≡◌, ◌≤◌, ◌++◌, ℕ, List, OnOk, IfErr, length};
ghost use Rattle.std.specs.Io.KnownBytes.{append_known};
ghost use Rattle.mt_top.specs.Lines.{failed_line, started_line};
ghost use Rattle.mt_top.specs.Meaning.{IsOutputFault, StartMeans, TextStarts};
ghost use Rattle.mt_tree.specs.Limits.{source_limit};

use crate::lines::{failed_line, file_fault, not_built, started, too_long};
use crate::output::write_output;
use crate::refusing::write_refusal;
use crate::status::Status;
use mt_outside::{Files, ReadFault, Sink, read_file};
use mt_start::Startup;
use mt_tree::{NoMemory, Text, append};
use std::alloc::Global;

/// Starts the application in a file.
pub fn start<F: Files, O: Sink>(
    alloc: Global,
    application: &str,
    files: &mut F,
    out: &mut O,
) -> Status
    ensures meaning { StartMeans (record {
      contents = F.contents files.old;
      faults = F.faults files.old;
      faults_after = F.faults files.new;
    }) (record {
      held = O.held out.old;
      held_after = O.held out.new;
      faults = O.faults out.old;
      faults_after = O.faults out.new;
    }) application.now result }
    ensures contents { F.contents files.new ≡ F.contents files.old }
    ensures files_later { (name : List ℕ) → F.faults files.old name ≤ F.faults files.new name }
    ensures sink_later { O.faults out.old ≤ O.faults out.new }
{
    match read_file(alloc, files, application) {
        Ok(text) => start_text(alloc, &text, out),
        Err(ReadFault::Failed) => match write_output(out, file_fault()) {
            Ok(()) => Status::FileFault,
            Err(status) => status,
        },
        Err(ReadFault::TooLong) => match write_output(out, too_long()) {
            Ok(()) => Status::TooLong,
            Err(status) => status,
        },
        Err(ReadFault::NoMemory) => Status::NoMemory,
    }
}

// Starts the application, and writes its log or why it did not start.
fn start_text<O: Sink>(alloc: Global, text: &[u8], out: &mut O) -> Status
    requires short { length text.now ≤ source_limit }
    ensures meaning { TextStarts (record {
      held = O.held out.old;
      held_after = O.held out.new;
      faults = O.faults out.old;
      faults_after = O.faults out.new;
    }) text.now result }
    ensures later { O.faults out.old ≤ O.faults out.new }
{
    match mt_start::start(alloc, text) {
        Ok(Startup::Started(log)) => match write_log(log, out) {
            Ok(()) => Status::Done,
            Err(status) => status,
        },
        Ok(Startup::Failed(error)) => match write_failed(alloc, &error, out) {
            Ok(()) => Status::StartFailed,
            Err(status) => status,
        },
        Ok(Startup::NotBuilt) => match write_output(out, not_built()) {
            Ok(()) => Status::Refused,
            Err(status) => status,
        },
        Ok(Startup::Refused(refusal)) => match write_refusal(alloc, refusal, out) {
            Ok(()) => Status::Refused,
            Err(status) => status,
        },
        Err(NoMemory) => Status::NoMemory,
    }
}

// Writes the lines of the log, and that the application started.
fn write_log<O: Sink>(log: Vec<u8>, out: &mut O) -> Result<(), Status>
    ensures ok { OnOk result (O.held out.new ≡ append_known (O.held out.old) (log.items ++ started_line)) }
    ensures err { IfErr result (IsOutputFault (O.faults out.old) (O.faults out.new)) }
    ensures later { O.faults out.old ≤ O.faults out.new }
{
    let mut output = log;
    match append(started(), &mut output) {
        Ok(()) => write_output(out, &output),
        Err(NoMemory) => Err(Status::NoMemory),
    }
}

// Writes why the start failed.
fn write_failed<O: Sink>(alloc: Global, error: &Text, out: &mut O) -> Result<(), Status>
    ensures ok { OnOk result (O.held out.new ≡ append_known (O.held out.old) (failed_line error.now)) }
    ensures err { IfErr result (IsOutputFault (O.faults out.old) (O.faults out.new)) }
    ensures later { O.faults out.old ≤ O.faults out.new }
{
    match failed_line(alloc, error) {
        Ok(line) => write_output(out, &line),
        Err(NoMemory) => Err(Status::NoMemory),
    }
}

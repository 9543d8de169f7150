ghost use Rattle.std.specs.Prelude.{◌≡◌, ◌≤◌, ℕ, List, length};
ghost use Rattle.mt_top.specs.Meaning.{CheckMeans, TextMeans};
ghost use Rattle.mt_tree.specs.Limits.{source_limit};

use crate::lines::{accepted, file_fault, too_long};
use crate::output::write_output;
use crate::refusing::write_refusal;
use crate::status::Status;
use mt_outside::{Files, ReadFault, Sink, read_file};
use mt_source::check_source;
use std::alloc::Global;

/// Checks the application in a file.
pub fn check<F: Files, O: Sink>(
    alloc: Global,
    application: &str,
    files: &mut F,
    out: &mut O,
) -> Status
    ensures meaning { CheckMeans (record {
      contents = F.contents files.old;
      faults = F.faults files.old;
      faults_after = F.faults files.new;
    }) (record {
      held = O.held out.old;
      held_after = O.held out.new;
      faults = O.faults out.old;
      faults_after = O.faults out.new;
    }) application.now result }
    ensures contents { F.contents files.new ≡ F.contents files.old }
    ensures files_later { (name : List ℕ) → F.faults files.old name ≤ F.faults files.new name }
    ensures sink_later { O.faults out.old ≤ O.faults out.new }
{
    match read_file(alloc, files, application) {
        Ok(text) => check_text(alloc, &text, out),
        Err(ReadFault::Failed) => match write_output(out, file_fault()) {
            Ok(()) => Status::FileFault,
            Err(status) => status,
        },
        Err(ReadFault::TooLong) => match write_output(out, too_long()) {
            Ok(()) => Status::TooLong,
            Err(status) => status,
        },
        Err(ReadFault::NoMemory) => Status::NoMemory,
    }
}

// Accepts the text, or says why it is not accepted.
fn check_text<O: Sink>(alloc: Global, text: &[u8], out: &mut O) -> Status
    requires short { length text.now ≤ source_limit }
    ensures meaning { TextMeans (record {
      held = O.held out.old;
      held_after = O.held out.new;
      faults = O.faults out.old;
      faults_after = O.faults out.new;
    }) text.now result }
    ensures later { O.faults out.old ≤ O.faults out.new }
{
    match check_source(alloc, text) {
        Ok(()) => match write_output(out, accepted()) {
            Ok(()) => Status::Done,
            Err(status) => status,
        },
        Err(refusal) => match write_refusal(alloc, refusal, out) {
            Ok(()) => Status::Refused,
            Err(status) => status,
        },
    }
}

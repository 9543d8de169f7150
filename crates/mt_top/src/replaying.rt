ghost use Rattle.std.specs.Prelude.{◌≡◌, ◌≤◌, ℕ, List, None};
ghost use Rattle.mt_top.specs.Meaning.{ReplayMeans, ModeIsFor};

use crate::lines::{file_fault, too_long};
use crate::output::write_output;
use crate::play::play_texts;
use crate::status::Status;
use crate::texts::read_texts;
use mt_outside::{Files, ReadFault, Sink, Wire};
use std::alloc::Global;

/// Replays the schedule in one file over the application in another.
pub fn replay<F: Files, O: Sink, W: Wire>(
    alloc: Global,
    application: &str,
    schedule: &str,
    files: &mut F,
    out: &mut O,
    wire: &mut W,
) -> Status
    requires idle { W.mode wire.old ≡ None }
    ensures meaning { ReplayMeans (record {
      contents = F.contents files.old;
      faults = F.faults files.old;
      faults_after = F.faults files.new;
    }) (record {
      held = O.held out.old;
      held_after = O.held out.new;
      faults = O.faults out.old;
      faults_after = O.faults out.new;
    }) (record {
      messages = W.messages wire.new;
      faults = W.faults wire.old;
      faults_after = W.faults wire.new;
    }) application.now schedule.now result }
    ensures mode { ModeIsFor (W.mode wire.new) result }
    ensures contents { F.contents files.new ≡ F.contents files.old }
    ensures files_later { (name : List ℕ) → F.faults files.old name ≤ F.faults files.new name }
    ensures sink_later { O.faults out.old ≤ O.faults out.new }
    ensures wire_later { W.faults wire.old ≤ W.faults wire.new }
{
    match read_texts(alloc, application, schedule, files) {
        Ok(texts) => play_texts(alloc, &texts.application, &texts.schedule, out, wire),
        Err(ReadFault::Failed) => match write_output(out, file_fault()) {
            Ok(()) => Status::FileFault,
            Err(status) => status,
        },
        Err(ReadFault::TooLong) => match write_output(out, too_long()) {
            Ok(()) => Status::TooLong,
            Err(status) => status,
        },
        Err(ReadFault::NoMemory) => Status::NoMemory,
    }
}

ghost use Rattle.std.specs.Prelude.{◌≡◌, ◌≤◌, None, IfErr, OnOk, length};
ghost use Rattle.std.specs.List.{AllByRecursion};
ghost use Rattle.std.specs.Io.KnownBytes.{append_known};
ghost use Rattle.mt_small.specs.Readable.{AsksForTarget};
ghost use Rattle.mt_top.specs.Lines.{bad_line};
ghost use Rattle.mt_top.specs.Meaning.{TextsMean, CommandsMean, ModeIsFor, IsOutputFault};
ghost use Rattle.mt_tree.specs.Limits.{source_limit};

use crate::lines::bad_schedule_line;
use crate::output::write_output;
use crate::refusing::write_unplayed;
use crate::status::Status;
use mt_outside::{SendFault, Sink, Wire};
use mt_session::{Played, play_small};
use mt_small::{
    Small, SmallCommand, SmallLineRefusal, SmallRefusal, read_small, read_small_schedule,
};
use mt_tree::{NoMemory, Row};
use std::alloc::Global;

/// Plays the schedule of an application, from their texts.
pub fn play_texts<O: Sink, W: Wire>(
    alloc: Global,
    application: &[u8],
    schedule: &[u8],
    out: &mut O,
    wire: &mut W,
) -> Status
    requires idle { W.mode wire.old ≡ None }
    requires short { length application.now ≤ source_limit }
    ensures meaning { TextsMean (record {
      held = O.held out.old;
      held_after = O.held out.new;
      faults = O.faults out.old;
      faults_after = O.faults out.new;
    }) (record {
      messages = W.messages wire.new;
      faults = W.faults wire.old;
      faults_after = W.faults wire.new;
    }) application.now schedule.now result }
    ensures mode { ModeIsFor (W.mode wire.new) result }
    ensures sink_later { O.faults out.old ≤ O.faults out.new }
    ensures wire_later { W.faults wire.old ≤ W.faults wire.new }
{
    let small = match read_small(alloc, application) {
        Ok(small) => small,
        Err(SmallRefusal::NotSmall) => {
            return match write_unplayed(alloc, application, out) {
                Ok(()) => Status::Refused,
                Err(status) => status,
            };
        }
        Err(SmallRefusal::NoMemory) => return Status::NoMemory,
    };
    match read_small_schedule(alloc, schedule) {
        Ok(commands) => play_commands(alloc, &small, &commands, out, wire),
        Err(SmallLineRefusal::BadLine(number)) => match write_bad_line(alloc, number, out) {
            Ok(()) => Status::BadSchedule,
            Err(status) => status,
        },
        Err(SmallLineRefusal::NoMemory) => Status::NoMemory,
    }
}

// Says which line of the schedule is no command.
fn write_bad_line<O: Sink>(alloc: Global, number: u32, out: &mut O) -> Result<(), Status>
    ensures ok { OnOk result (O.held out.new ≡ append_known (O.held out.old) (bad_line number)) }
    ensures err { IfErr result (IsOutputFault (O.faults out.old) (O.faults out.new)) }
    ensures later { O.faults out.old ≤ O.faults out.new }
{
    match bad_schedule_line(alloc, number) {
        Ok(line) => write_output(out, &line),
        Err(NoMemory) => Err(Status::NoMemory),
    }
}

// Begins the wire, and plays.
fn play_commands<O: Sink, W: Wire>(
    alloc: Global,
    small: &Small,
    commands: &Row<SmallCommand>,
    out: &mut O,
    wire: &mut W,
) -> Status
    requires idle { W.mode wire.old ≡ None }
    requires targets { AllByRecursion AsksForTarget commands.now }
    ensures meaning { CommandsMean (record {
      held = O.held out.old;
      held_after = O.held out.new;
      faults = O.faults out.old;
      faults_after = O.faults out.new;
    }) (record {
      messages = W.messages wire.new;
      faults = W.faults wire.old;
      faults_after = W.faults wire.new;
    }) small.now commands.now result }
    ensures mode { ModeIsFor (W.mode wire.new) result }
    ensures sink_later { O.faults out.old ≤ O.faults out.new }
    ensures wire_later { W.faults wire.old ≤ W.faults wire.new }
{
    match wire.begin(false) {
        Ok(()) => match play_small(alloc, small, commands, wire, out) {
            Played::Done => Status::Done,
            Played::WireFault => Status::WireFault,
            Played::SinkFault => Status::SinkFault,
            Played::NoMemory => Status::NoMemory,
        },
        Err(SendFault::Failed) => Status::WireFault,
        Err(SendFault::NoMemory) => Status::NoMemory,
    }
}

ghost use Rattle.std.specs.Prelude.{◌≡◌, ◌≤◌, IfErr, OnOk};
ghost use Rattle.std.specs.Io.KnownBytes.{append_known};
ghost use Rattle.mt_top.specs.Meaning.{IsOutputFault};

use crate::status::Status;
use mt_outside::{SendFault, Sink, write_all};

/// Writes the bytes whole. The error is the status with which the run ends.
pub fn write_output<O: Sink>(out: &mut O, bytes: &[u8]) -> Result<(), Status>
    ensures ok { OnOk result (O.held out.new ≡ append_known (O.held out.old) bytes.now) }
    ensures err { IfErr result (IsOutputFault (O.faults out.old) (O.faults out.new)) }
    ensures later { O.faults out.old ≤ O.faults out.new }
{
    match write_all(out, bytes) {
        Ok(()) => Ok(()),
        Err(SendFault::Failed) => Err(Status::SinkFault),
        Err(SendFault::NoMemory) => Err(Status::NoMemory),
    }
}

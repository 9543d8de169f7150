ghost use Rattle.std.specs.Prelude.{◌≡◌, ◌↔◌, ◌++◌, true, false, length, IfOk, OnOk, OnErr, IsSome};
ghost use Rattle.std.specs.Option.{ForSome, option_map};
ghost use Rattle.mt_outside.specs.Message.{with_send, with_given, was_sent, TookSome};
ghost use Rattle.mt_session.specs.Causes.{StepCause};
ghost use Rattle.mt_session.specs.WireFits.{take_limit};

use mt_outside::{SendFault, Slot, TakeFault, Taken, Wire, take_slot};
use std::alloc::Global;

/// The most bytes that are taken of a message.
const TAKE_LIMIT: usize = 65_537;

/// Why a command could not be carried out.
#[derive(Clone, Copy, Debug, PartialEq, Eq)]
pub enum StepFault {
    /// The wire failed: its count of faults rose, or stands at 2^64 - 1.
    WireFault,
    /// Memory ran out.
    NoMemory,
}

/// Appends the lines and then sends the message. After a fault neither is done.
pub fn write_and_send<W: Wire>(
    wire: &mut W,
    slot: Slot,
    bytes: &[u8],
    lines: &[u8],
    out: &mut Vec<u8>,
) -> Result<(), StepFault>
    requires begun { IsSome (W.mode wire.old) }
    requires unsent { ForSome (W.messages wire.old) (λ ms. was_sent slot ms ≡ false) }
    ensures mode { W.mode wire.new ≡ W.mode wire.old }
    ensures sent { OnOk result (W.messages wire.new ≡ option_map (with_send slot bytes.now) (W.messages wire.old)) }
    ensures written { OnOk result (out.new.items ≡ out.old.items ++ lines.now) }
    ensures not_sent { OnErr result (W.messages wire.new ≡ W.messages wire.old) }
    ensures not_written { OnErr result (out.new.items ≡ out.old.items) }
    ensures cause { StepCause (W.faults wire.old) (W.faults wire.new) result }
{
    let size = out.len();
    match out.extend_from_slice(lines) {
        Ok(()) => match wire.send(slot, bytes) {
            Ok(()) => Ok(()),
            Err(fault) => {
                out.truncate(size);
                Err(step_fault(fault))
            }
        },
        Err(_refused) => Err(StepFault::NoMemory),
    }
}

fn step_fault(fault: SendFault) -> StepFault
    ensures { (result ≡ StepFault.WireFault) ↔ (fault ≡ SendFault.Failed) }
{
    match fault {
        SendFault::Failed => StepFault::WireFault,
        SendFault::NoMemory => StepFault::NoMemory,
    }
}

/// Takes a message to its end, or as far as one is taken.
pub fn take_message<W: Wire>(alloc: Global, wire: &mut W, slot: Slot) -> Result<Taken, StepFault>
    requires begun { IsSome (W.mode wire.old) }
    requires sent { ForSome (W.messages wire.old) (λ ms. was_sent slot ms ≡ true) }
    ensures mode { W.mode wire.new ≡ W.mode wire.old }
    ensures taken { IfOk result (λ taken. W.messages wire.new
        ≡ option_map (with_given slot taken.bytes.items taken.ended) (W.messages wire.old)) }
    ensures whole { IfOk result (λ taken. taken.ended ≡ false → length taken.bytes.items ≡ take_limit) }
    ensures err { OnErr result (TookSome slot (W.messages wire.old) (W.messages wire.new)) }
    ensures cause { StepCause (W.faults wire.old) (W.faults wire.new) result }
{
    match take_slot(alloc, wire, slot, TAKE_LIMIT) {
        Ok(taken) => Ok(taken),
        Err(TakeFault::Failed) => Err(StepFault::WireFault),
        Err(TakeFault::NoMemory) => Err(StepFault::NoMemory),
    }
}

ghost use Rattle.std.specs.Prelude.{◌≡◌, ◌++◌, [], true, false, length, Some, IfOk, OnOk, OnErr, IsSome, IsOkUnless};
ghost use Rattle.std.specs.Option.{ForSome, option_map};
ghost use Rattle.mt_small.specs.declared.application.Small.{Small};
ghost use Rattle.mt_small.specs.declared.command.SmallCommand.TheVariants.{Load, Serve, Deliver};
ghost use Rattle.mt_session.specs.declared.party.Standing.TheVariants.{Asked, Answered};
ghost use Rattle.mt_session.specs.Parties.{standing_of, has_party};
ghost use Rattle.mt_session.specs.Transcript.{echo, skip_line};
ghost use Rattle.mt_session.specs.WireFits.{WireFits, IfBothTell};
ghost use Rattle.mt_session.specs.Command.{CommandDone, CommandFailed};
ghost use Rattle.mt_session.specs.Causes.{StepCause};

use crate::exchange::{StepFault, take_message, write_and_send};
use crate::parties::standing_of;
use crate::party::{Party, Standing};
use crate::prepare::{prepare_load, prepare_reply, skip_lines, take_reply};
use mt_outside::{Slot, Wire};
use mt_small::{Small, SmallCommand};
use mt_tree::{NoMemory, Text};
use std::alloc::Global;

/// A client asks for the page of a target: its next message is a request.
pub fn load<W: Wire>(
    alloc: Global,
    parties: &mut Vec<Party>,
    client: u32,
    target: &Text,
    wire: &mut W,
    out: &mut Vec<u8>,
) -> Result<(), StepFault>
    requires begun { IsSome (W.mode wire.old) }
    requires fits { ForSome (W.messages wire.old) (WireFits parties.old.items) }
    ensures mode { W.mode wire.new ≡ W.mode wire.old }
    ensures done { OnOk result ((small : Small) → IfBothTell (W.messages wire.old) (W.messages wire.new)
        (CommandDone small (Load client target.now) parties.old.items parties.new.items out.old.items out.new.items)) }
    ensures failed { OnErr result (IfBothTell (W.messages wire.old) (W.messages wire.new) (CommandFailed parties.old.items)) }
    ensures not_written { OnErr result (out.new.items ≡ out.old.items) }
    ensures cause { StepCause (W.faults wire.old) (W.faults wire.new) result }
{
    match prepare_load(alloc, parties, client, target) {
        Ok(prepared) => {
            let slot = Slot {
                client,
                message: prepared.message,
                reply: false,
            };
            write_and_send(wire, slot, &prepared.bytes, &prepared.lines, out)
        }
        Err(NoMemory) => Err(StepFault::NoMemory),
    }
}

/// Appends the lines of a command that finds nothing to act on.
fn skip(
    alloc: Global,
    parties: &[Party],
    client: u32,
    command: &SmallCommand,
    out: &mut Vec<u8>,
) -> Result<(), StepFault>
    ensures lines { OnOk result (out.new.items ≡ out.old.items ++ (echo command.now ++ skip_line (has_party client parties.now))) }
    ensures not_written { OnErr result (out.new.items ≡ out.old.items) }
    ensures fault { IsOkUnless result StepFault.NoMemory }
{
    match skip_lines(alloc, parties, client, command) {
        Ok(lines) => match out.extend_from_slice(&lines) {
            Ok(()) => Ok(()),
            Err(_refused) => Err(StepFault::NoMemory),
        },
        Err(NoMemory) => Err(StepFault::NoMemory),
    }
}

/// The server takes a request, and answers it where it has not done so yet.
pub fn serve<W: Wire>(
    alloc: Global,
    small: &Small,
    parties: &mut Vec<Party>,
    client: u32,
    message: u64,
    wire: &mut W,
    out: &mut Vec<u8>,
) -> Result<(), StepFault>
    requires begun { IsSome (W.mode wire.old) }
    requires fits { ForSome (W.messages wire.old) (WireFits parties.old.items) }
    ensures mode { W.mode wire.new ≡ W.mode wire.old }
    ensures done { OnOk result (IfBothTell (W.messages wire.old) (W.messages wire.new)
        (CommandDone small.now (Serve client message) parties.old.items parties.new.items out.old.items out.new.items)) }
    ensures failed { OnErr result (IfBothTell (W.messages wire.old) (W.messages wire.new) (CommandFailed parties.old.items)) }
    ensures not_written { OnErr result (out.new.items ≡ out.old.items) }
    ensures cause { StepCause (W.faults wire.old) (W.faults wire.new) result }
{
    let command = SmallCommand::Serve(client, message);
    match standing_of(parties, client, message) {
        Some(Standing::Asked) => answer_request(alloc, small, parties, client, message, wire, out),
        Some(Standing::Answered) => skip(alloc, parties, client, &command, out),
        Some(Standing::Over) => skip(alloc, parties, client, &command, out),
        None => skip(alloc, parties, client, &command, out),
    }
}

fn answer_request<W: Wire>(
    alloc: Global,
    small: &Small,
    parties: &mut Vec<Party>,
    client: u32,
    message: u64,
    wire: &mut W,
    out: &mut Vec<u8>,
) -> Result<(), StepFault>
    requires begun { IsSome (W.mode wire.old) }
    requires fits { ForSome (W.messages wire.old) (WireFits parties.old.items) }
    requires asked { standing_of client message parties.old.items ≡ Some Asked }
    ensures mode { W.mode wire.new ≡ W.mode wire.old }
    ensures done { OnOk result (IfBothTell (W.messages wire.old) (W.messages wire.new)
        (CommandDone small.now (Serve client message) parties.old.items parties.new.items out.old.items out.new.items)) }
    ensures failed { OnErr result (IfBothTell (W.messages wire.old) (W.messages wire.new) (CommandFailed parties.old.items)) }
    ensures not_written { OnErr result (out.new.items ≡ out.old.items) }
    ensures cause { StepCause (W.faults wire.old) (W.faults wire.new) result }
{
    let request = Slot {
        client,
        message,
        reply: false,
    };
    let taken = take_message(alloc, wire, request)?;
    match prepare_reply(alloc, small, parties, client, message, &taken.bytes) {
        Ok(prepared) => {
            let reply = Slot {
                client,
                message,
                reply: true,
            };
            write_and_send(wire, reply, &prepared.bytes, &prepared.lines, out)
        }
        Err(NoMemory) => Err(StepFault::NoMemory),
    }
}

/// A client takes the reply to its message, where it has not done so yet.
pub fn deliver<W: Wire>(
    alloc: Global,
    parties: &mut Vec<Party>,
    client: u32,
    message: u64,
    wire: &mut W,
    out: &mut Vec<u8>,
) -> Result<(), StepFault>
    requires begun { IsSome (W.mode wire.old) }
    requires fits { ForSome (W.messages wire.old) (WireFits parties.old.items) }
    ensures mode { W.mode wire.new ≡ W.mode wire.old }
    ensures done { OnOk result ((small : Small) → IfBothTell (W.messages wire.old) (W.messages wire.new)
        (CommandDone small (Deliver client message) parties.old.items parties.new.items out.old.items out.new.items)) }
    ensures failed { OnErr result (IfBothTell (W.messages wire.old) (W.messages wire.new) (CommandFailed parties.old.items)) }
    ensures not_written { OnErr result (out.new.items ≡ out.old.items) }
    ensures cause { StepCause (W.faults wire.old) (W.faults wire.new) result }
{
    let command = SmallCommand::Deliver(client, message);
    match standing_of(parties, client, message) {
        Some(Standing::Answered) => read_answer(alloc, parties, client, message, wire, out),
        Some(Standing::Asked) => skip(alloc, parties, client, &command, out),
        Some(Standing::Over) => skip(alloc, parties, client, &command, out),
        None => skip(alloc, parties, client, &command, out),
    }
}

fn read_answer<W: Wire>(
    alloc: Global,
    parties: &mut Vec<Party>,
    client: u32,
    message: u64,
    wire: &mut W,
    out: &mut Vec<u8>,
) -> Result<(), StepFault>
    requires begun { IsSome (W.mode wire.old) }
    requires fits { ForSome (W.messages wire.old) (WireFits parties.old.items) }
    requires answered { standing_of client message parties.old.items ≡ Some Answered }
    ensures mode { W.mode wire.new ≡ W.mode wire.old }
    ensures done { OnOk result ((small : Small) → IfBothTell (W.messages wire.old) (W.messages wire.new)
        (CommandDone small (Deliver client message) parties.old.items parties.new.items out.old.items out.new.items)) }
    ensures failed { OnErr result (IfBothTell (W.messages wire.old) (W.messages wire.new) (CommandFailed parties.old.items)) }
    ensures not_written { OnErr result (out.new.items ≡ out.old.items) }
    ensures cause { StepCause (W.faults wire.old) (W.faults wire.new) result }
{
    let reply = Slot {
        client,
        message,
        reply: true,
    };
    let taken = take_message(alloc, wire, reply)?;
    match take_reply(alloc, parties, client, message, &taken.bytes) {
        Ok(lines) => match out.extend_from_slice(&lines) {
            Ok(()) => Ok(()),
            Err(_refused) => Err(StepFault::NoMemory),
        },
        Err(NoMemory) => Err(StepFault::NoMemory),
    }
}

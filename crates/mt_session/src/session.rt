ghost use Rattle.std.specs.Prelude.{◌≡◌, ◌++◌, [], OnOk, OnErr, IsSome};
ghost use Rattle.std.specs.Option.{ForSome};
ghost use Rattle.mt_small.specs.declared.command.SmallCommand.TheVariants.{Load, Serve, Deliver};
ghost use Rattle.mt_session.specs.WireFits.{WireFits, IfBothTell};
ghost use Rattle.mt_session.specs.Command.{CommandDone, CommandFailed};
ghost use Rattle.mt_session.specs.Causes.{StepCause};

use crate::exchange::StepFault;
use crate::party::Party;
use crate::step::{deliver, load, serve};
use mt_outside::Wire;
use mt_small::{Small, SmallCommand};
use std::alloc::Global;

/// The clients of a run, and where their messages stand.
///
/// It keeps no message: the wire alone has them.
#[derive(Drop)]
pub struct Session {
    /// What gives memory.
    pub alloc: Global,
    /// The clients that have loaded a page, in the order of their first loads.
    pub parties: Vec<Party>,
}

impl Session {
    /// A run in which no client has asked for anything yet. Takes no memory.
    pub fn new(alloc: Global) -> Session
        ensures { result.parties.items ≡ [] }
    {
        Session {
            alloc,
            parties: Vec::new(alloc),
        }
    }

    /// Carries out one command, and appends the lines that it writes.
    ///
    /// The wire was begun. Where it tells its messages, those that were sent are the session's, and nothing was given of one
    /// on which no side has acted; so it is again after `Ok`. The command is one step of the sides, which know of a message
    /// only the bytes that the wire gives. A message on which a side acts is taken to its end or to 65,537 bytes.
    ///
    /// # Errors
    /// `WireFault` only where the wire's count of faults rose in this call, or stands at 2^64 - 1, and `NoMemory` where memory
    /// ran out. After either no line was appended and nothing was sent, but some bytes of a message may have been taken, and
    /// the session is of no further use.
    pub fn step<W: Wire>(
        &mut self,
        small: &Small,
        command: &SmallCommand,
        wire: &mut W,
        out: &mut Vec<u8>,
    ) -> Result<(), StepFault>
        requires begun { IsSome (W.mode wire.old) }
        requires fits { ForSome (W.messages wire.old) (WireFits self.old.parties.items) }
        ensures mode { W.mode wire.new ≡ W.mode wire.old }
        ensures done { OnOk result (IfBothTell (W.messages wire.old) (W.messages wire.new)
            (CommandDone small.now command.now self.old.parties.items self.new.parties.items out.old.items out.new.items)) }
        ensures failed { OnErr result (IfBothTell (W.messages wire.old) (W.messages wire.new) (CommandFailed self.old.parties.items)) }
        ensures not_written { OnErr result (out.new.items ≡ out.old.items) }
        ensures cause { StepCause (W.faults wire.old) (W.faults wire.new) result }
    {
        match command {
            SmallCommand::Load(client, target) => {
                load(self.alloc, &mut self.parties, *client, target, wire, out)
            }
            SmallCommand::Serve(client, message) => serve(
                self.alloc,
                small,
                &mut self.parties,
                *client,
                *message,
                wire,
                out,
            ),
            SmallCommand::Deliver(client, message) => deliver(
                self.alloc,
                &mut self.parties,
                *client,
                *message,
                wire,
                out,
            ),
        }
    }
}

ghost use Rattle.std.specs.Prelude.{◌≡◌, ◌≤◌, [], OnOk, OnErr, IsSome, IfSome, length};
ghost use Rattle.std.specs.Option.{ForSome, is_some};
ghost use Rattle.std.specs.List.{AllByRecursion};
ghost use Rattle.std.specs.Io.KnownBytes.{append_known};
ghost use Rattle.mt_outside.specs.Cause.{Rose};
ghost use Rattle.mt_outside.specs.Message.{IsFaithful, sends_of};
ghost use Rattle.mt_outside.specs.Sink.{GrewByPrefix};
ghost use Rattle.mt_small.specs.Readable.{AsksForTarget};
ghost use Rattle.mt_session.specs.Causes.{PlayCause};
ghost use Rattle.mt_session.specs.Command.{CommandWritten, CommandInterrupted, IsFront};
ghost use Rattle.mt_session.specs.Machine.{machine_transcript};
ghost use Rattle.mt_session.specs.Sides.{transcript, parties_from, sends_from};
ghost use Rattle.mt_session.specs.Transcript.{end_line};
ghost use Rattle.mt_session.specs.WireFits.{WireFits, IfBothTell, ActedAreTaken, table};

use crate::exchange::StepFault;
use crate::session::Session;
use crate::transcript::append_end;
use mt_outside::{SendFault, Sink, Wire, write_all};
use mt_small::{Small, SmallCommand};
use mt_tree::{NoMemory, Row};
use std::alloc::Global;

/// How the playing of a schedule ended.
#[derive(Clone, Copy, Debug, PartialEq, Eq)]
pub enum Played {
    /// The whole transcript was written.
    Done,
    /// The wire failed: its count of faults rose, or stands at 2^64 - 1.
    WireFault,
    /// The sink failed: its count of faults rose, or stands at 2^64 - 1.
    SinkFault,
    /// Memory ran out.
    NoMemory,
}

/// Why a run could not go on.
#[derive(Clone, Copy, Debug, PartialEq, Eq)]
enum PlayFault {
    WireFault,
    SinkFault,
    NoMemory,
}

fn write_lines<O: Sink>(out: &mut O, lines: &[u8]) -> Result<(), PlayFault>
    ensures ok { OnOk result (O.held out.new ≡ append_known (O.held out.old) lines.now) }
    ensures err { OnErr result (GrewByPrefix (O.held out.old) (O.held out.new) lines.now) }
    ensures cause { PlayCause 0 0 (O.faults out.old) (O.faults out.new) result }
{
    match write_all(out, lines) {
        Ok(()) => Ok(()),
        Err(SendFault::Failed) => Err(PlayFault::SinkFault),
        Err(SendFault::NoMemory) => Err(PlayFault::NoMemory),
    }
}

// One command, whose lines go to the sink.
fn play_command<W: Wire, O: Sink>(
    alloc: Global,
    small: &Small,
    session: &mut Session,
    command: &SmallCommand,
    wire: &mut W,
    out: &mut O,
) -> Result<(), PlayFault>
    requires begun { IsSome (W.mode wire.old) }
    requires fits { ForSome (W.messages wire.old) (WireFits session.old.parties.items) }
    ensures mode { W.mode wire.new ≡ W.mode wire.old }
    ensures written { OnOk result (IfBothTell (W.messages wire.old) (W.messages wire.new)
        (CommandWritten small.now command.now session.old.parties.items session.new.parties.items (O.held out.old) (O.held out.new))) }
    ensures interrupted { OnErr result (IfBothTell (W.messages wire.old) (W.messages wire.new)
        (CommandInterrupted small.now command.now session.old.parties.items (O.held out.old) (O.held out.new))) }
    ensures cause { PlayCause (W.faults wire.old) (W.faults wire.new) (O.faults out.old) (O.faults out.new) result }
{
    let mut lines = Vec::new(alloc);
    match session.step(small, command, wire, &mut lines) {
        Ok(()) => write_lines(out, &lines),
        Err(StepFault::WireFault) => Err(PlayFault::WireFault),
        Err(StepFault::NoMemory) => Err(PlayFault::NoMemory),
    }
}

fn write_end<O: Sink>(alloc: Global, count: u64, out: &mut O) -> Result<(), PlayFault>
    ensures ok { OnOk result (O.held out.new ≡ append_known (O.held out.old) (end_line count)) }
    ensures err { OnErr result (GrewByPrefix (O.held out.old) (O.held out.new) (end_line count)) }
    ensures cause { PlayCause 0 0 (O.faults out.old) (O.faults out.new) result }
{
    let mut line = Vec::new(alloc);
    match append_end(alloc, &mut line, count) {
        Ok(()) => write_lines(out, &line),
        Err(NoMemory) => Err(PlayFault::NoMemory),
    }
}

fn play_commands<W: Wire, O: Sink>(
    alloc: Global,
    small: &Small,
    commands: &[SmallCommand],
    wire: &mut W,
    out: &mut O,
) -> Result<(), PlayFault>
    requires begun { IsSome (W.mode wire.old) }
    requires empty { ForSome (W.messages wire.old) (λ ms. ms ≡ []) }
    ensures mode { W.mode wire.new ≡ W.mode wire.old }
    ensures tells { is_some (W.messages wire.new) ≡ is_some (W.messages wire.old) }
    ensures transcript { OnOk result (IfSome (W.messages wire.new)
        (λ ms. O.held out.new ≡ append_known (O.held out.old) (transcript small.now commands.now (table ms)))) }
    ensures sends { OnOk result (IfSome (W.messages wire.new) (λ ms. sends_of ms ≡ sends_from small.now commands.now [] (table ms))) }
    ensures fits { OnOk result (IfSome (W.messages wire.new) (λ ms. WireFits (parties_from small.now commands.now [] (table ms)) ms)) }
    ensures taken { OnOk result (IfSome (W.messages wire.new) (λ ms. ActedAreTaken (parties_from small.now commands.now [] (table ms)) ms)) }
    ensures machine { OnOk result (IfSome (W.messages wire.new) (λ ms. AllByRecursion AsksForTarget commands.now → IsFaithful ms
        → O.held out.new ≡ append_known (O.held out.old) (machine_transcript small.now commands.now))) }
    ensures prefix { OnErr result (IfSome (W.messages wire.new)
        (λ ms. GrewByPrefix (O.held out.old) (O.held out.new) (transcript small.now commands.now (table ms)))) }
    ensures sends_prefix { OnErr result (IfSome (W.messages wire.new)
        (λ ms. IsFront (sends_of ms) (sends_from small.now commands.now [] (table ms)))) }
    ensures cause { PlayCause (W.faults wire.old) (W.faults wire.new) (O.faults out.old) (O.faults out.new) result }
{
    let mut session = Session::new(alloc);
    for command in commands {
        play_command(alloc, small, &mut session, command, wire, out)?;
    }
    write_end(alloc, commands.len() as u64, out)
}

/// Plays a schedule over a wire, and writes its transcript: one step of a session for each command, and the last line.
///
/// The wire was begun, and where it tells its messages, nothing was sent on it yet.
/// Where it tells its messages, the sink gets the transcript of the sides for the bytes that the wire gave,
/// the wire was sent what the entries print, in their order, and each message on which a side acted
/// was taken to its end or to 65,537 bytes.
///
/// Where each load of the schedule has a target that spells a service's path, and the wire gave each message as it was sent,
/// that is the transcript of the machine that both tiers run on, in which nothing is written or read between them.
///
/// At every answer but `Done` the sink got a prefix of that transcript, and the wire a prefix of those sends. Whatever the
/// answer, the wire's mode is as before, and the wire tells its messages exactly where it told them before.
pub fn play_small<W: Wire, O: Sink>(
    alloc: Global,
    small: &Small,
    schedule: &Row<SmallCommand>,
    wire: &mut W,
    out: &mut O,
) -> Played
    requires begun { IsSome (W.mode wire.old) }
    requires empty { ForSome (W.messages wire.old) (λ ms. ms ≡ []) }
    ensures mode { W.mode wire.new ≡ W.mode wire.old }
    ensures tells { is_some (W.messages wire.new) ≡ is_some (W.messages wire.old) }
    ensures transcript { result ≡ Played.Done → IfSome (W.messages wire.new)
        (λ ms. O.held out.new ≡ append_known (O.held out.old) (transcript small.now schedule.now (table ms))) }
    ensures sends { result ≡ Played.Done → IfSome (W.messages wire.new)
        (λ ms. sends_of ms ≡ sends_from small.now schedule.now [] (table ms)) }
    ensures fits { result ≡ Played.Done → IfSome (W.messages wire.new)
        (λ ms. WireFits (parties_from small.now schedule.now [] (table ms)) ms) }
    ensures taken { result ≡ Played.Done → IfSome (W.messages wire.new)
        (λ ms. ActedAreTaken (parties_from small.now schedule.now [] (table ms)) ms) }
    ensures machine { result ≡ Played.Done → IfSome (W.messages wire.new) (λ ms. AllByRecursion AsksForTarget schedule.now → IsFaithful ms
        → O.held out.new ≡ append_known (O.held out.old) (machine_transcript small.now schedule.now)) }
    // Whatever it answers: what was written, and what was sent, is a beginning of the whole.
    ensures prefix { IfSome (W.messages wire.new)
        (λ ms. GrewByPrefix (O.held out.old) (O.held out.new) (transcript small.now schedule.now (table ms))) }
    ensures sends_prefix { IfSome (W.messages wire.new)
        (λ ms. IsFront (sends_of ms) (sends_from small.now schedule.now [] (table ms))) }
    ensures wire_fault { result ≡ Played.WireFault → Rose (W.faults wire.old) (W.faults wire.new) }
    ensures sink_fault { result ≡ Played.SinkFault → Rose (O.faults out.old) (O.faults out.new) }
    ensures wire_later { W.faults wire.old ≤ W.faults wire.new }
    ensures sink_later { O.faults out.old ≤ O.faults out.new }
{
    match play_commands(alloc, small, schedule.items(), wire, out) {
        Ok(()) => Played::Done,
        Err(PlayFault::WireFault) => Played::WireFault,
        Err(PlayFault::SinkFault) => Played::SinkFault,
        Err(PlayFault::NoMemory) => Played::NoMemory,
    }
}

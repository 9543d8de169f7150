//! Laws on the definitions alone: over a wire that gives each message as it was sent, a run is the machine's, and two
//! transcripts of the machine are written out. A law is the contract of a function that does nothing.
//!
//! The premises on a run are what it leaves: each request asks for a target, the messages sent are those of the run, and
//! each one on which a side acted was taken to its end or to 65,537 bytes.
ghost use Rattle.std.specs.Prelude.{◌≡◌, ◌++◌, ℕ, true, false, List, [], codes};
ghost use Rattle.std.specs.List.{AllByRecursion};
ghost use Rattle.mt_outside.specs.declared.wire.Slot.{Slot};
ghost use Rattle.mt_outside.specs.Message.{Message, IsFaithful, sends_of};
ghost use Rattle.mt_small.specs.declared.application.Small.{Small};
ghost use Rattle.mt_small.specs.declared.command.SmallCommand.{SmallCommand};
ghost use Rattle.mt_small.specs.Readable.{AsksForTarget};
ghost use Rattle.mt_small.specs.Reading.{reads_request, reads_reply};
ghost use Rattle.mt_session.specs.declared.party.Party.{Party};
ghost use Rattle.mt_session.specs.Corresponds.{Corresponds, machine_after, bytes_at};
ghost use Rattle.mt_session.specs.Examples.{page_commands, page_transcript, refused_commands, refused_transcript};
ghost use Rattle.mt_session.specs.Machine.{Machine, message_at, asked_by, replied_by, machine_lines, machine_transcript, at_start};
ghost use Rattle.mt_session.specs.Sides.{lines_from, parties_from, sends_from, wired, transcript};
ghost use Rattle.mt_session.specs.Step.{slot_of};
ghost use Rattle.mt_session.specs.WireFits.{table, ActedAreTaken};

/// Over a faithful wire the transcript of server and clients is that of the machine, in which nothing is written or
/// read between them.
pub fn transcript_is_machine_transcript()
    ensures { (small : Small) (commands : List SmallCommand) (ms : List Message) → AllByRecursion AsksForTarget commands → IsFaithful ms
        → sends_of ms ≡ sends_from small commands [] (table ms) → ActedAreTaken (parties_from small commands [] (table ms)) ms
        → transcript small commands (table ms) ≡ machine_transcript small commands }
{}

/// Over a faithful wire the messages sent are those of the machine, as bytes.
pub fn sends_are_machine_messages()
    ensures { (small : Small) (commands : List SmallCommand) (ms : List Message) → AllByRecursion AsksForTarget commands → IsFaithful ms
        → sends_of ms ≡ sends_from small commands [] (table ms) → ActedAreTaken (parties_from small commands [] (table ms)) ms
        → sends_of ms ≡ wired (machine_after small commands at_start).messages }
{}

/// Over a faithful wire the states correspond after each command: the clients are the same, and each message sent is the
/// bytes of the machine's. `commands` are those so far, and `more` is what was sent after them.
pub fn states_correspond()
    ensures { (small : Small) (commands : List SmallCommand) (ms : List Message) (more : List (Slot × List ℕ)) → AllByRecursion AsksForTarget commands → IsFaithful ms
        → sends_of ms ≡ sends_from small commands [] (table ms) ++ more → ActedAreTaken (parties_from small commands [] (table ms)) ms
        → Corresponds (machine_after small commands at_start) (parties_from small commands [] (table ms)) (sends_from small commands [] (table ms)) }
{}

/// Over a faithful wire the lines are the machine's after each command. `commands` are those so far, and `more` is what was
/// sent after them.
pub fn lines_are_machine_lines()
    ensures { (small : Small) (commands : List SmallCommand) (ms : List Message) (more : List (Slot × List ℕ)) → AllByRecursion AsksForTarget commands → IsFaithful ms
        → sends_of ms ≡ sends_from small commands [] (table ms) ++ more → ActedAreTaken (parties_from small commands [] (table ms)) ms
        → lines_from small commands [] (table ms) ≡ machine_lines small commands at_start }
{}

/// In states that correspond the server takes the bytes sent of a request for what the machine takes the request for.
pub fn requests_are_taken_alike()
    ensures { (small : Small) (machine : Machine) (parties : List Party) (sends : List (Slot × List ℕ)) (k m : ℕ) → Corresponds machine parties sends
        → reads_request small (bytes_at (slot_of k m false) sends) ≡ asked_by small (message_at (slot_of k m false) machine.messages) }
{}

/// In states that correspond a client reads of the bytes sent of a reply the reply that the machine sent.
pub fn replies_are_read_alike()
    ensures { (machine : Machine) (parties : List Party) (sends : List (Slot × List ℕ)) (k m : ℕ) → Corresponds machine parties sends
        → reads_reply (bytes_at (slot_of k m true) sends) ≡ replied_by (message_at (slot_of k m true) machine.messages) }
{}

/// The machine's transcript of one load and its page is the text that is written out.
pub fn page_example()
    ensures { (small : Small) → small.service ≡ codes "hello" → small.text ≡ codes "hi" → machine_transcript small page_commands ≡ page_transcript }
{}

/// The machine's transcript of a load that no service answers, with commands that find nothing to act on, is the text that
/// is written out.
pub fn refused_example()
    ensures { (small : Small) → small.service ≡ codes "hello" → machine_transcript small refused_commands ≡ refused_transcript }
{}

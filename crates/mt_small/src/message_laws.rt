//! Laws of the messages and of their readers, on the definitions alone. A law is the contract of a function that does
//! nothing.
ghost use Rattle.std.specs.Prelude.{◌≡◌, ◌<◌, ◌++◌, ◌↔◌, ℕ, true, List, [], length, encode_utf8_all, Some};
ghost use Rattle.std.specs.List.{AllByRecursion};
ghost use Rattle.mt_small.specs.declared.application.Small.{Small};
ghost use Rattle.mt_small.specs.declared.command.SmallCommand.{SmallCommand};
ghost use Rattle.mt_small.specs.declared.message.Asked.{Asked};
ghost use Rattle.mt_small.specs.declared.message.Failure.{Failure};
ghost use Rattle.mt_small.specs.declared.message.Reply.{Reply};
ghost use Rattle.mt_small.specs.Application.{IsSmall};
ghost use Rattle.mt_small.specs.Name.{is_target};
ghost use Rattle.mt_small.specs.Paragraph.{is_paragraph};
ghost use Rattle.mt_small.specs.Readable.{IsReadableReply, IsReadable, AsksForTarget};
ghost use Rattle.mt_small.specs.Reading.{request_in, page_in, failure_in, reads_request, reads_reply, understood, server_job};
ghost use Rattle.mt_small.specs.Schedule.{SpellsSchedule};
ghost use Rattle.mt_small.specs.Wire.{Message, request, wire, load_wire, page_wire, failure_wire, reply_wire};

/// A request reads as the one target that it was written with, and nothing else reads as a request.
pub fn requests_are_read_exactly()
    ensures { (bytes target : List ℕ) → (request_in bytes ≡ Some target) ↔ ((is_target target ≡ true) × (bytes ≡ load_wire target)) }
{}

/// A page reads as the one paragraph that it was written with, and nothing else reads as a page.
pub fn pages_are_read_exactly()
    ensures { (bytes text : List ℕ) → (page_in bytes ≡ Some text) ↔ ((is_paragraph text ≡ true) × (bytes ≡ page_wire text)) }
{}

/// A failure reads as itself, and nothing else reads as one.
pub fn failures_are_read_exactly()
    ensures { (bytes : List ℕ) (failure : Failure) → (failure_in bytes ≡ Some failure) ↔ (bytes ≡ failure_wire failure) }
{}

/// A reply reads as itself, and nothing else reads as a reply.
pub fn replies_are_read_exactly()
    ensures { (bytes : List ℕ) (reply : Reply) → (reads_reply bytes ≡ Some reply) ↔ (IsReadableReply reply × (bytes ≡ reply_wire reply)) }
{}

/// The server takes the bytes of a request for what it takes the request itself for.
pub fn requests_are_taken_as_meant()
    ensures { (small : Small) (target : List ℕ) → is_target (encode_utf8_all target) ≡ true → reads_request small (wire (request target)) ≡ understood small (Some (encode_utf8_all target)) }
{}

/// The service's name and the text of each application are such as are accepted.
pub fn applications_are_small()
    ensures { (small : Small) → IsSmall small }
{}

/// What the server answers is a reply that a client reads.
pub fn answers_are_readable()
    ensures { (small : Small) (asked : Asked) → IsReadableReply (server_job small asked) }
{}

/// No two messages, be they requests or replies, have one text, and no message's text is a proper prefix of another's.
pub fn texts_are_unique()
    ensures { (a b : Message) (rest : List ℕ) → IsReadable a → IsReadable b → wire b ≡ wire a ++ rest → (a ≡ b) × (rest ≡ []) }
{}

/// Each message has fewer than 65,537 bytes.
pub fn texts_are_short()
    ensures { (message : Message) → IsReadable message → length (wire message) < 65537 }
{}

/// Each request of a schedule asks for a target.
pub fn schedules_ask_for_targets()
    ensures { (text : List ℕ) (commands : List SmallCommand) → SpellsSchedule text commands → AllByRecursion AsksForTarget commands }
{}

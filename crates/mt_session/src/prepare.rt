ghost use Rattle.std.specs.Prelude.{◌≡◌, ◌+◌, ◌++◌, [], true, false, length, Some, IfOk, OnOk, IsSome, encode_utf8_all};
ghost use Rattle.mt_small.specs.declared.command.SmallCommand.TheVariants.{Load, Serve, Deliver};
ghost use Rattle.mt_small.specs.Wire.{load_wire, reply_wire};
ghost use Rattle.mt_small.specs.Reading.{reads_request, reads_reply, server_job};
ghost use Rattle.mt_session.specs.declared.party.Standing.TheVariants.{Answered, Over};
ghost use Rattle.mt_session.specs.Parties.{standing_of, has_party, message_count, page_count, with_request, with_standing};
ghost use Rattle.mt_session.specs.Transcript.{echo, entry, reply_lines, pages_in, skip_line};

use crate::parties::{add_request, has_party, message_count, page_count, set_standing};
use crate::party::{Party, Standing};
use crate::transcript::{
    append_echo, append_entry, append_load_echo, append_reply_lines, append_skip,
};
use mt_small::{
    Reply, Small, SmallCommand, answer, read_reply, read_request, write_load, write_reply,
};
use mt_tree::{NoMemory, Text};
use std::alloc::Global;

/// A message that is to be sent, and the lines that are to be written.
#[derive(Drop)]
pub struct Prepared {
    /// Its number among those of its client, from 1.
    pub message: u64,
    pub bytes: Vec<u8>,
    pub lines: Vec<u8>,
}

/// What a load does before its request is sent.
///
/// Each message is kept, so memory ends before their number does.
pub fn prepare_load(
    alloc: Global,
    parties: &mut Vec<Party>,
    client: u32,
    target: &Text,
) -> Result<Prepared, NoMemory>
    ensures message { IfOk result (λ p. p.message ≡ message_count client parties.old.items + 1) }
    ensures bytes { IfOk result (λ p. p.bytes.items ≡ load_wire (encode_utf8_all target.now)) }
    ensures lines { IfOk result (λ p. p.lines.items ≡ echo (Load client target.now)
        ++ entry client (message_count client parties.old.items + 1) false (load_wire (encode_utf8_all target.now))) }
    ensures parties { OnOk result (parties.new.items ≡ with_request client parties.old.items) }
{
    let message = match message_count(parties, client).checked_add(1) {
        Some(message) => message,
        None => return Err(NoMemory),
    };
    let mut bytes = Vec::new(alloc);
    write_load(target, &mut bytes)?;
    let mut lines = Vec::new(alloc);
    append_load_echo(alloc, &mut lines, client, target.as_bytes())?;
    append_entry(alloc, &mut lines, client, message, false, &bytes)?;
    add_request(alloc, parties, client)?;
    Ok(Prepared {
        message,
        bytes,
        lines,
    })
}

/// The bytes of what the server answers to these.
fn reply_to(alloc: Global, small: &Small, bytes: &[u8]) -> Result<Vec<u8>, NoMemory>
    ensures { IfOk result (λ reply. reply.items ≡ reply_wire (server_job small.now (reads_request small.now bytes.now))) }
{
    let asked = read_request(alloc, small, bytes)?;
    let reply = answer(small, asked)?;
    let mut written = Vec::new(alloc);
    write_reply(alloc, &reply, &mut written)?;
    Ok(written)
}

/// What the server does before its reply is sent, for the bytes of the request.
pub fn prepare_reply(
    alloc: Global,
    small: &Small,
    parties: &mut Vec<Party>,
    client: u32,
    message: u64,
    bytes: &[u8],
) -> Result<Prepared, NoMemory>
    requires { IsSome (standing_of client message parties.old.items) }
    ensures bytes { IfOk result (λ p. p.bytes.items ≡ reply_wire (server_job small.now (reads_request small.now bytes.now))) }
    ensures lines { IfOk result (λ p. p.lines.items ≡ echo (Serve client message)
        ++ entry client message true (reply_wire (server_job small.now (reads_request small.now bytes.now)))) }
    ensures parties { OnOk result (parties.new.items ≡ with_standing client message Answered 0 parties.old.items) }
{
    let reply = reply_to(alloc, small, bytes)?;
    let mut lines = Vec::new(alloc);
    append_echo(alloc, &mut lines, &SmallCommand::Serve(client, message))?;
    append_entry(alloc, &mut lines, client, message, true, &reply)?;
    set_standing(parties, client, message, Standing::Answered, 0)?;
    Ok(Prepared {
        message,
        bytes: reply,
        lines,
    })
}

fn pages_in(reply: &Option<Reply>) -> u64
    ensures { result ≡ pages_in reply.now }
{
    match reply {
        Some(Reply::Page(_text)) => 1,
        Some(Reply::Failure(_failure)) => 0,
        None => 0,
    }
}

/// What a client does with the bytes of a reply: the lines that it writes.
pub fn take_reply(
    alloc: Global,
    parties: &mut Vec<Party>,
    client: u32,
    message: u64,
    bytes: &[u8],
) -> Result<Vec<u8>, NoMemory>
    requires { IsSome (standing_of client message parties.old.items) }
    ensures lines { IfOk result (λ lines. lines.items ≡ echo (Deliver client message)
        ++ reply_lines (page_count client parties.old.items) (reads_reply bytes.now)) }
    ensures parties { OnOk result (parties.new.items
        ≡ with_standing client message Over (pages_in (reads_reply bytes.now)) parties.old.items) }
{
    let reply = read_reply(alloc, bytes)?;
    let mut lines = Vec::new(alloc);
    append_echo(alloc, &mut lines, &SmallCommand::Deliver(client, message))?;
    append_reply_lines(alloc, &mut lines, page_count(parties, client), &reply)?;
    set_standing(parties, client, message, Standing::Over, pages_in(&reply))?;
    Ok(lines)
}

/// The lines of a command that finds nothing to act on.
pub fn skip_lines(
    alloc: Global,
    parties: &[Party],
    client: u32,
    command: &SmallCommand,
) -> Result<Vec<u8>, NoMemory>
    ensures { IfOk result (λ lines. lines.items ≡ echo command.now ++ skip_line (has_party client parties.now)) }
{
    let mut lines = Vec::new(alloc);
    append_echo(alloc, &mut lines, command)?;
    append_skip(&mut lines, has_party(parties, client))?;
    Ok(lines)
}

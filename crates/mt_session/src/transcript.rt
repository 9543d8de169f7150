ghost use Rattle.std.specs.Prelude.{◌≡◌, ◌++◌, ◌+◌, OnOk, decimal, codes, length, encode_utf8_all};
ghost use Rattle.mt_small.specs.Schedule.{message_name};
ghost use Rattle.mt_session.specs.Transcript.{load_head, echo, kind_word, entry_head, entry, page_line, page_lines, failure_line, reply_lines, skip_line, end_line, line_end};

use mt_small::{Failure, Reply, SmallCommand};
use mt_tree::{NoMemory, append, append_count};
use std::alloc::Global;

fn append_name(alloc: Global, into: &mut Vec<u8>, client: u32, message: u64) -> Result<(), NoMemory>
    ensures { OnOk result (into.new.items ≡ into.old.items ++ message_name client message) }
{
    append_count(alloc, u64::from(client), into)?;
    append(b".", into)?;
    append_count(alloc, message, into)
}

fn append_line(into: &mut Vec<u8>, bytes: &[u8]) -> Result<(), NoMemory>
    ensures { OnOk result (into.new.items ≡ into.old.items ++ (bytes.now ++ line_end)) }
{
    append(bytes, into)?;
    append(b"\n", into)
}

fn append_load_head(alloc: Global, into: &mut Vec<u8>, client: u32) -> Result<(), NoMemory>
    ensures { OnOk result (into.new.items ≡ into.old.items ++ load_head client) }
{
    append(b"> load ", into)?;
    append_count(alloc, u64::from(client), into)?;
    append(b" ", into)
}

/// Appends a load as it stands in the transcript, with its target in UTF-8.
pub fn append_load_echo(
    alloc: Global,
    into: &mut Vec<u8>,
    client: u32,
    target: &[u8],
) -> Result<(), NoMemory>
    ensures { OnOk result (into.new.items ≡ into.old.items ++ (load_head client ++ target.now ++ line_end)) }
{
    append_load_head(alloc, into, client)?;
    append_line(into, target)
}

fn append_message_echo(
    alloc: Global,
    into: &mut Vec<u8>,
    word: &[u8],
    client: u32,
    message: u64,
) -> Result<(), NoMemory>
    ensures { OnOk result (into.new.items ≡ into.old.items ++ (word.now ++ message_name client message ++ line_end)) }
{
    append(word, into)?;
    append_name(alloc, into, client, message)?;
    append(b"\n", into)
}

/// Appends a command as it stands in the transcript.
pub fn append_echo(
    alloc: Global,
    into: &mut Vec<u8>,
    command: &SmallCommand,
) -> Result<(), NoMemory>
    ensures { OnOk result (into.new.items ≡ into.old.items ++ echo command.now) }
{
    match command {
        SmallCommand::Load(client, target) => {
            append_load_echo(alloc, into, *client, target.as_bytes())
        }
        SmallCommand::Serve(client, message) => {
            append_message_echo(alloc, into, b"> serve ", *client, *message)
        }
        SmallCommand::Deliver(client, message) => {
            append_message_echo(alloc, into, b"> deliver ", *client, *message)
        }
    }
}

fn append_kind(into: &mut Vec<u8>, is_reply: bool) -> Result<(), NoMemory>
    ensures { OnOk result (into.new.items ≡ into.old.items ++ kind_word is_reply) }
{
    if is_reply {
        append(b" reply ", into)
    } else {
        append(b" request ", into)
    }
}

fn append_entry_head(
    alloc: Global,
    into: &mut Vec<u8>,
    client: u32,
    message: u64,
    is_reply: bool,
) -> Result<(), NoMemory>
    ensures { OnOk result (into.new.items ≡ into.old.items ++ entry_head client message is_reply) }
{
    append(b"message ", into)?;
    append_name(alloc, into, client, message)?;
    append_kind(into, is_reply)
}

fn append_number_line(alloc: Global, into: &mut Vec<u8>, number: u64) -> Result<(), NoMemory>
    ensures { OnOk result (into.new.items ≡ into.old.items ++ (decimal number ++ line_end)) }
{
    append_count(alloc, number, into)?;
    append(b"\n", into)
}

/// Appends the entry of a message that is sent, with its length in bytes.
pub fn append_entry(
    alloc: Global,
    into: &mut Vec<u8>,
    client: u32,
    message: u64,
    is_reply: bool,
    bytes: &[u8],
) -> Result<(), NoMemory>
    ensures { OnOk result (into.new.items ≡ into.old.items ++ entry client message is_reply bytes.now) }
{
    append_entry_head(alloc, into, client, message, is_reply)?;
    append_number_line(alloc, into, bytes.len() as u64)?;
    append_line(into, bytes)
}

fn append_page_line(alloc: Global, into: &mut Vec<u8>, number: u64) -> Result<(), NoMemory>
    ensures { OnOk result (into.new.items ≡ into.old.items ++ page_line number) }
{
    append(b"page ", into)?;
    append_count(alloc, number, into)?;
    append(b" 2\nelement 1 0 p\ntext 2 1 \"", into)
}

fn append_page_lines(
    alloc: Global,
    into: &mut Vec<u8>,
    number: u64,
    text: &[u8],
) -> Result<(), NoMemory>
    ensures { OnOk result (into.new.items ≡ into.old.items ++ page_lines number text.now) }
{
    append_page_line(alloc, into, number)?;
    append(text, into)?;
    append(b"\"\n", into)
}

fn append_failure(into: &mut Vec<u8>, failure: Failure) -> Result<(), NoMemory>
    ensures { OnOk result (into.new.items ≡ into.old.items ++ failure_line failure) }
{
    match failure {
        Failure::BadRequest => append(b"failed 400 \"bad request\"\n", into),
        Failure::NotFound => append(b"failed 404 \"no such service\"\n", into),
    }
}

/// Appends what a client that has read so many pages writes of a reply, or of bytes that are none.
///
/// Each page is a message that is kept, so memory ends before their number does.
pub fn append_reply_lines(
    alloc: Global,
    into: &mut Vec<u8>,
    pages: u64,
    reply: &Option<Reply>,
) -> Result<(), NoMemory>
    ensures { OnOk result (into.new.items ≡ into.old.items ++ reply_lines pages reply.now) }
{
    match reply {
        Some(Reply::Page(text)) => match pages.checked_add(1) {
            Some(number) => append_page_lines(alloc, into, number, text.as_bytes()),
            None => Err(NoMemory),
        },
        Some(Reply::Failure(failure)) => append_failure(into, *failure),
        None => append(b"unreadable\n", into),
    }
}

/// Appends the line of a command that finds nothing to act on, for a client that is there or not.
pub fn append_skip(into: &mut Vec<u8>, is_known: bool) -> Result<(), NoMemory>
    ensures { OnOk result (into.new.items ≡ into.old.items ++ skip_line is_known) }
{
    if is_known {
        append(b"skip no-message\n", into)
    } else {
        append(b"skip no-client\n", into)
    }
}

/// Appends the last line of a transcript, after so many commands.
pub fn append_end(alloc: Global, into: &mut Vec<u8>, count: u64) -> Result<(), NoMemory>
    ensures { OnOk result (into.new.items ≡ into.old.items ++ end_line count) }
{
    append(b"end ", into)?;
    append_number_line(alloc, into, count)
}

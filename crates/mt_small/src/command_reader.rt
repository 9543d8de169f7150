ghost use Rattle.std.specs.Prelude.{◌≡◌, IfOk, option_copied, drop, Some};
ghost use Rattle.std.specs.Str.{is_utf8};
ghost use Rattle.mt_small.specs.Number.{number_in};
ghost use Rattle.mt_small.specs.CommandReader.{after_word, load_with, load_in, message_in, command_in, kind_of};

use crate::command::SmallCommand;
use crate::name::target_fits;
use crate::number::number_of;
use crate::plain::utf8_text;
use crate::splitting::{after_front, after_spaces, place_of};
use mt_tree::NoMemory;
use std::alloc::Global;
use std::str;

/// What a line of a schedule is.
#[derive(Drop)]
pub enum LineKind {
    /// Empty, or a comment.
    Skipped,
    /// It spells this command.
    Command(SmallCommand),
    /// None of these.
    Bad,
}

/// What follows this word and one or more spaces.
fn after_word<'a>(word: &[u8], line: &'a [u8]) -> Option<&'a [u8]>
    ensures { option_copied result ≡ after_word word.now line.now }
{
    let rest = after_front(word, line)?;
    after_spaces(rest)
}

/// The client that a word names.
fn client_of(word: &[u8]) -> Option<u32>
    ensures { result ≡ number_in 64 word.now }
{
    let client = number_of(64, word)?;
    Some(client as u32)
}

/// The load of this target, where the target fits.
fn load_of(alloc: Global, client: u32, target: &[u8]) -> Result<Option<SmallCommand>, NoMemory>
    ensures { IfOk result (λ command. command ≡ load_with (Some client) (Some target.now)) }
{
    if target_fits(target) {
        Ok(Some(SmallCommand::Load(client, utf8_text(alloc, target)?)))
    } else {
        Ok(None)
    }
}

/// The load of a client and a target, which stand behind the word `load`.
fn read_load(alloc: Global, words: &[u8]) -> Result<Option<SmallCommand>, NoMemory>
    ensures { IfOk result (λ command. command ≡ load_in words.now) }
{
    let (client, rest) = words.split_at(place_of(b' ', words));
    match client_of(client) {
        Some(client) => match after_spaces(rest) {
            Some(target) => load_of(alloc, client, target),
            None => Ok(None),
        },
        None => Ok(None),
    }
}

/// What stands behind the dot, or nothing where there is no dot.
fn after_dot(bytes: &[u8]) -> &[u8]
    ensures { result.now ≡ drop 1 bytes.now }
{
    match bytes.split_first() {
        Some((_dot, rest)) => rest,
        None => bytes,
    }
}

/// The client and the message that a word such as `1.2` names.
fn message_of(word: &[u8]) -> Option<(u32, u64)>
    ensures { result ≡ message_in word.now }
{
    let (client, rest) = word.split_at(place_of(b'.', word));
    let client = client_of(client)?;
    let message = number_of(1_000_000, after_dot(rest))?;
    Some((client, message))
}

/// The command of a line.
fn read_command(alloc: Global, line: &[u8]) -> Result<Option<SmallCommand>, NoMemory>
    ensures { IfOk result (λ command. command ≡ command_in line.now) }
{
    if let Some(words) = after_word(b"load", line) {
        return read_load(alloc, words);
    }
    if let Some(word) = after_word(b"serve", line) {
        return Ok(match message_of(word) {
            Some((client, message)) => Some(SmallCommand::Serve(client, message)),
            None => None,
        });
    }
    if let Some(word) = after_word(b"deliver", line) {
        return Ok(match message_of(word) {
            Some((client, message)) => Some(SmallCommand::Deliver(client, message)),
            None => None,
        });
    }
    Ok(None)
}

/// Whether the bytes are UTF-8.
fn is_utf8(bytes: &[u8]) -> bool
    ensures { result ≡ is_utf8 bytes.now }
{
    match str::from_utf8(bytes) {
        Ok(_text) => true,
        Err(_refused) => false,
    }
}

/// What a line is.
pub fn kind_of(alloc: Global, line: &[u8]) -> Result<LineKind, NoMemory>
    ensures { IfOk result (λ kind. kind ≡ kind_of line.now) }
{
    if line.is_empty() {
        return Ok(LineKind::Skipped);
    }
    if line[0] == b'#' {
        return Ok(if is_utf8(line) {
            LineKind::Skipped
        } else {
            LineKind::Bad
        });
    }
    match read_command(alloc, line)? {
        Some(command) => Ok(LineKind::Command(command)),
        None => Ok(LineKind::Bad),
    }
}

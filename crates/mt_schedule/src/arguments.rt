ghost use Rattle.std.specs.Prelude.{◌≡◌, ◌<◌, ◌^◌, IfOk, drop, Some};
ghost use Rattle.mt_schedule.specs.Reading.{client_in, load_with, load_in, acted, put, put_in, event_of, event_in, message_in, node_in, text_in, arguments_in};
ghost use Rattle.mt_tree.specs.declared.event.EventKind.{EventKind};

use crate::command::Command;
use crate::field_text::field_text;
use crate::keyword::Keyword;
use crate::node::node_of;
use crate::version::client_limit;
use mt_http_types::Target;
use mt_lines::{after_spaces, number_of, place_of};
use mt_tree::{EventKind, NoMemory};
use std::alloc::Global;

/// The client that a word names.
fn client_of(version: u8, word: &[u8]) -> Option<u32>
    ensures { result ≡ client_in version word.now }
{
    let client = number_of(client_limit(version), word)?;
    Some(client as u32)
}

/// The load of this target, where the target fits.
fn load_of(alloc: Global, client: u32, target: &[u8]) -> Result<Option<Command>, NoMemory>
    ensures { IfOk result (λ command. command ≡ load_with (Some client) (Some target.now)) }
{
    match Target::read(alloc, target)? {
        Some(target) => Ok(Some(Command::Load(client, target))),
        None => Ok(None),
    }
}

/// The load of a client and a target.
fn read_load(alloc: Global, version: u8, words: &[u8]) -> Result<Option<Command>, NoMemory>
    ensures { IfOk result (λ command. command ≡ load_in version words.now) }
{
    let (client, rest) = words.split_at(place_of(b' ', words));
    match client_of(version, client) {
        Some(client) => match after_spaces(rest) {
            Some(target) => load_of(alloc, client, target),
            None => Ok(None),
        },
        None => Ok(None),
    }
}

/// A click on an element, or its change.
fn act(
    alloc: Global,
    kind: EventKind,
    client: u32,
    node: &[u8],
) -> Result<Option<Command>, NoMemory>
    ensures { IfOk result (λ command. command ≡ acted kind client (node_in node.now)) }
{
    match node_of(alloc, node)? {
        Some(node) => Ok(Some(Command::Event(client, kind, node, None))),
        None => Ok(None),
    }
}

/// The text that is put into an element.
fn put_text(
    alloc: Global,
    client: u32,
    node: &[u8],
    json: &[u8],
) -> Result<Option<Command>, NoMemory>
    ensures { IfOk result (λ command. command ≡ put client (node_in node.now) (text_in json.now)) }
{
    match node_of(alloc, node)? {
        Some(node) => match field_text(alloc, json)? {
            Some(text) => Ok(Some(Command::Event(client, EventKind::Input, node, Some(text)))),
            None => Ok(None),
        },
        None => Ok(None),
    }
}

/// The text that is put into an element, where both stand in these words.
fn read_put(alloc: Global, client: u32, words: &[u8]) -> Result<Option<Command>, NoMemory>
    ensures { IfOk result (λ command. command ≡ event_of EventKind.Input client words.now) }
{
    let (node, rest) = words.split_at(place_of(b' ', words));
    match after_spaces(rest) {
        Some(json) => put_text(alloc, client, node, json),
        None => Ok(None),
    }
}

/// The event of this kind and client.
fn event_of(
    alloc: Global,
    kind: EventKind,
    client: u32,
    words: &[u8],
) -> Result<Option<Command>, NoMemory>
    ensures { IfOk result (λ command. command ≡ event_of kind client words.now) }
{
    match kind {
        EventKind::Click => act(alloc, EventKind::Click, client, words),
        EventKind::Input => read_put(alloc, client, words),
        EventKind::Change => act(alloc, EventKind::Change, client, words),
    }
}

/// The event of a client.
fn read_event(
    alloc: Global,
    version: u8,
    kind: EventKind,
    words: &[u8],
) -> Result<Option<Command>, NoMemory>
    ensures { IfOk result (λ command. command ≡ event_in version kind words.now) }
{
    let (client, rest) = words.split_at(place_of(b' ', words));
    match client_of(version, client) {
        Some(client) => match after_spaces(rest) {
            Some(words) => event_of(alloc, kind, client, words),
            None => Ok(None),
        },
        None => Ok(None),
    }
}

/// What stands behind the dot, or nothing where there is no dot.
fn after_dot(bytes: &[u8]) -> &[u8]
    ensures { result.now ≡ drop 1 bytes.now }
{
    match bytes.split_first() {
        Some((_dot, rest)) => rest,
        None => bytes,
    }
}

/// The client and the message that a word such as `1.2` names.
fn message_of(version: u8, word: &[u8]) -> Option<(u32, u64)>
    ensures { result ≡ message_in version word.now }
{
    let (client, rest) = word.split_at(place_of(b'.', word));
    let client = client_of(version, client)?;
    let message = number_of(1_000_000, after_dot(rest))?;
    Some((client, message))
}

/// The command with this first word, and these words behind it.
pub fn read_arguments(
    alloc: Global,
    version: u8,
    keyword: Keyword,
    words: &[u8],
) -> Result<Option<Command>, NoMemory>
    ensures { IfOk result (λ command. command ≡ arguments_in version keyword words.now) }
{
    match keyword {
        Keyword::Load => read_load(alloc, version, words),
        Keyword::Event(kind) => read_event(alloc, version, kind, words),
        Keyword::Serve => Ok(match message_of(version, words) {
            Some((client, message)) => Some(Command::Serve(client, message)),
            None => None,
        }),
        Keyword::Deliver => Ok(match message_of(version, words) {
            Some((client, message)) => Some(Command::Deliver(client, message)),
            None => None,
        }),
        Keyword::Lose => Ok(match message_of(version, words) {
            Some((client, message)) => Some(Command::Lose(client, message)),
            None => None,
        }),
    }
}

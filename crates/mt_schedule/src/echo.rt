ghost use Rattle.std.specs.Prelude.{◌≡◌, ◌∷◌, ◌++◌, [], OnErr, OnOk, decimal};
ghost use Rattle.std.specs.Io.{StartsWith};
ghost use Rattle.mt_tree.specs.declared.event.EventKind.{EventKind};
ghost use Rattle.mt_schedule.specs.Command.{message_name, kind_word, node_text, command_word};
ghost use Rattle.mt_schedule.specs.Echo.{put_text, arguments_text, command_text};

use crate::command::Command;
use mt_json::json_text;
use mt_tree::{EventKind, NoMemory, NodeName, Text, append, append_count};
use std::alloc::Global;

#[tactic(auto, using(mt_tree::proofs::Fronts::front_of_front, mt_tree::proofs::Fronts::front_of_more))]
fn append_kind(kind: EventKind, into: &mut Vec<u8>) -> Result<(), NoMemory>
    ensures text { OnOk result (into.new.items ≡ into.old.items ++ kind_word kind) }
    ensures kept { OnErr result (StartsWith into.new.items into.old.items) }
{
    match kind {
        EventKind::Click => append(b"click", into),
        EventKind::Input => append(b"input", into),
        EventKind::Change => append(b"change", into),
    }
}

#[tactic(auto, using(mt_tree::proofs::Fronts::front_of_front, mt_tree::proofs::Fronts::front_of_more))]
fn append_word(command: &Command, into: &mut Vec<u8>) -> Result<(), NoMemory>
    ensures text { OnOk result (into.new.items ≡ into.old.items ++ command_word command.now) }
    ensures kept { OnErr result (StartsWith into.new.items into.old.items) }
{
    match command {
        Command::Load(_, _) => append(b"load", into),
        Command::Event(_, kind, _, _) => append_kind(*kind, into),
        Command::Serve(_, _) => append(b"serve", into),
        Command::Deliver(_, _) => append(b"deliver", into),
        Command::Lose(_, _) => append(b"lose", into),
    }
}

#[tactic(auto, using(mt_tree::proofs::Fronts::front_of_front, mt_tree::proofs::Fronts::front_of_more))]
fn append_client(alloc: Global, client: u32, into: &mut Vec<u8>) -> Result<(), NoMemory>
    ensures text { OnOk result (into.new.items ≡ into.old.items ++ (decimal client ++ 32 ∷ [])) }
    ensures kept { OnErr result (StartsWith into.new.items into.old.items) }
{
    append_count(alloc, u64::from(client), into)?;
    append(b" ", into)
}

#[tactic(auto, using(mt_tree::proofs::Fronts::front_of_front, mt_tree::proofs::Fronts::front_of_more))]
fn append_node(alloc: Global, node: &NodeName, into: &mut Vec<u8>) -> Result<(), NoMemory>
    ensures text { OnOk result (into.new.items ≡ into.old.items ++ node_text node.now) }
    ensures kept { OnErr result (StartsWith into.new.items into.old.items) }
{
    match node {
        NodeName::Id(id) => {
            append(b"#", into)?;
            append(id.as_bytes(), into)
        }
        NodeName::Number(number) => {
            append(b"@", into)?;
            append_count(alloc, u64::from(*number), into)
        }
    }
}

#[tactic(auto, using(mt_tree::proofs::Fronts::front_of_front, mt_tree::proofs::Fronts::front_of_more))]
fn append_put(text: &Option<Text>, into: &mut Vec<u8>) -> Result<(), NoMemory>
    ensures text { OnOk result (into.new.items ≡ into.old.items ++ put_text text.now) }
    ensures kept { OnErr result (StartsWith into.new.items into.old.items) }
{
    match text {
        Some(text) => {
            append(b" ", into)?;
            json_text(text, into)
        }
        None => Ok(()),
    }
}

#[tactic(auto, using(mt_tree::proofs::Fronts::front_of_front, mt_tree::proofs::Fronts::front_of_more))]
fn append_message(
    alloc: Global,
    client: u32,
    message: u64,
    into: &mut Vec<u8>,
) -> Result<(), NoMemory>
    ensures text { OnOk result (into.new.items ≡ into.old.items ++ message_name client message) }
    ensures kept { OnErr result (StartsWith into.new.items into.old.items) }
{
    append_count(alloc, u64::from(client), into)?;
    append(b".", into)?;
    append_count(alloc, message, into)
}

#[tactic(auto, using(mt_tree::proofs::Fronts::front_of_front, mt_tree::proofs::Fronts::front_of_more))]
fn append_arguments(alloc: Global, command: &Command, into: &mut Vec<u8>) -> Result<(), NoMemory>
    ensures text { OnOk result (into.new.items ≡ into.old.items ++ arguments_text command.now) }
    ensures kept { OnErr result (StartsWith into.new.items into.old.items) }
{
    match command {
        Command::Load(client, target) => {
            append_client(alloc, *client, into)?;
            append(target.0.as_bytes(), into)
        }
        Command::Event(client, _, node, text) => {
            append_client(alloc, *client, into)?;
            append_node(alloc, node, into)?;
            append_put(text, into)
        }
        Command::Serve(client, message)
        | Command::Deliver(client, message)
        | Command::Lose(client, message) => append_message(alloc, *client, *message, into),
    }
}

/// Appends the command as a transcript shows it: its words with single spaces between them, and a text that is put in as its
/// JSON text, in which only a quote, a backslash and the characters below U+0020 are escaped. No line feed follows.
///
/// # Errors
/// `NoMemory`; a beginning of the text may then have been appended.
#[tactic(auto, using(mt_tree::proofs::Fronts::front_of_front, mt_tree::proofs::Fronts::front_of_more))]
pub fn write_command(alloc: Global, command: &Command, into: &mut Vec<u8>) -> Result<(), NoMemory>
    ensures text { OnOk result (into.new.items ≡ into.old.items ++ command_text command.now) }
    ensures kept { OnErr result (StartsWith into.new.items into.old.items) }
{
    append_word(command, into)?;
    append(b" ", into)?;
    append_arguments(alloc, command, into)
}

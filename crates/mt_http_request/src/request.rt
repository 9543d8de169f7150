ghost use Rattle.std.specs.Prelude.{◌≡◌, ◌++◌, OnErr, OnOk};
ghost use Rattle.std.specs.Io.{StartsWith};
ghost use Rattle.mt_http_request.specs.RequestText.{load_end, load_text, post_end, post_head, post_middle, post_text, request_text};

use crate::target::{append_path, text_of};
use mt_http_types::{Call, Request};
use mt_tree::{NoMemory, Text, append, append_count};
use std::alloc::Global;

#[tactic(auto, unfolding(crate::specs::RequestText::load_end))]
fn append_load_end(into: &mut Vec<u8>) -> Result<(), NoMemory>
    ensures text { OnOk result (into.new.items ≡ into.old.items ++ load_end) }
    ensures kept { OnErr result (into.new.items ≡ into.old.items) }
{
    append(
        b" HTTP/1.1\r\nHost: localhost\r\nConnection: close\r\n\r\n",
        into,
    )
}

#[tactic(auto, using(mt_tree::proofs::Fronts::front_of_front, mt_tree::proofs::Fronts::front_of_more))]
fn append_load(target: &[u8], into: &mut Vec<u8>) -> Result<(), NoMemory>
    ensures text { OnOk result (into.new.items ≡ into.old.items ++ load_text target.now) }
    ensures kept { OnErr result (StartsWith into.new.items into.old.items) }
{
    append(b"GET ", into)?;
    append(target, into)?;
    append_load_end(into)
}

#[tactic(auto, unfolding(crate::specs::RequestText::post_middle))]
fn append_post_middle(into: &mut Vec<u8>) -> Result<(), NoMemory>
    ensures text { OnOk result (into.new.items ≡ into.old.items ++ post_middle) }
    ensures kept { OnErr result (into.new.items ≡ into.old.items) }
{
    append(
        b" HTTP/1.1\r\nHost: localhost\r\nContent-Type: application/json\r\nContent-Length: ",
        into,
    )
}

#[tactic(auto, unfolding(crate::specs::RequestText::post_end))]
fn append_post_end(into: &mut Vec<u8>) -> Result<(), NoMemory>
    ensures text { OnOk result (into.new.items ≡ into.old.items ++ post_end) }
    ensures kept { OnErr result (into.new.items ≡ into.old.items) }
{
    append(b"\r\nConnection: close\r\n\r\n", into)
}

#[tactic(auto, using(mt_tree::proofs::Fronts::front_of_front, mt_tree::proofs::Fronts::front_of_more))]
fn append_post_head(
    alloc: Global,
    service: &Text,
    size: u64,
    into: &mut Vec<u8>,
) -> Result<(), NoMemory>
    ensures text { OnOk result (into.new.items ≡ into.old.items ++ post_head service.now size) }
    ensures kept { OnErr result (StartsWith into.new.items into.old.items) }
{
    append(b"POST ", into)?;
    append_path(alloc, service, into)?;
    append_post_middle(into)?;
    append_count(alloc, size, into)?;
    append_post_end(into)
}

#[tactic(auto, using(mt_tree::proofs::Fronts::front_of_front, mt_tree::proofs::Fronts::front_of_more))]
fn append_post(alloc: Global, call: &Call, into: &mut Vec<u8>) -> Result<(), NoMemory>
    ensures text { OnOk result (into.new.items ≡ into.old.items ++ post_text call.now.service call.now.arguments) }
    ensures kept { OnErr result (StartsWith into.new.items into.old.items) }
{
    let body = text_of(alloc, &call.arguments)?;
    append_post_head(alloc, &call.service, body.len() as u64, into)?;
    append(&body, into)
}

/// Appends the request in HTTP/1.1, with the fields `Host: localhost` and `Connection: close`.
///
/// A load is a `GET` of its target. A call is a `POST` to `/hop/` and the service's name, in which each byte but ASCII
/// letters, digits, `-`, `.`, `_` and `~` is escaped; its body is the tagged JSON of the arguments, with the fields
/// `Content-Type: application/json` and `Content-Length` in bytes.
///
/// # Errors
/// `NoMemory`; a beginning of the text may then have been appended.
pub fn write_request(alloc: Global, request: &Request, into: &mut Vec<u8>) -> Result<(), NoMemory>
    ensures text { OnOk result (into.new.items ≡ into.old.items ++ request_text request.now) }
    ensures kept { OnErr result (StartsWith into.new.items into.old.items) }
{
    match request {
        Request::Load(target) => append_load(target.0.as_bytes(), into),
        Request::Post(call) => append_post(alloc, call, into),
    }
}

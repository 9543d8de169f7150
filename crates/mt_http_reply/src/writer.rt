ghost use Rattle.std.specs.Prelude.{◌≡◌, ◌++◌, ◌==◌, OnErr, OnOk, true};
ghost use Rattle.std.specs.List.{list_any};
ghost use Rattle.std.specs.Io.{StartsWith};
ghost use Rattle.mt_http_reply.specs.ReplyText.{failure_statuses, head_end, head_start, head_text, is_status_of, media_type, phrase as phrase_of, reply_text, status_line};

use http::StatusCode;
use mt_http_types::{Content, Reply, ReplyHead};
use mt_tree::{NoMemory, append, append_count};
use std::alloc::Global;

const FAILURES: [u16; 8] = [400, 404, 405, 411, 413, 431, 500, 501];

fn is_failure(status: u16) -> bool
    ensures { result ≡ list_any (λ failure. failure == status) failure_statuses }
{
    FAILURES.iter().any(|failure| *failure == status)
}

/// Whether a reply with this content may have this status: 200 for a page, a fragment and data, and 400, 404, 405, 411, 413,
/// 431, 500 or 501 for a failure. Takes no memory.
pub fn status_fits(content: Content, status: u16) -> bool
    ensures { result ≡ is_status_of content status }
{
    match content {
        Content::Html | Content::Json => status == 200,
        Content::Plain => is_failure(status),
    }
}

#[tactic(auto, using(crate::proofs::Phrases::phrase_is_known))]
fn phrase(content: Content, status: u16) -> &'static str
    requires { is_status_of content status ≡ true }
    ensures { result.now ≡ phrase_of status }
{
    match StatusCode::from_u16(status) {
        Ok(code) => match code.canonical_reason() {
            Some(phrase) => phrase,
            None => unreachable!(),
        },
        Err(_refused) => unreachable!(),
    }
}

fn media_type(content: Content) -> &'static [u8]
    ensures { result.now ≡ media_type content }
{
    match content {
        Content::Html => b"text/html; charset=utf-8",
        Content::Json => b"application/json",
        Content::Plain => b"text/plain; charset=utf-8",
    }
}

#[tactic(auto, using(mt_tree::proofs::Fronts::front_of_front, mt_tree::proofs::Fronts::front_of_more))]
fn append_status(
    alloc: Global,
    content: Content,
    status: u16,
    into: &mut Vec<u8>,
) -> Result<(), NoMemory>
    requires { is_status_of content status ≡ true }
    ensures text { OnOk result (into.new.items ≡ into.old.items ++ status_line status) }
    ensures kept { OnErr result (StartsWith into.new.items into.old.items) }
{
    append(b"HTTP/1.1 ", into)?;
    append_count(alloc, u64::from(status), into)?;
    append(b" ", into)?;
    append(phrase(content, status).as_bytes(), into)
}

#[tactic(auto, using(mt_tree::proofs::Fronts::front_of_front, mt_tree::proofs::Fronts::front_of_more), unfolding(crate::specs::ReplyText::head_start))]
pub(crate) fn append_head_start(
    alloc: Global,
    content: Content,
    status: u16,
    into: &mut Vec<u8>,
) -> Result<(), NoMemory>
    requires { is_status_of content status ≡ true }
    ensures text { OnOk result (into.new.items ≡ into.old.items ++ head_start status content) }
    ensures kept { OnErr result (StartsWith into.new.items into.old.items) }
{
    append_status(alloc, content, status, into)?;
    append(b"\r\nContent-Type: ", into)?;
    append(media_type(content), into)?;
    append(b"\r\nContent-Length: ", into)
}

#[tactic(auto, unfolding(crate::specs::ReplyText::head_end))]
pub(crate) fn append_head_end(status: u16, into: &mut Vec<u8>) -> Result<(), NoMemory>
    ensures text { OnOk result (into.new.items ≡ into.old.items ++ head_end status) }
    ensures kept { OnErr result (into.new.items ≡ into.old.items) }
{
    if status == 405 {
        append(b"\r\nAllow: GET, POST\r\nConnection: close\r\n\r\n", into)
    } else {
        append(b"\r\nConnection: close\r\n\r\n", into)
    }
}

/// Appends the head of a reply in HTTP/1.1: the status line with the reason phrase of the status, and the fields
/// `Content-Type`, `Content-Length` in bytes, with status 405 `Allow: GET, POST`, and `Connection: close`. The status is one
/// that a reply with this content may have ([`status_fits`]).
///
/// # Errors
/// `NoMemory`; a beginning of the text may then have been appended.
#[tactic(auto, using(mt_tree::proofs::Fronts::front_of_front, mt_tree::proofs::Fronts::front_of_more))]
pub fn write_reply_head(alloc: Global, head: ReplyHead, into: &mut Vec<u8>) -> Result<(), NoMemory>
    requires { is_status_of head.content head.status ≡ true }
    ensures text { OnOk result (into.new.items ≡ into.old.items ++ head_text head) }
    ensures kept { OnErr result (StartsWith into.new.items into.old.items) }
{
    append_head_start(alloc, head.content, head.status, into)?;
    append_count(alloc, head.length, into)?;
    append_head_end(head.status, into)
}

/// Appends the reply in HTTP/1.1: its head, as [`write_reply_head`] writes it, and its body. The status is one that a reply
/// with this content may have ([`status_fits`]).
///
/// # Errors
/// `NoMemory`; a beginning of the text may then have been appended.
#[tactic(auto, using(mt_tree::proofs::Fronts::front_of_front, mt_tree::proofs::Fronts::front_of_more))]
pub fn write_reply(alloc: Global, reply: &Reply, into: &mut Vec<u8>) -> Result<(), NoMemory>
    requires { is_status_of reply.now.content reply.now.status ≡ true }
    ensures text { OnOk result (into.new.items ≡ into.old.items ++ reply_text reply.now) }
    ensures kept { OnErr result (StartsWith into.new.items into.old.items) }
{
    let body = reply.body.items();
    let head = ReplyHead {
        status: reply.status,
        content: reply.content,
        length: body.len() as u64,
    };
    write_reply_head(alloc, head, into)?;
    append(body, into)
}

ghost use Rattle.std.specs.Prelude.{◌≡◌, ◌≤◌, ◌++◌, OnOk, decimal, length, encode_utf8_all};
ghost use Rattle.mt_small.specs.Wire.{load_back, load_wire, page_front, page_middle, page_head, page_wire, not_found_wire, bad_request_wire, failure_wire, reply_wire, IsShort};

use crate::message::{Failure, Reply};
use mt_tree::{NoMemory, Text, append, append_count};
use std::alloc::Global;

/// Appends the request for the page of this target: a `GET` request of HTTP/1.1 (RFC 9112) with the fields
/// `Host: localhost` and `Connection: close` and no body. The target stands in it as its UTF-8 bytes. An `Err` says that
/// memory ran out.
pub fn write_load(target: &Text, into: &mut Vec<u8>) -> Result<(), NoMemory>
    ensures { OnOk result (into.new.items ≡ into.old.items ++ load_wire (encode_utf8_all target.now)) }
{
    write_load_of(target.as_bytes(), into)
}

/// Appends the request for the page of a target in UTF-8.
pub fn write_load_of(target: &[u8], into: &mut Vec<u8>) -> Result<(), NoMemory>
    ensures { OnOk result (into.new.items ≡ into.old.items ++ load_wire target.now) }
{
    append(b"GET ", into)?;
    append(target, into)?;
    append_load_back(into)
}

#[tactic(auto, unfolding(crate::specs::Wire::load_back))]
fn append_load_back(into: &mut Vec<u8>) -> Result<(), NoMemory>
    ensures { OnOk result (into.new.items ≡ into.old.items ++ load_back) }
{
    append(
        b" HTTP/1.1\r\nHost: localhost\r\nConnection: close\r\n\r\n",
        into,
    )
}

#[tactic(auto, unfolding(crate::specs::Wire::page_front))]
fn append_page_front(into: &mut Vec<u8>) -> Result<(), NoMemory>
    ensures { OnOk result (into.new.items ≡ into.old.items ++ page_front) }
{
    append(
        b"HTTP/1.1 200 OK\r\nContent-Type: text/html; charset=utf-8\r\nContent-Length: ",
        into,
    )
}

#[tactic(auto, unfolding(crate::specs::Wire::page_middle))]
fn append_page_middle(into: &mut Vec<u8>) -> Result<(), NoMemory>
    ensures { OnOk result (into.new.items ≡ into.old.items ++ page_middle) }
{
    append(b"\r\nConnection: close\r\n\r\n<!DOCTYPE html><p>", into)
}

fn append_page_head(alloc: Global, into: &mut Vec<u8>, size: u64) -> Result<(), NoMemory>
    requires { size ≤ 1000000 }
    ensures { OnOk result (into.new.items ≡ into.old.items ++ page_head size) }
{
    append_page_front(into)?;
    append_count(alloc, size + 22, into)?;
    append_page_middle(into)
}

/// Appends the reply with the page of a text in UTF-8, which has at most 1,000,000 bytes.
pub fn write_page(alloc: Global, into: &mut Vec<u8>, text: &[u8]) -> Result<(), NoMemory>
    requires { length text.now ≤ 1000000 }
    ensures { OnOk result (into.new.items ≡ into.old.items ++ page_wire text.now) }
{
    append_page_head(alloc, into, text.len() as u64)?;
    append(text, into)?;
    append(b"</p>", into)
}

/// The reply where no service has the name.
pub const NOT_FOUND: &[u8; 121] =
    b"HTTP/1.1 404 Not Found\r\nContent-Type: text/plain; charset=utf-8\r\nContent-Length: 15\r\nConnection: close\r\n\r\nno such service";

/// The reply to bytes that are no request.
pub const BAD_REQUEST: &[u8; 119] =
    b"HTTP/1.1 400 Bad Request\r\nContent-Type: text/plain; charset=utf-8\r\nContent-Length: 11\r\nConnection: close\r\n\r\nbad request";

#[tactic(auto, unfolding(crate::specs::Wire::not_found_wire))]
fn append_not_found(into: &mut Vec<u8>) -> Result<(), NoMemory>
    ensures { OnOk result (into.new.items ≡ into.old.items ++ not_found_wire) }
{
    append(NOT_FOUND, into)
}

#[tactic(auto, unfolding(crate::specs::Wire::bad_request_wire))]
fn append_bad_request(into: &mut Vec<u8>) -> Result<(), NoMemory>
    ensures { OnOk result (into.new.items ≡ into.old.items ++ bad_request_wire) }
{
    append(BAD_REQUEST, into)
}

fn append_failure(into: &mut Vec<u8>, failure: Failure) -> Result<(), NoMemory>
    ensures { OnOk result (into.new.items ≡ into.old.items ++ failure_wire failure) }
{
    match failure {
        Failure::NotFound => append_not_found(into),
        Failure::BadRequest => append_bad_request(into),
    }
}

/// Appends a reply of HTTP/1.1 (RFC 9112) with its fields `Content-Type`, `Content-Length` (in bytes) and
/// `Connection: close`, and its body: status 200 and the page, or the status of the failure and its text. A page's text
/// has at most 1,000,000 bytes in UTF-8. An `Err` says that memory ran out.
pub fn write_reply(alloc: Global, reply: &Reply, into: &mut Vec<u8>) -> Result<(), NoMemory>
    requires { IsShort reply.now }
    ensures { OnOk result (into.new.items ≡ into.old.items ++ reply_wire reply.now) }
{
    match reply {
        Reply::Page(text) => write_page(alloc, into, text.as_bytes()),
        Reply::Failure(failure) => append_failure(into, *failure),
    }
}

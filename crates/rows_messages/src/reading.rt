//! Replies, read in pieces.

use anyhow::{Result, bail};
use mt_http_reply::{ReplyReader, ReplyStream};
use mt_http_types::{Content, Feed, Reply, ReplyRefusal};
use rows::{Line, made, quoted};
use std::alloc::Global;
use std::str;

fn content(content: Content) -> &'static str {
    match content {
        Content::Html => "html",
        Content::Json => "json",
        Content::Plain => "plain",
    }
}

fn finished(reader: ReplyReader) -> Result<Option<Reply>> {
    match reader.finish() {
        Ok(reply) => Ok(Some(reply)),
        Err(ReplyRefusal::NotReply) => Ok(None),
        Err(ReplyRefusal::NoMemory) => bail!("out of memory"),
    }
}

fn read(alloc: Global, bytes: &[u8], length: usize) -> Result<Option<Reply>> {
    let mut reader = ReplyReader::new(alloc);
    for piece in bytes.chunks(length.max(1)) {
        made(reader.feed(piece))?;
    }
    finished(reader)
}

fn said(alloc: Global, reply: &Option<Reply>) -> Result<String> {
    match reply {
        Some(reply) => {
            let status = reply.status;
            let content = content(reply.content);
            let body = quoted(alloc, str::from_utf8(reply.body.items())?)?;
            Ok(format!(in alloc; "{status} {content} {body}")?)
        }
        None => Ok(String::from_str(alloc, "NotReply")?),
    }
}

// The reply whose text comes in two pieces.
fn halves(alloc: Global, front: &[u8], back: &[u8]) -> Result<Option<Reply>> {
    let mut reader = ReplyReader::new(alloc);
    made(reader.feed(front))?;
    made(reader.feed(back))?;
    finished(reader)
}

/// The reply whose text this is, and how many proper beginnings of it are replies. The text is also read in two pieces, cut at each
/// place; an answer that differs is named.
pub fn reply(alloc: Global, line: &Line) -> Result<String> {
    let bytes = line.text(0)?.as_bytes();
    let whole = said(alloc, &read(alloc, bytes, 1)?)?;
    let mut replies = 0u32;
    for place in 0..bytes.len() {
        let (front, back) = bytes.split_at(place);
        let both = said(alloc, &halves(alloc, front, back)?)?;
        if both != whole {
            return Ok(format!(in alloc; "{whole}, but cut at {place} {both}")?);
        }
        if halves(alloc, front, b"")?.is_some() {
            replies = replies.saturating_add(1);
        }
    }
    Ok(format!(in alloc; "{whole} {replies}")?)
}

/// How a stream takes a text that comes byte by byte: how many bytes it had when the head was there, the bodies that it
/// handed out, joined, and how many bytes it had when it was decided.
pub fn stream(alloc: Global, line: &Line) -> Result<String> {
    let mut stream = ReplyStream::new(alloc);
    let mut body = Vec::new(alloc);
    let mut head = None;
    let mut decided = None;
    let bytes = line.bytes(alloc, 0)?;
    for (at, piece) in bytes.chunks(1).enumerate() {
        let part = made(stream.feed(piece))?;
        body.extend_from_slice(part.body)?;
        if head.is_none() && stream.head().is_some() {
            head = Some(at);
        }
        if decided.is_none() && part.feed == Feed::Decided {
            decided = Some(at);
        }
    }
    let body = quoted(alloc, str::from_utf8(&body)?)?;
    Ok(format!(in alloc; "head {head:?} body {body} decided {decided:?}")?)
}

/// Whether a page's reply is read whose body is the text, as often as the count says.
pub fn long(alloc: Global, line: &Line) -> Result<String> {
    let body = line.bytes(alloc, 0)?;
    let count = body.len();
    let head = format!(in alloc;
        "HTTP/1.1 200 OK\r\nContent-Type: text/html; charset=utf-8\r\nContent-Length: {count}\r\nConnection: close\r\n\r\n"
    )?;
    let mut bytes = head.as_bytes().to_vec(alloc)?;
    bytes.extend_from_slice(&body)?;
    let answer = match read(alloc, &bytes, 4096)? {
        Some(_reply) => "a reply",
        None => "NotReply",
    };
    Ok(String::from_str(alloc, answer)?)
}

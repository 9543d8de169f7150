//! Messages, written.

use anyhow::{Context, Result, bail};
use mt_http_reply::{status_fits, write_reply};
use mt_http_request::{write_request, write_target};
use mt_http_types::{Call, Content, Reply, Request, Target, target_fits};
use mt_json::read_arguments;
use mt_tree::{Buffer, Data, Row, Text};
use rows::{Line, made, quoted};
use std::alloc::Global;
use std::str;

/// Whether the text is a target, with so many letters behind it as the count says.
pub fn fits(alloc: Global, line: &Line) -> Result<String> {
    let mut text = String::from_str(alloc, line.text(0)?)?;
    for _again in 1..line.count() {
        text.push_str("a")?;
    }
    let fits = target_fits(text.as_bytes());
    Ok(format!(in alloc; "{fits}")?)
}

fn text(alloc: Global, text: &str) -> Result<Text> {
    made(Text::from_str(alloc, text))
}

fn arguments(alloc: Global, spelled: &str) -> Result<Row<Data>> {
    made(read_arguments(alloc, spelled.as_bytes()))
}

// How many bytes there are, and what they spell.
fn written(alloc: Global, bytes: &[u8]) -> Result<String> {
    let count = bytes.len();
    let spelled = quoted(alloc, str::from_utf8(bytes)?)?;
    Ok(format!(in alloc; "{count} bytes {spelled}")?)
}

/// The target that calls a service with arguments.
pub fn target(alloc: Global, line: &Line) -> Result<String> {
    let service = text(alloc, line.text(0)?)?;
    let arguments = arguments(alloc, line.text(1)?)?;
    let mut bytes = Vec::new(alloc);
    made(write_target(alloc, &service, &arguments, &mut bytes))?;
    written(alloc, &bytes)
}

fn request(alloc: Global, request: &Request) -> Result<String> {
    let mut bytes = Vec::new(alloc);
    made(write_request(alloc, request, &mut bytes))?;
    written(alloc, &bytes)
}

/// The request of a target.
pub fn load(alloc: Global, line: &Line) -> Result<String> {
    let target = made(Target::read(alloc, line.text(0)?.as_bytes()))?;
    request(alloc, &Request::Load(target.context("no target")?))
}

/// The call of a service with arguments.
pub fn post(alloc: Global, line: &Line) -> Result<String> {
    let call = Call {
        service: text(alloc, line.text(0)?)?,
        arguments: arguments(alloc, line.text(1)?)?,
    };
    request(alloc, &Request::Post(call))
}

fn content(name: &str) -> Result<Content> {
    match name {
        "html" => Ok(Content::Html),
        "json" => Ok(Content::Json),
        "plain" => Ok(Content::Plain),
        other => bail!("no content {other}"),
    }
}

/// The reply with a status, a content and a body.
pub fn reply(alloc: Global, line: &Line) -> Result<String> {
    let status = u16::try_from(line.number(0)?)?;
    let content = content(line.text(1)?)?;
    if !status_fits(content, status) {
        return Ok(String::from_str(alloc, "no reply")?);
    }
    let reply = Reply {
        status,
        content,
        body: Buffer::from_vec(line.text(2)?.as_bytes().to_vec(alloc)?),
    };
    let mut bytes = Vec::new(alloc);
    made(write_reply(alloc, &reply, &mut bytes))?;
    written(alloc, &bytes)
}

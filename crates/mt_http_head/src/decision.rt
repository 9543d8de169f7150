ghost use Rattle.std.specs.Prelude.{◌≡◌, IfOk, length};
ghost use Rattle.httparse.specs.Grammar.{RequestHead};
ghost use Rattle.httparse.specs.Spans.{IsRequestAt, IsRequestWithin};
ghost use Rattle.mt_http_head.specs.Parsed.{IsDecided, IsParsed, seen};
ghost use Rattle.mt_http_head.specs.Points.{decision as decision_of, head_of};

use crate::parts::Parts;
use crate::points::{early_refusal, is_get, load, post};
use crate::target::{service_at, split_target};
use httparse::Status;
use httparse::spans::{EMPTY_HEADER_SPAN, HeaderSpan, RequestSpans, parse_request};
use mt_tree::{Buffer, NoMemory, Row, Text};
use std::alloc::Global;

/// What the head of a request decides.
#[derive(Drop)]
pub enum Decision {
    /// The request is refused with this status.
    Refused(u16),
    /// This service is asked for a page, with arguments whose text these bytes are to be.
    Load(Text, Buffer<u8>),
    /// This service is called, with arguments whose text is to be a body of so many bytes.
    Post(Text, u64),
}

/// Whether a whole head stands at the front of bytes.
#[derive(Drop)]
pub enum HeadStatus {
    /// A whole head does, which decides so.
    Complete(Decision),
    /// None does yet.
    Partial,
    /// None does, whatever bytes follow.
    Invalid,
}

// The parts of a head that was parsed in these bytes, with these spans of its fields in front.
#[tactic(auto, using(crate::proofs::Deciding::within_more, crate::proofs::Deciding::seen_is))]
fn parts_of<'a>(bytes: &'a [u8], spans: &'a [HeaderSpan], head: RequestSpans) -> Parts<'a>
    requires { IsRequestWithin bytes.now spans.now head }
    ensures parsed { IsParsed result }
    ensures head { (h : RequestHead) → IsRequestAt bytes.now spans.now head h → seen result ≡ head_of h }
{
    Parts {
        method: head.method.of(bytes),
        target: head.path.of(bytes),
        minor: head.version,
        bytes,
        spans: &spans[..head.headers],
    }
}

// What a parsed head decides.
#[tactic(auto, using(crate::proofs::Deciding::early, crate::proofs::Deciding::no_service, crate::proofs::Deciding::is_load, crate::proofs::Deciding::is_post_of))]
fn decide_parsed(alloc: Global, services: &Row<Text>, parts: Parts) -> Result<Decision, NoMemory>
    requires { IsParsed parts }
    ensures { IfOk result (λ made. made ≡ decision_of services.now (seen parts.entry)) }
{
    if let Some(status) = early_refusal(parts) {
        return Ok(Decision::Refused(status));
    }
    let target = split_target(parts.target);
    match service_at(alloc, services, target.path)? {
        None => Ok(Decision::Refused(404)),
        Some(service) => {
            if is_get(parts) {
                load(alloc, service, target.query)
            } else {
                Ok(post(service, target.query, parts))
            }
        }
    }
}

// Room for the fields of a head, each of which takes a byte or more.
fn room(alloc: Global, size: usize) -> Result<Vec<HeaderSpan>, NoMemory>
    ensures { IfOk result (λ spans. length spans.items ≡ size) }
{
    match Vec::from_elem(alloc, EMPTY_HEADER_SPAN, size) {
        Ok(spans) => Ok(spans),
        Err(_refused) => Err(NoMemory),
    }
}

/// What the head at the front of the bytes decides, where a whole one is there, by the grammar of `httparse`.
///
/// # Errors
/// `NoMemory`.
#[tactic(auto, using(crate::proofs::Deciding::decided, crate::proofs::Deciding::invalid))]
pub fn decide_head(
    alloc: Global,
    services: &Row<Text>,
    bytes: &[u8],
) -> Result<HeadStatus, NoMemory>
    ensures { IfOk result (IsDecided services.now bytes.now) }
{
    let mut spans = room(alloc, bytes.len())?;
    match parse_request(bytes, &mut spans) {
        Ok(Status::Complete(head)) => {
            let parts = parts_of(bytes, &spans, head);
            Ok(HeadStatus::Complete(decide_parsed(alloc, services, parts)?))
        }
        Ok(Status::Partial) => Ok(HeadStatus::Partial),
        Err(_refused) => Ok(HeadStatus::Invalid),
    }
}

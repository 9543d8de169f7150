ghost use Rattle.std.specs.Prelude.{◌≡◌, ◌≤◌, ◌<◌, ◌+◌, ◌++◌, ◌^◌, ◌↔◌, ℕ, IfOk, IfSome, IsTrue, List, MatchOption, Some, decimal, length, true};
ghost use Rattle.mt_http_types.specs.declared.reply.Content.{Content};
ghost use Rattle.mt_http_reply.specs.ReplyText.{head_end, head_start, head_text, is_status_of, IsReplyHead};
ghost use Rattle.mt_http_reply.specs.Reading.{between, HasNoHeadOf, HasNoHeadWith, IsHeadWith, IsNoHead};

use crate::writer::{append_head_end, append_head_start, write_reply_head};
use mt_http_types::{Content, ReplyHead};
use mt_tree::NoMemory;
use std::alloc::Global;
use std::str;

// The most bytes of a body.
const BODY_LIMIT: u64 = 4_194_304;

const FAILURES: [u16; 8] = [400, 404, 405, 411, 413, 431, 500, 501];

// A number is found where the bytes are its decimal digits; what is found in other bytes is of no matter.
fn number(bytes: &[u8]) -> Option<u64>
    ensures { (n : ℕ) → n < 2 ^ 64 → bytes.now ≡ decimal n → result ≡ Some n }
{
    match str::from_utf8(bytes) {
        Ok(text) => match text.parse::<u64>() {
            Ok(number) => Some(number),
            Err(_refused) => None,
        },
        Err(_refused) => None,
    }
}

// What stands between a front and a back of so many bytes.
fn between(bytes: &[u8], front: usize, back: usize) -> &[u8]
    ensures { result.now ≡ between front back bytes.now }
{
    if front <= bytes.len() && back <= bytes.len() - front {
        &bytes[front..bytes.len() - back]
    } else {
        &bytes[..0]
    }
}

fn is_same(a: &[u8], b: &[u8]) -> bool
    ensures { IsTrue result ↔ (a.now ≡ b.now) }
{
    a == b
}

fn is_text_of(alloc: Global, head: ReplyHead, bytes: &[u8]) -> Result<bool, NoMemory>
    requires { is_status_of head.content head.status ≡ true }
    ensures { IfOk result (λ same. IsTrue same ↔ (head_text head ≡ bytes.now)) }
{
    let mut text = Vec::new(alloc);
    write_reply_head(alloc, head, &mut text)?;
    Ok(is_same(&text, bytes))
}

// The length that stands in a head with this content and this status; what is found in other bytes is of no matter.
fn length_in(
    alloc: Global,
    content: Content,
    status: u16,
    bytes: &[u8],
) -> Result<Option<u64>, NoMemory>
    requires { is_status_of content status ≡ true }
    ensures { IfOk result (λ found. (n : ℕ) → n < 2 ^ 64 → bytes.now ≡ head_start status content ++ (decimal n ++ head_end status) → found ≡ Some n) }
{
    let mut start = Vec::new(alloc);
    append_head_start(alloc, content, status, &mut start)?;
    let mut end = Vec::new(alloc);
    append_head_end(status, &mut end)?;
    Ok(number(between(bytes, start.len(), end.len())))
}

// The head with this content and this status that the bytes are.
fn head_with(
    alloc: Global,
    content: Content,
    status: u16,
    bytes: &[u8],
) -> Result<Option<ReplyHead>, NoMemory>
    requires { is_status_of content status ≡ true }
    ensures { IfOk result (λ found. MatchOption found (HasNoHeadWith content status bytes.now) (IsHeadWith bytes.now)) }
{
    match length_in(alloc, content, status, bytes)? {
        None => Ok(None),
        Some(length) => {
            let head = ReplyHead {
                status,
                content,
                length,
            };
            if length <= BODY_LIMIT && is_text_of(alloc, head, bytes)? {
                Ok(Some(head))
            } else {
                Ok(None)
            }
        }
    }
}

fn failure_head(alloc: Global, bytes: &[u8]) -> Result<Option<ReplyHead>, NoMemory>
    ensures { IfOk result (λ found. MatchOption found (HasNoHeadOf Content.Plain bytes.now) (IsHeadWith bytes.now)) }
{
    for status in FAILURES {
        if let Some(head) = head_with(alloc, Content::Plain, status, bytes)? {
            return Ok(Some(head));
        }
    }
    Ok(None)
}

/// The head of a reply that the bytes are, if they are one.
pub(crate) fn read_head(alloc: Global, bytes: &[u8]) -> Result<Option<ReplyHead>, NoMemory>
    ensures { IfOk result (λ found. MatchOption found (IsNoHead bytes.now) (IsHeadWith bytes.now)) }
{
    if let Some(head) = head_with(alloc, Content::Html, 200, bytes)? {
        return Ok(Some(head));
    }
    if let Some(head) = head_with(alloc, Content::Json, 200, bytes)? {
        return Ok(Some(head));
    }
    failure_head(alloc, bytes)
}

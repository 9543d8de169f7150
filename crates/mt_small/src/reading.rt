ghost use Rattle.std.specs.Prelude.{◌≡◌, ◌≤◌, ◌<◌, ◌+◌, ◌++◌, ◌&&◌, ◌^◌, true, length, IfOk, IfSome, encode_utf8_all, Some, None};
ghost use Rattle.std.specs.List.{list_all};
ghost use Rattle.std.specs.Str.{bytes_eq, chars};
ghost use Rattle.std.specs.Option.{option_map, option_copied};
ghost use Rattle.mt_small.specs.Name.{is_lower, is_target, hop};
ghost use Rattle.mt_small.specs.Paragraph.{is_plain, is_paragraph};
ghost use Rattle.mt_small.specs.Wire.{load_wire, load_front, load_back, page_front, page_middle, page_back, page_wire, not_found_wire, bad_request_wire};
ghost use Rattle.mt_small.specs.Reading.{between, target_in, request_in, understood, reads_request, server_job, text_in, is_page_of, page_in, failure_in, reads_reply};

use crate::application::Small;
use crate::message::{Asked, Failure, Reply};
use crate::name::{same_bytes, target_fits};
use crate::plain::{paragraph_fits, plain_text};
use crate::writing::{BAD_REQUEST, NOT_FOUND, write_load_of, write_page};
use mt_tree::{NoMemory, append};
use std::alloc::Global;

/// What stands between a front of so many bytes and a back of so many.
fn between(bytes: &[u8], front: usize, back: usize) -> &[u8]
    requires { front + back < 2 ^ 63 }
    ensures { result.now ≡ between front back bytes.now }
{
    if bytes.len() < front + back {
        &bytes[..0]
    } else {
        &bytes[front..bytes.len() - back]
    }
}

fn is_load(alloc: Global, bytes: &[u8], target: &[u8]) -> Result<bool, NoMemory>
    ensures { IfOk result (λ same. same ≡ bytes_eq bytes.now (load_wire target.now)) }
{
    let mut expected = Vec::new(alloc);
    write_load_of(target, &mut expected)?;
    Ok(same_bytes(bytes, &expected))
}

#[tactic(auto, unfolding(crate::specs::Wire::load_back))]
fn target_of(bytes: &[u8]) -> &[u8]
    ensures { result.now ≡ target_in bytes.now }
{
    between(bytes, 4, 49)
}

fn is_service(alloc: Global, target: &[u8], service: &[u8]) -> Result<bool, NoMemory>
    ensures { IfOk result (λ same. same ≡ bytes_eq target.now (hop ++ service.now)) }
{
    let mut expected = Vec::new(alloc);
    append(b"/hop/", &mut expected)?;
    append(service, &mut expected)?;
    Ok(same_bytes(target, &expected))
}

/// The target of the request that these bytes are, where they are one.
fn target_of_request(alloc: Global, bytes: &[u8]) -> Result<Option<&[u8]>, NoMemory>
    ensures { IfOk result (λ target. option_copied target ≡ request_in bytes.now) }
{
    let target = target_of(bytes);
    if target_fits(target) && is_load(alloc, bytes, target)? {
        Ok(Some(target))
    } else {
        Ok(None)
    }
}

/// What the server takes these bytes for, which may be any: the page of the application's service where they are the
/// whole request for it, `NotFound` where they are the whole request for another name of 1 to 32 lower-case ASCII
/// letters, and `BadRequest` for all else. An `Err` says that memory ran out.
pub fn read_request(alloc: Global, small: &Small, bytes: &[u8]) -> Result<Asked, NoMemory>
    ensures { IfOk result (λ asked. asked ≡ reads_request small.now bytes.now) }
{
    match target_of_request(alloc, bytes)? {
        Some(target) => {
            if is_service(alloc, target, small.service.as_bytes())? {
                Ok(Asked::Page)
            } else {
                Ok(Asked::Refused(Failure::NotFound))
            }
        }
        None => Ok(Asked::Refused(Failure::BadRequest)),
    }
}

/// What the server answers: the page of the application's text, or the failure. An `Err` says that memory ran out.
pub fn answer(small: &Small, asked: Asked) -> Result<Reply, NoMemory>
    ensures { IfOk result (λ reply. reply ≡ server_job small.now asked) }
{
    match asked {
        Asked::Page => Ok(Reply::Page(small.text.share()?)),
        Asked::Refused(failure) => Ok(Reply::Failure(failure)),
    }
}

#[tactic(auto, unfolding(crate::specs::Wire::page_front, crate::specs::Wire::page_middle))]
fn text_at(bytes: &[u8], digits: usize) -> &[u8]
    requires { digits ≤ 4 }
    ensures { result.now ≡ text_in digits bytes.now }
{
    between(bytes, 73 + digits + 41, 4)
}

fn is_page(alloc: Global, bytes: &[u8], text: &[u8]) -> Result<bool, NoMemory>
    ensures { IfOk result (λ same. same ≡ is_page_of bytes.now text.now) }
{
    if !paragraph_fits(text) {
        return Ok(false);
    }
    let mut expected = Vec::new(alloc);
    write_page(alloc, &mut expected, text)?;
    Ok(same_bytes(bytes, &expected))
}

/// The text of the page that these bytes are, where they are one.
fn page_text(alloc: Global, bytes: &[u8]) -> Result<Option<&[u8]>, NoMemory>
    ensures same { IfOk result (λ text. option_copied text ≡ page_in bytes.now) }
    ensures plain { IfOk result (λ text. IfSome text (λ t. list_all is_plain t.now ≡ true)) }
{
    let short = text_at(bytes, 2);
    if is_page(alloc, bytes, short)? {
        return Ok(Some(short));
    }
    let middle = text_at(bytes, 3);
    if is_page(alloc, bytes, middle)? {
        return Ok(Some(middle));
    }
    let long = text_at(bytes, 4);
    if is_page(alloc, bytes, long)? {
        return Ok(Some(long));
    }
    Ok(None)
}

#[tactic(auto, unfolding(crate::specs::Wire::not_found_wire, crate::specs::Wire::bad_request_wire))]
fn failure_of(bytes: &[u8]) -> Option<Failure>
    ensures { result ≡ failure_in bytes.now }
{
    if same_bytes(bytes, NOT_FOUND) {
        Some(Failure::NotFound)
    } else if same_bytes(bytes, BAD_REQUEST) {
        Some(Failure::BadRequest)
    } else {
        None
    }
}

/// The one reply whose bytes these are: a page of 1 to 1,000 ASCII letters, digits and spaces, or a failure. `None` where
/// they are those of no reply; the bytes may be any. An `Err` says that memory ran out.
pub fn read_reply(alloc: Global, bytes: &[u8]) -> Result<Option<Reply>, NoMemory>
    ensures { IfOk result (λ reply. reply ≡ reads_reply bytes.now) }
{
    match page_text(alloc, bytes)? {
        Some(text) => Ok(Some(Reply::Page(plain_text(alloc, text)?))),
        None => match failure_of(bytes) {
            Some(failure) => Ok(Some(Reply::Failure(failure))),
            None => Ok(None),
        },
    }
}

ghost use Rattle.std.specs.Prelude.{◌≡◌, ◌==◌, ◌&&◌, ◌∷◌, [], IfOk, None, codes, length, nat_lt, not};
ghost use Rattle.std.specs.Str.{bytes_eq};
ghost use Rattle.mt_http_head.specs.Parsed.{IsParsed, seen};
ghost use Rattle.mt_http_head.specs.Points.{codings, early_points, hosts, is_get as gets, is_post as posts, load_of, load_points, post_of, post_points, refusal, sizes, unless};
ghost use Rattle.mt_http_head.specs.Targets.{begins_with_slash as starts_with_slash, lent};

use crate::decision::Decision;
use crate::fields::{Values, values_of};
use crate::parts::Parts;
use crate::size::size;
use crate::target::arguments_in;
use mt_tree::{NoMemory, Text};
use std::alloc::Global;

// The most fields of a head.
const FIELD_LIMIT: usize = 64;

// The most bytes of a body.
const BODY_LIMIT: u64 = 4_194_304;

pub(crate) fn is_get(parts: Parts) -> bool
    ensures { result ≡ gets (seen parts.entry) }
{
    parts.method == b"GET".as_slice()
}

pub(crate) fn is_post(parts: Parts) -> bool
    ensures { result ≡ posts (seen parts.entry) }
{
    parts.method == b"POST".as_slice()
}

fn has_too_many_fields(parts: Parts) -> bool
    ensures { result ≡ nat_lt 64 (length (seen parts.entry).fields) }
{
    parts.spans.len() > FIELD_LIMIT
}

// HTTP/1.1 asks for just one field Host.
fn lacks_host(parts: Parts) -> bool
    requires { IsParsed parts }
    ensures { result ≡ ((parts.entry.minor == 1) && not (length (hosts (seen parts.entry)) == 1)) }
{
    let host = values_of(parts.bytes, parts.spans, b"host");
    parts.minor == 1 && !matches!(host, Values::One(_))
}

fn is_coded(parts: Parts) -> bool
    requires { IsParsed parts }
    ensures { result ≡ nat_lt 0 (length (codings (seen parts.entry))) }
{
    let coding = values_of(parts.bytes, parts.spans, b"transfer-encoding");
    !matches!(coding, Values::Nothing)
}

fn begins_with_slash(target: &[u8]) -> bool
    ensures { result ≡ starts_with_slash target.now }
{
    match target {
        [] => false,
        [first, ..] => *first == b'/',
    }
}

/// The status with which a head is refused before its target and its method are looked at closely.
pub(crate) fn early_refusal(parts: Parts) -> Option<u16>
    requires { IsParsed parts }
    ensures { result ≡ refusal (early_points (seen parts.entry)) }
{
    if has_too_many_fields(parts) {
        return Some(431);
    }
    if lacks_host(parts) {
        return Some(400);
    }
    if is_coded(parts) {
        return Some(501);
    }
    if !(is_get(parts) || is_post(parts)) {
        return Some(405);
    }
    if !begins_with_slash(parts.target) {
        return Some(400);
    }
    None
}

/// A call of the service, unless its head refuses it.
#[tactic(auto, using(crate::proofs::Finding::several_are_no_size))]
pub(crate) fn post(service: Text, query: Option<&[u8]>, parts: Parts) -> Decision
    requires { IsParsed parts }
    ensures { result ≡ unless (refusal (post_points (lent query.entry) (sizes (seen parts.entry)))) (post_of service (sizes (seen parts.entry))) }
{
    if query.is_some() {
        return Decision::Refused(400);
    }
    match values_of(parts.bytes, parts.spans, b"content-length") {
        Values::Nothing => Decision::Refused(411),
        Values::Several => Decision::Refused(400),
        Values::One(value) => sized(service, value),
    }
}

// A call with one Content-Length.
fn sized(service: Text, value: &[u8]) -> Decision
    ensures { result ≡ unless (refusal (post_points None (value.now ∷ []))) (post_of service (value.now ∷ [])) }
{
    match size(value) {
        None => Decision::Refused(400),
        Some(size) => {
            if size > BODY_LIMIT {
                Decision::Refused(413)
            } else {
                Decision::Post(service, size)
            }
        }
    }
}

/// A load of the service, unless its query refuses it.
///
/// # Errors
/// `NoMemory`.
pub(crate) fn load(alloc: Global, service: Text, query: Option<&[u8]>) -> Result<Decision, NoMemory>
    ensures { IfOk result (λ made. made ≡ unless (refusal (load_points (lent query.entry))) (load_of service (lent query.entry))) }
{
    match arguments_in(alloc, query)? {
        None => Ok(Decision::Refused(400)),
        Some(text) => Ok(Decision::Load(service, text)),
    }
}

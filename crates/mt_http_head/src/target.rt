ghost use Rattle.std.specs.Prelude.{◌≡◌, IfOk, MatchOption, None, Some};
ghost use Rattle.mt_http_head.specs.Targets.{arguments_in, behind, has_name, lent, path_of, query_of, service_at, service_named};
ghost use Rattle.percent_encoding.specs.Percent.{percent_decode};

use mt_tree::{Buffer, NoMemory, Row, Text, append};
use percent_encoding::percent_decode;
use std::alloc::Global;

/// A target, in its path and its query.
#[derive(Clone, Copy)]
pub(crate) struct Split<'a> {
    pub(crate) path: &'a [u8],
    /// What stands behind the first question mark.
    pub(crate) query: Option<&'a [u8]>,
}

fn unescaped(alloc: Global, bytes: &[u8]) -> Result<Vec<u8>, NoMemory>
    ensures { IfOk result (λ plain. plain.items ≡ percent_decode bytes.now) }
{
    let mut plain = Vec::new(alloc);
    match percent_decode(bytes).append_to(&mut plain) {
        Ok(()) => Ok(plain),
        Err(_refused) => Err(NoMemory),
    }
}

fn behind<'a>(front: &[u8], bytes: &'a [u8]) -> Option<&'a [u8]>
    ensures { MatchOption result (behind front.now bytes.now ≡ None) (λ rest. behind front.now bytes.now ≡ Some rest.now) }
{
    bytes.strip_prefix(front)
}

/// The path and the query of a target.
#[tactic(auto, using(crate::proofs::Finding::split_next, crate::proofs::Finding::split_here, crate::proofs::Finding::split_none))]
pub(crate) fn split_target(target: &[u8]) -> Split<'_>
    ensures path { result.path.now ≡ path_of target.now }
    ensures query { lent result.query ≡ query_of target.now }
{
    for (at, byte) in target.iter().enumerate() {
        if *byte == b'?' {
            return Split {
                path: &target[..at],
                query: Some(&target[at + 1..]),
            };
        }
    }
    Split {
        path: target,
        query: None,
    }
}

fn has_name(service: &Text, name: &[u8]) -> bool
    ensures { result ≡ has_name name.now service.now }
{
    service.as_bytes() == name
}

#[tactic(auto, using(crate::proofs::Finding::find_next, crate::proofs::Finding::find_here, crate::proofs::Finding::find_none))]
fn service_named(
    alloc: Global,
    services: &Row<Text>,
    escaped: &[u8],
) -> Result<Option<Text>, NoMemory>
    ensures { IfOk result (λ found. found ≡ service_named services.now escaped.now) }
{
    let name = unescaped(alloc, escaped)?;
    for service in services.items() {
        if has_name(service, &name) {
            return Ok(Some(service.share()?));
        }
    }
    Ok(None)
}

/// The service of this path: `/hop/` and its escaped name.
pub(crate) fn service_at(
    alloc: Global,
    services: &Row<Text>,
    path: &[u8],
) -> Result<Option<Text>, NoMemory>
    ensures { IfOk result (λ found. found ≡ service_at services.now path.now) }
{
    match behind(b"/hop/", path) {
        Some(escaped) => service_named(alloc, services, escaped),
        None => Ok(None),
    }
}

fn copied(alloc: Global, bytes: &[u8]) -> Result<Buffer<u8>, NoMemory>
    ensures { IfOk result (λ copy. copy ≡ bytes.now) }
{
    let mut copy = Vec::new(alloc);
    append(bytes, &mut copy)?;
    Ok(Buffer::from_vec(copy))
}

/// The text of the arguments that a query gives: behind `a=`, escaped; that of none where there is no query or an empty one.
pub(crate) fn arguments_in(
    alloc: Global,
    query: Option<&[u8]>,
) -> Result<Option<Buffer<u8>>, NoMemory>
    ensures { IfOk result (λ text. text ≡ arguments_in (lent query.entry)) }
{
    match query {
        None | Some([]) => Ok(Some(copied(alloc, b"[]")?)),
        Some(query) => match behind(b"a=", query) {
            Some(escaped) => Ok(Some(Buffer::from_vec(unescaped(alloc, escaped)?))),
            None => Ok(None),
        },
    }
}

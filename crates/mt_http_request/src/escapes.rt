ghost use Rattle.std.specs.Prelude.{◌≡◌, ◌++◌, OnErr, OnOk, string_bytes, IfOk};
ghost use Rattle.mt_http_request.specs.Escapes.{escaped};

use mt_tree::{NoMemory, append};
use percent_encoding::{AsciiSet, NON_ALPHANUMERIC, ascii_set, percent_encode};
use std::alloc::Global;

// All but the unreserved characters of RFC 3986.
const RESERVED: AsciiSet = ascii_set!(
    NON_ALPHANUMERIC
        .remove(b'-')
        .remove(b'.')
        .remove(b'_')
        .remove(b'~')
);

#[tactic(auto, using(crate::proofs::Escaping::escaped_by_set))]
fn escaped_text(alloc: Global, bytes: &[u8]) -> Result<String, NoMemory>
    ensures { IfOk result (λ text. string_bytes text ≡ escaped bytes.now) }
{
    let mut text = String::new(alloc);
    match percent_encode(bytes, RESERVED).append_to(&mut text) {
        Ok(()) => Ok(text),
        Err(_refused) => Err(NoMemory),
    }
}

/// Appends the bytes, in which each but ASCII letters, digits, `-`, `.`, `_` and `~` is escaped as `%` and two upper-case
/// hexadecimal digits.
///
/// # Errors
/// `NoMemory`; the list is then as before.
pub fn append_escaped(alloc: Global, bytes: &[u8], into: &mut Vec<u8>) -> Result<(), NoMemory>
    ensures text { OnOk result (into.new.items ≡ into.old.items ++ escaped bytes.now) }
    ensures kept { OnErr result (into.new.items ≡ into.old.items) }
{
    let text = escaped_text(alloc, bytes)?;
    append(text.as_bytes(), into)
}

ghost use Rattle.std.specs.Prelude.{◌≡◌, ◌==◌, ℕ, IfOk, List, true, encode_utf8_all};
ghost use Rattle.std.specs.List.{list_all, list_any};
ghost use Rattle.mt_http_types.specs.Target.{is_target, is_target_byte};

use mt_tree::{NoMemory, Text};
use std::alloc::Global;
use std::str;

/// What a client asks a server for: a path with or without a query, as in the request line of HTTP/1.1.
///
/// This type holds any text. The targets of the language are a slash and then at most 8,191 ASCII letters, digits and
/// signs among `-._~!$&'()*+,;=:@%/?`; [`Target::fits`] is the test.
#[derive(Drop)]
pub struct Target(pub Text);

impl Target {
    ghost use Rattle.std.specs.Prelude.{◌↔◌, IsTrue, MatchOption, false};
    ghost use Rattle.mt_http_types.specs.Target.{IsTarget, IsSpelled};

    /// Whether the text is a target of the language. Takes no memory.
    pub fn fits(&self) -> bool
        ensures { IsTrue result ↔ IsTarget self.now }
    {
        target_fits(self.0.as_bytes())
    }

    /// The target that the bytes spell; `None` exactly where they are no target of the language.
    ///
    /// # Errors
    /// `NoMemory`.
    pub fn read(alloc: Global, bytes: &[u8]) -> Result<Option<Target>, NoMemory>
        ensures { IfOk result (λ read. MatchOption read (is_target bytes.now ≡ false) (IsSpelled bytes.now)) }
    {
        if target_fits(bytes) {
            Ok(Some(Target(ascii_text(alloc, bytes)?)))
        } else {
            Ok(None)
        }
    }
}

#[tactic(auto, using(crate::proofs::Targets::utf8, crate::proofs::Targets::characters))]
fn ascii_text(alloc: Global, bytes: &[u8]) -> Result<Text, NoMemory>
    requires { is_target bytes.now ≡ true }
    ensures { IfOk result (λ text. text ≡ bytes.now) }
{
    match str::from_utf8(bytes) {
        Ok(text) => Text::from_str(alloc, text),
        Err(_refused) => unreachable!(),
    }
}

fn is_among(signs: &[u8], byte: u8) -> bool
    ensures { result ≡ list_any (λ sign. sign == byte) signs.now }
{
    signs.iter().any(|sign| *sign == byte)
}

fn is_target_byte(byte: u8) -> bool
    ensures { result ≡ is_target_byte byte }
{
    byte.is_ascii_alphanumeric() || is_among(b"-._~!$&'()*+,;=:@%/?", byte)
}

fn are_target_bytes(bytes: &[u8]) -> bool
    ensures { result ≡ list_all is_target_byte bytes.now }
{
    bytes.iter().all(|byte| is_target_byte(*byte))
}

/// Whether the bytes spell a target of the language: a slash and then at most 8,191 ASCII letters, digits and signs among
/// `-._~!$&'()*+,;=:@%/?`. Takes no memory.
pub fn target_fits(bytes: &[u8]) -> bool
    ensures { result ≡ is_target bytes.now }
{
    match bytes.split_first() {
        None => false,
        Some((first, rest)) => *first == b'/' && (rest.len() <= 8191 && are_target_bytes(rest)),
    }
}

/// All bytes of a target are ASCII, so they are its characters.
pub fn targets_are_ascii()
    ensures { (bytes : List ℕ) → is_target bytes ≡ true → encode_utf8_all bytes ≡ bytes }
{}

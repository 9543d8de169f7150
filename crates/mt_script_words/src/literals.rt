ghost use Rattle.std.specs.Prelude.{◌≡◌, ◌++◌, OnOk};
ghost use Rattle.mt_script_words.specs.Outcome.{Gives};
ghost use Rattle.mt_script_words.specs.Literals.{code_of, escape_at, piece_at, piece_bytes, string_at, text_at};

use crate::refusal::CodeRefusal;
use crate::texts::short_text;
use mt_json::hexadecimal;
use mt_tree::{NoMemory, Text, append};
use std::alloc::Global;

/// A part of a literal.
#[derive(Clone, Copy)]
pub(crate) enum Piece {
    /// A byte that stands for itself.
    Byte(u8),
    /// The character of an escape.
    Character(char),
}

fn code(a: u8, b: u8, c: u8, d: u8) -> u32
    ensures { result ≡ code_of a b c d }
{
    let high = 16 * u32::from(hexadecimal(a)) + u32::from(hexadecimal(b));
    let low = 16 * u32::from(hexadecimal(c)) + u32::from(hexadecimal(d));
    256 * high + low
}

fn escape(bytes: &[u8]) -> Result<(Option<Piece>, &[u8]), CodeRefusal>
    ensures { Gives (λ x. (x.0, x.1.now)) result (escape_at bytes.now) }
{
    match bytes {
        [] => Err(CodeRefusal::NotCode),
        [b'u', a, b, c, d, rest @ ..] => match char::from_u32(code(*a, *b, *c, *d)) {
            Some(character) => Ok((Some(Piece::Character(character)), rest)),
            None => Err(CodeRefusal::NotCode),
        },
        [b'u', ..] => Err(CodeRefusal::NotCode),
        [e, rest @ ..] => Ok((Some(Piece::Byte(*e)), rest)),
    }
}

// The next part, or `None` where the closing quote was next.
#[tactic(auto, unfolding(crate::specs::Literals::piece_at))]
fn next_piece(bytes: &[u8]) -> Result<(Option<Piece>, &[u8]), CodeRefusal>
    ensures { Gives (λ x. (x.0, x.1.now)) result (piece_at bytes.now) }
{
    match bytes {
        [] => Err(CodeRefusal::NotCode),
        [b'"', rest @ ..] => Ok((None, rest)),
        [b'\\', rest @ ..] => escape(rest),
        [b, rest @ ..] => Ok((Some(Piece::Byte(*b)), rest)),
    }
}

fn append_piece(piece: Piece, into: &mut Vec<u8>) -> Result<(), NoMemory>
    ensures { OnOk result (into.new.items ≡ into.old.items ++ piece_bytes piece) }
{
    match piece {
        Piece::Byte(b) => append(&[b], into),
        Piece::Character(c) => {
            let mut buffer = [0u8; 4];
            append(c.encode_utf8(&mut buffer).as_bytes(), into)
        }
    }
}

/// The bytes of the literal behind its first quote, and what follows the closing quote.
///
/// # Errors
/// `NotCode` where no quote closes it, or where it has an escape of no character; `NoMemory`.
pub fn string(alloc: Global, bytes: &[u8]) -> Result<(Vec<u8>, &[u8]), CodeRefusal>
    ensures { Gives (λ x. (x.0.items, x.1.now)) result (string_at bytes.now) }
{
    let mut out = Vec::new(alloc);
    let mut rest = bytes;
    for _ in 0..bytes.len() {
        let (next, after) = next_piece(rest)?;
        rest = after;
        match next {
            None => return Ok((out, rest)),
            Some(found) => append_piece(found, &mut out)?,
        }
    }
    Err(CodeRefusal::NotCode)
}

/// The text of the literal behind its first quote, and what follows the closing quote.
///
/// # Errors
/// `NotCode` where no quote closes it, or where it has an escape of no character or is no UTF-8 or too long; `NoMemory`.
#[tactic(auto, unfolding(crate::specs::Literals::text_at))]
pub fn text(alloc: Global, bytes: &[u8]) -> Result<(Text, &[u8]), CodeRefusal>
    ensures { Gives (λ x. (x.0, x.1.now)) result (text_at bytes.now) }
{
    let (content, rest) = string(alloc, bytes)?;
    Ok((short_text(alloc, content.as_slice())?, rest))
}

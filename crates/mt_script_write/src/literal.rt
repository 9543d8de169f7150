ghost use Rattle.std.specs.Prelude.{◌≡◌, ◌<◌, ◌^◌, ◌++◌, ◌∷◌, OnOk, OnErr};
ghost use Rattle.std.specs.Io.{StartsWith};
ghost use Rattle.std.specs.Str.{chars};
ghost use Rattle.mt_syntax.specs.CodeText.{code_escaped, four_digits, literal};

use mt_json::hexadecimal_digit;
use mt_tree::{NoMemory, append};

fn append_unicode_escape(code: u32, into: &mut Vec<u8>) -> Result<(), NoMemory>
    requires { code < 2 ^ 16 }
    ensures text { OnOk result (into.new.items ≡ into.old.items ++ (92 ∷ 117 ∷ four_digits code)) }
    ensures kept { OnErr result (into.new.items ≡ into.old.items) }
{
    let first = hexadecimal_digit((code / 4096) as u8);
    let second = hexadecimal_digit((code / 256 % 16) as u8);
    let third = hexadecimal_digit((code / 16 % 16) as u8);
    let fourth = hexadecimal_digit((code % 16) as u8);
    append(&[b'\\', b'u', first, second, third, fourth], into)
}

#[tactic(auto, unfolding(mt_syntax::specs::CodeText::code_escaped))]
fn append_escaped(c: char, into: &mut Vec<u8>) -> Result<(), NoMemory>
    ensures text { OnOk result (into.new.items ≡ into.old.items ++ code_escaped c) }
    ensures kept { OnErr result (into.new.items ≡ into.old.items) }
{
    match c {
        '"' => append(b"\\\"", into),
        '\\' => append(b"\\\\", into),
        '<' | '>' | '&' | '\u{2028}' | '\u{2029}' | '\0'..='\u{1f}' => {
            append_unicode_escape(c as u32, into)
        }
        _ => {
            let mut buffer = [0u8; 4];
            append(c.encode_utf8(&mut buffer).as_bytes(), into)
        }
    }
}

/// Appends a text literal: the characters between quotes, where those that could end the literal, a script or a line are
/// written by their escapes.
///
/// # Errors
/// `NoMemory`; a beginning of the literal may then have been appended.
#[tactic(auto, using(mt_tree::proofs::Fronts::front_of_front, mt_tree::proofs::Fronts::front_of_more))]
pub fn append_literal(text: &str, into: &mut Vec<u8>) -> Result<(), NoMemory>
    ensures text { OnOk result (into.new.items ≡ into.old.items ++ literal (chars text.now)) }
    ensures kept { OnErr result (StartsWith into.new.items into.old.items) }
{
    append(b"\"", into)?;
    for c in text.chars() {
        append_escaped(c, into)?;
    }
    append(b"\"", into)
}

ghost use Rattle.std.specs.Prelude.{◌≡◌, ◌<◌, ◌++◌, ◌∷◌, ◌/◌, ◌%◌, [], OnOk, OnErr};
ghost use Rattle.std.specs.Io.{StartsWith};
ghost use Rattle.std.specs.Char.{digit_char};
ghost use Rattle.mt_syntax.specs.DataText.{escaped, json_text as text_of};

use mt_tree::{NoMemory, Text, append};

/// The lower-case hexadecimal digit of a number below 16, in ASCII.
pub fn hexadecimal_digit(digit: u8) -> u8
    requires { digit < 16 }
    ensures { result ≡ digit_char digit }
{
    if digit < 10 {
        b'0' + digit
    } else {
        b'a' + (digit - 10)
    }
}

fn append_control(code: u8, into: &mut Vec<u8>) -> Result<(), NoMemory>
    ensures text { OnOk result (into.new.items ≡ into.old.items ++ (92 ∷ 117 ∷ 48 ∷ 48 ∷ digit_char (code / 16) ∷ digit_char (code % 16) ∷ [])) }
    ensures kept { OnErr result (into.new.items ≡ into.old.items) }
{
    let high = hexadecimal_digit(code / 16);
    let low = hexadecimal_digit(code % 16);
    append(&[b'\\', b'u', b'0', b'0', high, low], into)
}

#[tactic(auto, unfolding(mt_syntax::specs::DataText::escaped))]
fn append_escaped(c: char, into: &mut Vec<u8>) -> Result<(), NoMemory>
    ensures text { OnOk result (into.new.items ≡ into.old.items ++ escaped c) }
    ensures kept { OnErr result (into.new.items ≡ into.old.items) }
{
    match c {
        '"' => append(b"\\\"", into),
        '\\' => append(b"\\\\", into),
        '\u{8}' => append(b"\\b", into),
        '\t' => append(b"\\t", into),
        '\n' => append(b"\\n", into),
        '\u{c}' => append(b"\\f", into),
        '\r' => append(b"\\r", into),
        '\0'..='\u{1f}' => append_control(c as u32 as u8, into),
        _ => {
            let mut buffer = [0u8; 4];
            append(c.encode_utf8(&mut buffer).as_bytes(), into)
        }
    }
}

/// Appends the JSON text of a text: its characters between quotes, where a quote, a backslash and the characters below
/// U+0020 are written by their escapes, and all others as UTF-8.
///
/// # Errors
/// `NoMemory`; a beginning of the text may then have been appended.
#[tactic(auto, using(mt_tree::proofs::Fronts::front_of_front, mt_tree::proofs::Fronts::front_of_more))]
pub fn json_text(text: &Text, into: &mut Vec<u8>) -> Result<(), NoMemory>
    ensures text { OnOk result (into.new.items ≡ into.old.items ++ text_of text.now) }
    ensures kept { OnErr result (StartsWith into.new.items into.old.items) }
{
    append(b"\"", into)?;
    for c in text.as_str().chars() {
        append_escaped(c, into)?;
    }
    append(b"\"", into)
}

ghost use Rattle.std.specs.Prelude.{◌≡◌, ◌++◌, ◌∷◌, codes, OnOk, OnErr};
ghost use Rattle.std.specs.Io.{StartsWith};
ghost use Rattle.std.specs.Str.{encode_utf8_all};
ghost use Rattle.mt_syntax.specs.PageText.{escape_byte, escaped};

use mt_tree::{NoMemory, Text, append};

fn append_escape(byte: u8, into: &mut Vec<u8>) -> Result<(), NoMemory>
    ensures text { OnOk result (into.new.items ≡ into.old.items ++ escape_byte byte) }
    ensures kept { OnErr result (into.new.items ≡ into.old.items) }
{
    match byte {
        b'&' => append(b"&amp;", into),
        b'<' => append(b"&lt;", into),
        b'>' => append(b"&gt;", into),
        b'"' => append(b"&quot;", into),
        b'\r' => append(b"&#13;", into),
        _ => append(&[byte], into),
    }
}

/// Appends the bytes of a text, with character references in the place of `&`, `<`, `>`, `"` and the carriage return.
///
/// # Errors
/// `NoMemory`; a beginning of the text may then have been appended.
#[tactic(auto, using(mt_tree::proofs::Fronts::front_of_front, mt_tree::proofs::Fronts::front_of_more), unfolding(mt_syntax::specs::PageText::escaped))]
pub fn append_escaped(bytes: &[u8], into: &mut Vec<u8>) -> Result<(), NoMemory>
    ensures text { OnOk result (into.new.items ≡ into.old.items ++ escaped bytes.now) }
    ensures kept { OnErr result (StartsWith into.new.items into.old.items) }
{
    for byte in bytes {
        append_escape(*byte, into)?;
    }
    Ok(())
}

/// Appends an attribute, with a space before it: its name, and its value escaped in quotes.
///
/// # Errors
/// `NoMemory`; a beginning of the text may then have been appended.
#[tactic(auto, using(mt_tree::proofs::Fronts::front_of_front, mt_tree::proofs::Fronts::front_of_more))]
pub fn append_attribute(name: &Text, value: &[u8], into: &mut Vec<u8>) -> Result<(), NoMemory>
    ensures text { OnOk result (into.new.items ≡ into.old.items ++ 32 ∷ (encode_utf8_all name.now ++ (codes "=\"" ++ (escaped value.now ++ codes "\"")))) }
    ensures kept { OnErr result (StartsWith into.new.items into.old.items) }
{
    append(b" ", into)?;
    append(name.as_bytes(), into)?;
    append(b"=\"", into)?;
    append_escaped(value, into)?;
    append(b"\"", into)
}

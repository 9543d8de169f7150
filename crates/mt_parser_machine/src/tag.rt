//! The names of tags.

ghost use Rattle.std.specs.Prelude.{◌≡◌, drop};
ghost use Rattle.std.specs.Str.{bytes_eq};
ghost use Rattle.mt_grammar.specs.Token as grammar_token;
ghost use Rattle.mt_grammar.specs.Grammar as grammar;
ghost use Rattle.mt_parser_marks.specs.Views.{mark_of, token_of};

use mt_parser_marks::{Mark, Token};

fn is_tag_byte(byte: u8) -> bool
    ensures { result ≡ grammar_token.is_tag_byte byte }
{
    byte.is_ascii_digit() || byte.is_ascii_alphabetic() || byte == b'-'
}

// The longest front of letters, digits and dashes.
fn tag_bytes(bytes: &[u8]) -> &[u8]
    ensures { result.now ≡ grammar_token.tag_bytes bytes.now }
{
    for (end, byte) in bytes.iter().enumerate() {
        if !is_tag_byte(*byte) {
            return &bytes[..end];
        }
    }
    bytes
}

// The name behind a sign of `sign` bytes.
fn tag_name(text: &[u8], sign: usize) -> &[u8]
    ensures { result.now ≡ grammar_token.tag_bytes (drop sign text.now) }
{
    if sign < text.len() {
        tag_bytes(&text[sign..])
    } else {
        &[]
    }
}

/// The name of the tag that the token opens.
#[tactic(auto, unfolding(mt_grammar::specs::Token::open_name))]
pub fn tag_mark<'a>(token: Token<'a>) -> Mark<'a>
    ensures { mark_of result ≡ grammar.tag_mark (token_of token.entry) }
{
    Mark {
        place: token.mark.place,
        text: tag_name(token.mark.text, b"<".len()),
    }
}

/// Whether the token closes the tag of this name.
#[tactic(auto, unfolding(mt_grammar::specs::Token::close_name))]
pub fn closes<'a>(token: Token<'a>, tag: Mark<'a>) -> bool
    ensures { result ≡ bytes_eq (grammar_token.close_name (token_of token.entry)) tag.entry.text.now }
{
    tag_name(token.mark.text, b"</".len()) == tag.text
}

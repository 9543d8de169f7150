//! The terminal that a token is, by its kind and text.

ghost use Rattle.std.specs.Prelude.{◌≡◌, map};
ghost use Rattle.mt_grammar.specs.Token as grammar;
ghost use Rattle.mt_parser_marks.specs.Rows.{row_of};

use mt_grammar::{Constant, Infix, Jump, StepSign, Terminal};
use mt_tree::{Binary, Kind, VarKind};

/// A text with the terminal that it spells.
#[derive(Clone, Copy)]
pub struct Row(pub &'static [u8], pub Terminal);

const WORDS: [Row; 20] = [
    Row(b"true", Terminal::Constant(Constant::True)),
    Row(b"false", Terminal::Constant(Constant::False)),
    Row(b"null", Terminal::Constant(Constant::Null)),
    Row(b"undefined", Terminal::Constant(Constant::Undefined)),
    Row(b"catch", Terminal::Catch),
    Row(b"else", Terminal::Else),
    Row(b"for", Terminal::For),
    Row(b"function", Terminal::Function),
    Row(b"if", Terminal::If),
    Row(b"break", Terminal::Jump(Jump::Break)),
    Row(b"continue", Terminal::Jump(Jump::Continue)),
    Row(b"return", Terminal::Return),
    Row(b"service", Terminal::Service),
    Row(b"throw", Terminal::Throw),
    Row(b"try", Terminal::Try),
    Row(b"typeof", Terminal::Typeof),
    Row(b"while", Terminal::While),
    Row(b"var", Terminal::Declare(VarKind::Var)),
    Row(b"let", Terminal::Declare(VarKind::Let)),
    Row(b"const", Terminal::Declare(VarKind::Const)),
];

const SIGNS: [Row; 33] = [
    Row(b"(", Terminal::Open),
    Row(b")", Terminal::Close),
    Row(b"[", Terminal::OpenSquare),
    Row(b"]", Terminal::CloseSquare),
    Row(b"{", Terminal::OpenBrace),
    Row(b"}", Terminal::CloseBrace),
    Row(b";", Terminal::Semicolon),
    Row(b",", Terminal::Comma),
    Row(b".", Terminal::Dot),
    Row(b"?", Terminal::Question),
    Row(b":", Terminal::Colon),
    Row(b"!", Terminal::Exclamation),
    Row(b"++", Terminal::Step(StepSign::Increment)),
    Row(b"--", Terminal::Step(StepSign::Decrement)),
    Row(b"||", Terminal::Infix(Infix::Or)),
    Row(b"&&", Terminal::Infix(Infix::And)),
    Row(b"+", Terminal::Infix(Infix::Binary(Binary::Add))),
    Row(b"-", Terminal::Infix(Infix::Binary(Binary::Sub))),
    Row(b"*", Terminal::Infix(Infix::Binary(Binary::Mul))),
    Row(b"/", Terminal::Infix(Infix::Binary(Binary::Div))),
    Row(b"%", Terminal::Infix(Infix::Binary(Binary::Rem))),
    Row(b"<", Terminal::Infix(Infix::Binary(Binary::Less))),
    Row(b"<=", Terminal::Infix(Infix::Binary(Binary::LessEqual))),
    Row(b">", Terminal::Infix(Infix::Binary(Binary::Greater))),
    Row(b">=", Terminal::Infix(Infix::Binary(Binary::GreaterEqual))),
    Row(b"===", Terminal::Infix(Infix::Binary(Binary::Same))),
    Row(b"!==", Terminal::Infix(Infix::Binary(Binary::Different))),
    Row(b"=", Terminal::Assign(None)),
    Row(b"+=", Terminal::Assign(Some(Binary::Add))),
    Row(b"-=", Terminal::Assign(Some(Binary::Sub))),
    Row(b"*=", Terminal::Assign(Some(Binary::Mul))),
    Row(b"/=", Terminal::Assign(Some(Binary::Div))),
    Row(b"%=", Terminal::Assign(Some(Binary::Rem))),
];

const TAG_ENDS: [Row; 2] = [
    Row(b">", Terminal::TagEnd),
    Row(b"/>", Terminal::TagSelfEnd),
];

/// The terminal of the grammar that a token of this kind and text is. A reserved word that only
/// stands as a name is `OtherWord`; a text that no token of the kind has is `Other`. Takes no
/// memory.
pub fn terminal_of(kind: Kind, text: &[u8]) -> Terminal
    ensures { result ≡ grammar.terminal_of kind text.now }
{
    match kind {
        Kind::Name => Terminal::Name,
        Kind::Reserved => listed(&WORDS, Terminal::OtherWord, text),
        Kind::Number => Terminal::Number,
        Kind::Text => Terminal::Text,
        Kind::Punctuator => listed(&SIGNS, Terminal::Other, text),
        Kind::TagOpen => Terminal::TagOpen,
        Kind::AttributeName => Terminal::AttributeName,
        Kind::Quoted => Terminal::Quoted,
        Kind::TagEnd => listed(&TAG_ENDS, Terminal::Other, text),
        Kind::ChildText => Terminal::ChildText,
        Kind::CloseTag => Terminal::CloseTag,
        Kind::TildeOpen => Terminal::TildeOpen,
        Kind::DollarOpen => Terminal::DollarOpen,
    }
}

// What the table has for the text.
fn listed(rows: &[Row], other: Terminal, text: &[u8]) -> Terminal
    ensures { result ≡ grammar.listed (map row_of rows.now) other text.now }
{
    for row in rows {
        if row.0 == text {
            return row.1;
        }
    }
    other
}

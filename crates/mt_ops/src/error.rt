ghost use Rattle.std.specs.Prelude.{◌≡◌, true, IfOk};
ghost use Rattle.mt_ops.specs.Texts.{is_plain};
ghost use Rattle.mt_ops.specs.Errors.{operator_text, error_name, error_message};

use crate::text::{phrase, plain, sentence};
use mt_tree::{NoMemory, Text};
use std::alloc::Global;

/// An operator that takes numbers or texts, as an error names it.
#[derive(Clone, Copy, Debug, PartialEq, Eq)]
pub enum Operator {
    /// `+`, between operands or before one.
    Plus,
    /// `-`, between operands or before one.
    Minus,
    /// `*`
    Times,
    /// `/`
    Over,
    /// `%`
    Remainder,
    /// `<`
    Less,
    /// `<=`
    LessEqual,
    /// `>`
    Greater,
    /// `>=`
    GreaterEqual,
    /// `++`
    Increment,
    /// `--`
    Decrement,
}

/// An error that a program can catch. A name or a key that an error holds is cut to its first 64 characters in the
/// message.
#[derive(Drop)]
pub enum ErrorKind {
    /// A client's global variable, by its name, isn't declared yet.
    NotDefined(Text),
    /// A variable, by its name, is read or written before its declaration.
    BeforeDeclaration(Text),
    /// A constant, by its name, is written.
    Constant(Text),
    /// Operands are of kinds that the operator doesn't take.
    OperandsDoNotFit(Operator),
    /// A result isn't within 2^53 - 1 in size.
    NumberOutOfRange,
    /// A quotient isn't whole.
    InexactDivision,
    /// A divisor is 0.
    DivisionByZero,
    /// A text would have more than 1,048,576 units of UTF-16.
    TextTooLong,
    /// A text is cut between the two units of one character.
    CutInsideCharacter,
    /// What is called isn't a function.
    NotFunction,
    /// A value has no property of that key.
    NoSuchProperty(Text),
    /// A key can't name a property of an object.
    BadPropertyName(Text),
    /// An index is past the end of an array or a text.
    IndexOutOfRange,
    /// A builtin, by its name, doesn't take an argument.
    BadArgument(Text),
    /// A text of an HTML tree holds U+0000.
    NulInHtml,
    /// A value can't stand in an HTML tree.
    CannotStandInHtml,
    /// An HTML tree nests too deep, or holds too much.
    HtmlTooLarge,
    /// Too many posts of one client aren't over.
    TooManyPosts,
    /// A tag, by its name, isn't known.
    UnknownTag(Text),
    /// An attribute, by its name, can't be set.
    BadAttribute(Text),
    /// A node is given a child, and can't have one.
    CannotHoldChildren,
    /// A node would stand below itself, or a page's root below a node.
    CannotBeMoved,
    /// What is loaded isn't a page.
    NotPage,
}

impl Operator {
    /// The operator as a program writes it. Takes no memory.
    pub fn as_str(self) -> &'static str
        ensures { result.now ≡ operator_text self }
    {
        match self {
            Operator::Plus => "+",
            Operator::Minus => "-",
            Operator::Times => "*",
            Operator::Over => "/",
            Operator::Remainder => "%",
            Operator::Less => "<",
            Operator::LessEqual => "<=",
            Operator::Greater => ">",
            Operator::GreaterEqual => ">=",
            Operator::Increment => "++",
            Operator::Decrement => "--",
        }
    }
}

impl ErrorKind {
    /// The error's `name`: `ReferenceError`, `TypeError` or `RangeError`. Takes no memory.
    #[tactic(auto, unfolding(crate::specs::Errors::error_name))]
    pub fn name(&self) -> &'static str
        ensures text { result.now ≡ error_name self.now }
        ensures ascii { is_plain result.now ≡ true }
    {
        match self {
            ErrorKind::NotDefined(_) | ErrorKind::BeforeDeclaration(_) => "ReferenceError",
            ErrorKind::NumberOutOfRange
            | ErrorKind::InexactDivision
            | ErrorKind::DivisionByZero
            | ErrorKind::TextTooLong
            | ErrorKind::CutInsideCharacter
            | ErrorKind::IndexOutOfRange
            | ErrorKind::HtmlTooLarge
            | ErrorKind::TooManyPosts => "RangeError",
            _ => "TypeError",
        }
    }

    /// The error's `message`.
    ///
    /// # Errors
    /// `NoMemory`.
    #[tactic(auto, unfolding(crate::specs::Errors::error_message), using(crate::proofs::Texts::operator_cut))]
    pub fn message(&self, alloc: Global) -> Result<Text, NoMemory>
        ensures { IfOk result (λ text. text ≡ error_message self.now) }
    {
        match self {
            ErrorKind::NotDefined(name) => sentence(alloc, name.as_str(), " is not defined"),
            ErrorKind::BeforeDeclaration(name) => sentence(
                alloc,
                name.as_str(),
                " is read before its declaration",
            ),
            ErrorKind::Constant(name) => sentence(alloc, name.as_str(), " is a constant"),
            ErrorKind::OperandsDoNotFit(operator) => phrase(
                alloc,
                "operands do not fit ",
                operator.as_str(),
            ),
            ErrorKind::NumberOutOfRange => plain(alloc, "number out of range"),
            ErrorKind::InexactDivision => plain(alloc, "division is not exact"),
            ErrorKind::DivisionByZero => plain(alloc, "division by zero"),
            ErrorKind::TextTooLong => plain(alloc, "text too long"),
            ErrorKind::CutInsideCharacter => plain(alloc, "cut inside a character"),
            ErrorKind::NotFunction => plain(alloc, "not a function"),
            ErrorKind::NoSuchProperty(key) => phrase(alloc, "no such property: ", key.as_str()),
            ErrorKind::BadPropertyName(key) => phrase(alloc, "bad property name: ", key.as_str()),
            ErrorKind::IndexOutOfRange => plain(alloc, "index out of range"),
            ErrorKind::BadArgument(name) => phrase(alloc, "bad argument of ", name.as_str()),
            ErrorKind::NulInHtml => plain(alloc, "NUL in HTML text"),
            ErrorKind::CannotStandInHtml => plain(alloc, "value cannot stand in HTML"),
            ErrorKind::HtmlTooLarge => plain(alloc, "HTML too large"),
            ErrorKind::TooManyPosts => plain(alloc, "too many posts"),
            ErrorKind::UnknownTag(tag) => phrase(alloc, "unknown tag: ", tag.as_str()),
            ErrorKind::BadAttribute(name) => phrase(alloc, "bad attribute: ", name.as_str()),
            ErrorKind::CannotHoldChildren => plain(alloc, "node cannot hold children"),
            ErrorKind::CannotBeMoved => plain(alloc, "node cannot be moved there"),
            ErrorKind::NotPage => plain(alloc, "not a page"),
        }
    }
}

//! Characters of the source, and what they are to the lexer.

ghost use Rattle.std.specs.Prelude.{◌≡◌, ◌<◌, ◌+◌, ◌^◌, length};
ghost use Rattle.std.specs.Char.{encode_utf8};
ghost use Rattle.mt_lexer.specs.Character as spelling;
ghost use Rattle.mt_lexer.specs.Sign as table;

use mt_tree::Span;

/// A character, with the bytes where it stands.
#[derive(Clone, Copy)]
pub struct SourceChar {
    pub value: char,
    pub span: Span,
}

impl SourceChar {
    /// The character that begins at this byte.
    pub fn new(value: char, start: u32) -> SourceChar
        requires { start + length (encode_utf8 value) < 2 ^ 32 }
        ensures { result ≡ spelling.located value start }
    {
        let end = start + value.len_utf8() as u32;
        SourceChar {
            value,
            span: Span { start, end },
        }
    }

    /// What stands for a character at the end of the source, which is this byte.
    pub fn end(at: u32) -> SourceChar
        ensures { result ≡ record { value = 0; span = spelling.between at at } }
    {
        SourceChar {
            value: '\0',
            span: Span { start: at, end: at },
        }
    }

    /// From a byte to before the character.
    pub fn span_before(self, start: u32) -> Span
        ensures { result ≡ spelling.between start self.span.start }
    {
        Span {
            start,
            end: self.span.start,
        }
    }

    /// From a byte to the end of the character.
    pub fn span_through(self, start: u32) -> Span
        ensures { result ≡ spelling.between start self.span.end }
    {
        Span {
            start,
            end: self.span.end,
        }
    }
}

/// A sign of code that more characters may join.
#[derive(Clone, Copy)]
pub enum Sign {
    Equals,
    Exclamation,
    Less,
    Greater,
    Ampersand,
    Bar,
    Plus,
    Minus,
    Star,
    Slash,
    Percent,
    Tilde,
    Dollar,
}

/// The quotes round a text or a value.
#[derive(Clone, Copy)]
pub enum Quote {
    Double,
    Single,
}

/// What a character is to the lexer. The end of the source is one too.
#[derive(Clone, Copy)]
pub enum Class {
    End,
    LineFeed,
    CarriageReturn,
    White,
    /// An ASCII letter.
    Letter,
    Underscore,
    /// Another character that may begin a name.
    NameStart,
    /// Another character that may continue a name.
    NameContinue,
    Zero,
    /// A digit from 1 to 9.
    Digit,
    Quote(Quote),
    Backslash,
    /// A sign that more characters may join, or that may open code.
    Sign(Sign),
    OpenBrace,
    CloseBrace,
    /// `)` or `]`.
    Closing,
    Dot,
    Colon,
    /// `(`, `[`, `;`, `,` or `?`.
    Separator,
    /// A character that begins nothing in code.
    Other,
}

impl Quote {
    pub fn is_same(self, other: Quote) -> bool
        ensures { result ≡ table.is_same_quote self other }
    {
        match (self, other) {
            (Quote::Double, Quote::Double) | (Quote::Single, Quote::Single) => true,
            (Quote::Double, Quote::Single) | (Quote::Single, Quote::Double) => false,
        }
    }
}

impl Class {
    pub fn is_digit(self) -> bool
        ensures { result ≡ table.is_digit self }
    {
        matches!(self, Class::Zero | Class::Digit)
    }

    pub fn starts_name(self) -> bool
        ensures { result ≡ table.starts_name self }
    {
        matches!(self, Class::Letter | Class::Underscore | Class::NameStart)
    }

    pub fn continues_name(self) -> bool
        ensures { result ≡ table.continues_name self }
    {
        match self {
            Class::NameContinue => true,
            _ => self.starts_name() || self.is_digit(),
        }
    }

    pub fn continues_tag(self) -> bool
        ensures { result ≡ table.continues_tag self }
    {
        match self {
            Class::Letter | Class::Sign(Sign::Minus) => true,
            _ => self.is_digit(),
        }
    }

    pub fn continues_attribute(self) -> bool
        ensures { result ≡ table.continues_attribute self }
    {
        match self {
            Class::Underscore | Class::Colon => true,
            _ => self.continues_tag(),
        }
    }

    /// Whether it can't stand directly behind a number.
    pub fn spoils_number(self) -> bool
        ensures { result ≡ table.spoils_number self }
    {
        self.starts_name() || self.is_digit()
    }
}

/// What the character is.
pub fn class_of(c: char) -> Class
    ensures { result ≡ spelling.class_of c }
{
    if c < '\u{80}' {
        ascii_class(c)
    } else {
        wide_class(c)
    }
}

fn wide_class(c: char) -> Class
    ensures { result ≡ spelling.wide_class c }
{
    if matches!(c, '\u{A0}' | '\u{FEFF}' | '\u{2028}' | '\u{2029}') {
        Class::White
    } else if unicode_ident::is_xid_start(c) {
        Class::NameStart
    } else if unicode_ident::is_xid_continue(c) {
        Class::NameContinue
    } else {
        Class::Other
    }
}

fn ascii_class(c: char) -> Class
    ensures { result ≡ spelling.ascii_class c }
{
    match c {
        '\n' => Class::LineFeed,
        '\r' => Class::CarriageReturn,
        '\t' | '\u{B}' | '\u{C}' | ' ' => Class::White,
        'A'..='Z' | 'a'..='z' => Class::Letter,
        '_' => Class::Underscore,
        '0' => Class::Zero,
        '1'..='9' => Class::Digit,
        _ => sign_class(c),
    }
}

fn sign_class(c: char) -> Class
    ensures { result ≡ spelling.sign_class c }
{
    match c {
        '!' => Class::Sign(Sign::Exclamation),
        '"' => Class::Quote(Quote::Double),
        '$' => Class::Sign(Sign::Dollar),
        '%' => Class::Sign(Sign::Percent),
        '&' => Class::Sign(Sign::Ampersand),
        '\'' => Class::Quote(Quote::Single),
        ')' | ']' => Class::Closing,
        '*' => Class::Sign(Sign::Star),
        '+' => Class::Sign(Sign::Plus),
        '-' => Class::Sign(Sign::Minus),
        '.' => Class::Dot,
        '/' => Class::Sign(Sign::Slash),
        ':' => Class::Colon,
        '<' => Class::Sign(Sign::Less),
        '=' => Class::Sign(Sign::Equals),
        '>' => Class::Sign(Sign::Greater),
        '\\' => Class::Backslash,
        '{' => Class::OpenBrace,
        '|' => Class::Sign(Sign::Bar),
        '}' => Class::CloseBrace,
        '~' => Class::Sign(Sign::Tilde),
        '(' | ',' | ';' | '?' | '[' => Class::Separator,
        _ => Class::Other,
    }
}

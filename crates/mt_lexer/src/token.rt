use mt_tree::{Kind, Span};
use std::alloc::{AllocError, Global};
use std::marker::Model;

/// A token, with the bytes of the source that spell it.
#[derive(Clone, Copy, Debug)]
pub struct Token<'a> {
    pub kind: Kind,
    /// The bytes of the source where the token stands.
    pub text: &'a [u8],
    /// Where it stands, in bytes of the source.
    pub span: Span,
}

/// A source with its tokens in order. Only [`lex`](crate::lex) makes one.
#[derive(Drop)]
pub struct Tokens<'a> {
    source: &'a [u8],
    list: Vec<Token<'a>>,
}

impl<'a> Model for Tokens<'a> {
    ghost use Rattle.mt_lexer.specs.Tokens.{Spelled, marks_of, AllCut};

    ghost Value = { Spelled };

    ghost view = { λ t. record { source = t.source.now; marks = marks_of t.list.items } };

    ghost invariant = { λ t. AllCut t.source.now t.list.items };
}

impl<'a> Tokens<'a> {
    ghost use Rattle.std.specs.Prelude.{◌≡◌, ◌<◌, [], ◌∷◌, OnOk, length};
    ghost use Rattle.mt_lexer.specs.Tokens.{AllCut, Mark, marks_of, with_marks};
    ghost use Rattle.mt_lexer.specs.Character.{text_of};
    ghost use Rattle.mt_lexer.specs.Verdict.{start_of};

    /// The whole source. It takes no memory.
    pub fn source(&self) -> &'a [u8]
        ensures { result.now ≡ self.now.source }
    {
        self.source
    }

    /// The tokens in the order of the source. The text of each is a slice of the source. It takes
    /// no memory.
    pub fn list(&self) -> &[Token<'a>]
        ensures marks { marks_of result.now ≡ self.now.marks }
        ensures texts { AllCut self.now.source result.now }
    {
        self.list.as_slice()
    }

    pub(crate) fn new(alloc: Global, source: &'a [u8]) -> Self
        ensures { result ≡ record { source = source.now; marks = [] } }
    {
        Tokens {
            source,
            list: Vec::new(alloc),
        }
    }

    pub(crate) fn len(&self) -> usize
        ensures { result ≡ length self.now.marks }
    {
        self.list.len()
    }

    // The byte at which the token of this number begins, counted from 0.
    pub(crate) fn start_of(&self, number: usize) -> u32
        requires { number < length self.now.marks }
        ensures { result ≡ start_of number self.now.marks }
    {
        self.list[number].span.start
    }

    pub(crate) fn text(&self, span: Span) -> &'a [u8]
        ensures { result.now ≡ text_of self.now.source span }
    {
        let end = (span.end as usize).min(self.source.len());
        let start = (span.start as usize).min(end);
        &self.source[start..end]
    }

    pub(crate) fn push(&mut self, kind: Kind, span: Span) -> Result<(), AllocError>
        ensures { OnOk result (self.new ≡ with_marks self.old (record { kind = kind; span = span } ∷ [])) }
    {
        let text = self.text(span);
        self.list.push(Token { kind, text, span })?;
        Ok(())
    }
}

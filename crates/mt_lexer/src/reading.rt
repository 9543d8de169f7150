//! A whole source.

ghost use Rattle.std.specs.Prelude.{◌≡◌, ◌≤◌, ◌+◌, ◌<◌, ◌^◌, [], ◌∷◌, length, IfOk, OnOk, min};
ghost use Rattle.std.specs.Str.{chars, IsUtf8};
ghost use Rattle.mt_tree.specs.Place.{place_of};
ghost use Rattle.mt_lexer.specs.Character.{characters_from};
ghost use Rattle.mt_lexer.specs.Ending.{front, Ends};
ghost use Rattle.mt_lexer.specs.Machine.{lexed};
ghost use Rattle.mt_lexer.specs.Order.{InOrder};
ghost use Rattle.mt_lexer.specs.Verdict.{IsReading, refusal_of};
ghost use Rattle.mt_tree.specs.Limits.{source_limit};

use crate::character::{Class, SourceChar, class_of};
use crate::lexer::{Flow, Lexer};
use crate::mode::{Before, Fault, Mode, Modes};
use crate::part::Part;
use crate::refusal::LexRefusal;
use crate::token::Tokens;
use mt_tree::{Place, TOKEN_LIMIT};
use std::alloc::{AllocError, Global};

/// How the reading of a text ended.
#[derive(Clone, Copy)]
pub enum Ending {
    Finished,
    Refused(Fault, u32),
    TooManyTokens,
}

/// The tokens of a source of at most 1,048,576 bytes, or its first refusal.
///
/// It is `Ok` exactly where the source is UTF-8 that has a spelling of at most 200,000 tokens, and
/// then gives these tokens. [`LexRefusal`] says when each refusal comes. The bytes are read once,
/// from the front, and the cost grows with their number alone.
pub fn lex(alloc: Global, source: &[u8]) -> Result<Tokens<'_>, LexRefusal>
    requires small { length source.now ≤ source_limit }
    ensures reading { IsReading source.now result }
    ensures order { IfOk result (λ tokens. InOrder 0 tokens.marks (length source.now)) }
{
    let text = match str::from_utf8(source) {
        Ok(text) => text,
        Err(error) => {
            let place = place(source, error.valid_up_to());
            return Err(LexRefusal::NotUtf8(place));
        }
    };
    let mut lexer = Lexer::new(alloc, source)?;
    match lexer.read(text)? {
        Ending::Finished => Ok(lexer.tokens),
        Ending::Refused(fault, at) => Err(fault.at(place(source, at as usize))),
        Ending::TooManyTokens => {
            let at = lexer.tokens.start_of(TOKEN_LIMIT);
            Err(LexRefusal::TooManyTokens(place(source, at as usize)))
        }
    }
}

// Where the byte stands.
fn place(source: &[u8], at: usize) -> Place
    requires small { length source.now ≤ source_limit }
    ensures { result ≡ place_of source.now at }
{
    Place::of(source, at.min(source.len()) as u32)
}

impl Fault {
    fn at(self, place: Place) -> LexRefusal
        ensures { result ≡ refusal_of self place }
    {
        match self {
            Fault::BadCharacter => LexRefusal::BadCharacter(place),
            Fault::BadEscape => LexRefusal::BadEscape(place),
            Fault::Unclosed => LexRefusal::Unclosed(place),
            Fault::NumberTooLarge => LexRefusal::NumberTooLarge(place),
        }
    }
}

impl<'a> Lexer<'a> {
    // At the start of a source.
    fn new(alloc: Global, source: &'a [u8]) -> Result<Lexer<'a>, AllocError>
        ensures { IfOk result (λ l. l ≡ record { tokens = record { source = source.now; marks = [] }; modes = Mode.Code None ∷ []; before = Before.Other }) }
    {
        let mut modes = Modes::new(alloc);
        modes.push(Mode::Code(None))?;
        Ok(Lexer {
            tokens: Tokens::new(alloc, source),
            modes,
            before: Before::Other,
        })
    }

    // The characters of the text one by one, up to the end or the first refusal.
    fn read(&mut self, text: &str) -> Result<Ending, AllocError>
        requires small { length text.now ≤ source_limit }
        requires source { self.old.tokens.source ≡ text.now }
        requires few { length self.old.tokens.marks ≤ TOKEN_LIMIT }
        ensures source { OnOk result (self.new.tokens.source ≡ text.now) }
        ensures ends { IfOk result (λ e. Ends e self.new.tokens.marks (front self.old.tokens.marks (lexed text.now (characters_from 0 (chars text.now)) self.old.modes self.old.before Part.Fresh))) }
    {
        let mut part = Part::Fresh;
        let mut at = 0;
        for c in text.chars() {
            let here = SourceChar::new(c, at);
            let flow = self.step(part, here, class_of(c))?;
            if self.tokens.len() > TOKEN_LIMIT {
                return Ok(Ending::TooManyTokens);
            }
            match flow {
                Flow::Continue(next) => part = next,
                Flow::Refuse(fault, place) => return Ok(Ending::Refused(fault, place)),
                Flow::End => return Ok(Ending::Finished),
            }
            at = here.span.end;
        }
        self.finish(part, at)
    }

    // The end of the source, which is this byte.
    fn finish(&mut self, part: Part, at: u32) -> Result<Ending, AllocError>
        requires { at ≡ length self.old.tokens.source }
        ensures source { OnOk result (self.new.tokens.source ≡ self.old.tokens.source) }
        ensures ends { IfOk result (λ e. Ends e self.new.tokens.marks (front self.old.tokens.marks (lexed self.old.tokens.source [] self.old.modes self.old.before part))) }
    {
        let flow = self.step(part, SourceChar::end(at), Class::End)?;
        if self.tokens.len() > TOKEN_LIMIT {
            return Ok(Ending::TooManyTokens);
        }
        match flow {
            Flow::Continue(_) | Flow::End => Ok(Ending::Finished),
            Flow::Refuse(fault, place) => Ok(Ending::Refused(fault, place)),
        }
    }
}

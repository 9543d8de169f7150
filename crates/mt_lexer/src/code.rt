//! What a Code mode reads.

ghost use Rattle.std.specs.Prelude.{◌≡◌, [], ◌∷◌};
ghost use Rattle.mt_lexer.specs.Machine as machine;
ghost use Rattle.mt_lexer.specs.Steps.{Steps};

use crate::character::{Class, SourceChar};
use crate::lexer::{Flow, Lexer, Step};
use crate::mode::{Before, Fault, Mode};
use crate::part::{OpenText, Part};
use mt_tree::Kind;

impl Lexer<'_> {
    pub fn code(&mut self, at: SourceChar, class: Class, opening: Option<u32>) -> Step
        ensures { Steps result (machine.code_by self.old.tokens.source at class opening self.old.before self.old.modes) self.old self.new }
    {
        let mode = Mode::Code(opening);
        let start = at.span.start;
        match class {
            Class::End => match opening {
                None => Ok(Flow::End),
                Some(place) => Ok(Flow::Refuse(Fault::Unclosed, place)),
            },
            Class::White | Class::LineFeed | Class::CarriageReturn => self.enter(mode, Part::Fresh),
            Class::Letter | Class::Underscore | Class::NameStart => {
                self.enter(mode, Part::Name(start))
            }
            Class::Zero => self.enter(mode, Part::Zero(start)),
            Class::Digit => self.enter(mode, Part::Number(start)),
            Class::Quote(quote) => self.enter(mode, Part::Text(OpenText { start, quote })),
            Class::Sign(sign) => self.enter(mode, Part::Sign(at.span, sign)),
            Class::OpenBrace => {
                self.emit(Kind::Punctuator, at.span, Before::Other)?;
                self.modes.push(mode)?;
                self.enter(mode, Part::Fresh)
            }
            Class::CloseBrace => {
                self.emit(Kind::Punctuator, at.span, Before::Other)?;
                self.close(opening)
            }
            Class::Closing => self.single(at, mode, Before::Operand),
            Class::Dot => self.single(at, mode, Before::Dot),
            Class::Colon | Class::Separator => self.single(at, mode, Before::Other),
            Class::NameContinue | Class::Backslash | Class::Other => {
                Ok(Flow::Refuse(Fault::BadCharacter, start))
            }
        }
    }

    // A sign of one character.
    pub fn single(&mut self, at: SourceChar, mode: Mode, before: Before) -> Step
        ensures { Steps result (machine.emit Kind.Punctuator at.span (machine.go (mode ∷ self.old.modes) before Part.Fresh)) self.old self.new }
    {
        self.emit(Kind::Punctuator, at.span, before)?;
        self.enter(mode, Part::Fresh)
    }

    // A closing brace ends the mode, unless it is the lowest one.
    fn close(&mut self, opening: Option<u32>) -> Step
        requires { self.old.before ≡ Before.Other }
        ensures { Steps result (machine.closed opening self.old.modes) self.old self.new }
    {
        match self.modes.pop() {
            None => self.enter(Mode::Code(opening), Part::Fresh),
            Some(mode) => self.enter(mode, Part::Fresh),
        }
    }
}

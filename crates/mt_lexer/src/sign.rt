//! Signs of code, the longest first.

ghost use Rattle.std.specs.Prelude.{◌≡◌, [], ◌∷◌};
ghost use Rattle.mt_lexer.specs.Machine as machine;
ghost use Rattle.mt_lexer.specs.Steps.{Steps};

use crate::character::{Class, Sign, SourceChar};
use crate::lexer::{Flow, Lexer, Step};
use crate::mode::{Before, Fault, Mode, Opener};
use crate::part::Part;
use mt_tree::{Kind, Span};

impl Opener {
    ghost use Rattle.mt_lexer.specs.Sign.{opener_kind};

    fn kind(self) -> Kind
        ensures { result ≡ opener_kind self }
    {
        match self {
            Opener::Tilde => Kind::TildeOpen,
            Opener::Dollar => Kind::DollarOpen,
        }
    }
}

impl Lexer<'_> {
    // Behind a sign.
    pub fn sign(&mut self, sign: Span, which: Sign, at: SourceChar, class: Class) -> Step
        ensures { Steps result (machine.sign_by self.old.tokens.source at class sign which self.old.before self.old.modes) self.old self.new }
    {
        match which {
            Sign::Equals | Sign::Exclamation => self.equals(sign, at, class),
            Sign::Less => self.less(sign, at, class),
            Sign::Greater | Sign::Star | Sign::Percent => self.assigned(sign, at, class),
            Sign::Ampersand => self.ampersand(sign, at, class),
            Sign::Bar => self.bar(sign, at, class),
            Sign::Plus => self.plus(sign, at, class),
            Sign::Minus => self.minus(sign, at, class),
            Sign::Slash => self.slash(sign, at, class),
            Sign::Tilde => self.opener(sign, Opener::Tilde, at, class),
            Sign::Dollar => self.opener(sign, Opener::Dollar, at, class),
        }
    }

    // The sign alone, and the character afresh.
    fn alone(&mut self, sign: Span, at: SourceChar, class: Class) -> Step
        ensures { Steps result (machine.alone self.old.tokens.source at sign class self.old.modes) self.old self.new }
    {
        self.emit_before(Kind::Punctuator, sign, Before::Other, at, class)
    }

    // The sign with the character.
    fn joined(&mut self, sign: Span, at: SourceChar, before: Before) -> Step
        ensures { Steps result (machine.joined self.old.tokens.source at sign before self.old.modes) self.old self.new }
    {
        self.emit(Kind::Punctuator, at.span_through(sign.start), before)?;
        Ok(Flow::Continue(Part::Fresh))
    }

    // A `~` or `$` with the brace behind it.
    pub fn open_code(&mut self, start: u32, opener: Opener, at: SourceChar) -> Step
        ensures { Steps result (machine.opened self.old.tokens.source at start opener self.old.modes) self.old self.new }
    {
        self.emit(opener.kind(), at.span_through(start), Before::Other)?;
        self.enter(Mode::Code(Some(start)), Part::Fresh)
    }

    fn equals(&mut self, sign: Span, at: SourceChar, class: Class) -> Step
        ensures { Steps result (machine.equals_by self.old.tokens.source at class sign self.old.before self.old.modes) self.old self.new }
    {
        match class {
            Class::Sign(Sign::Equals) => Ok(Flow::Continue(Part::SignEquals(sign, at.span))),
            _ => self.alone(sign, at, class),
        }
    }

    // Behind `==` or `!=`, which are two tokens unless an equals sign follows.
    pub fn sign_equals(&mut self, sign: Span, equals: Span, at: SourceChar, class: Class) -> Step
        ensures { Steps result (machine.sign_equals_by self.old.tokens.source at class sign equals self.old.modes) self.old self.new }
    {
        match class {
            Class::Sign(Sign::Equals) => self.joined(sign, at, Before::Other),
            _ => {
                self.emit(Kind::Punctuator, sign, Before::Other)?;
                self.alone(equals, at, class)
            }
        }
    }

    fn less(&mut self, sign: Span, at: SourceChar, class: Class) -> Step
        ensures { Steps result (machine.less_by self.old.tokens.source at class sign self.old.before self.old.modes) self.old self.new }
    {
        match class {
            Class::Sign(Sign::Equals) => self.joined(sign, at, Before::Other),
            Class::Letter => match self.before {
                Before::Operand => self.alone(sign, at, class),
                Before::Dot | Before::Other => {
                    Ok(Flow::Continue(Part::TagName(sign.start, at.span.start)))
                }
            },
            _ => self.alone(sign, at, class),
        }
    }

    fn assigned(&mut self, sign: Span, at: SourceChar, class: Class) -> Step
        ensures { Steps result (machine.assigned_by self.old.tokens.source at class sign self.old.modes) self.old self.new }
    {
        match class {
            Class::Sign(Sign::Equals) => self.joined(sign, at, Before::Other),
            _ => self.alone(sign, at, class),
        }
    }

    fn plus(&mut self, sign: Span, at: SourceChar, class: Class) -> Step
        ensures { Steps result (machine.plus_by self.old.tokens.source at class sign self.old.modes) self.old self.new }
    {
        match class {
            Class::Sign(Sign::Plus) => self.joined(sign, at, Before::Operand),
            _ => self.assigned(sign, at, class),
        }
    }

    fn minus(&mut self, sign: Span, at: SourceChar, class: Class) -> Step
        ensures { Steps result (machine.minus_by self.old.tokens.source at class sign self.old.modes) self.old self.new }
    {
        match class {
            Class::Sign(Sign::Minus) => self.joined(sign, at, Before::Operand),
            _ => self.assigned(sign, at, class),
        }
    }

    fn slash(&mut self, sign: Span, at: SourceChar, class: Class) -> Step
        ensures { Steps result (machine.slash_by self.old.tokens.source at class sign self.old.before self.old.modes) self.old self.new }
    {
        match class {
            Class::Sign(Sign::Slash) => Ok(Flow::Continue(Part::LineComment)),
            Class::Sign(Sign::Star) => Ok(Flow::Continue(Part::BlockComment(sign.start))),
            _ => self.assigned(sign, at, class),
        }
    }

    fn ampersand(&mut self, sign: Span, at: SourceChar, class: Class) -> Step
        ensures { Steps result (machine.ampersand_by self.old.tokens.source at class sign self.old.modes) self.old self.new }
    {
        match class {
            Class::Sign(Sign::Ampersand) => self.joined(sign, at, Before::Other),
            _ => Ok(Flow::Refuse(Fault::BadCharacter, sign.start)),
        }
    }

    fn bar(&mut self, sign: Span, at: SourceChar, class: Class) -> Step
        ensures { Steps result (machine.bar_by self.old.tokens.source at class sign self.old.modes) self.old self.new }
    {
        match class {
            Class::Sign(Sign::Bar) => self.joined(sign, at, Before::Other),
            _ => Ok(Flow::Refuse(Fault::BadCharacter, sign.start)),
        }
    }

    fn opener(&mut self, sign: Span, opener: Opener, at: SourceChar, class: Class) -> Step
        ensures { Steps result (machine.opener_by self.old.tokens.source at class sign opener self.old.modes) self.old self.new }
    {
        match class {
            Class::OpenBrace => self.open_code(sign.start, opener, at),
            _ => Ok(Flow::Refuse(Fault::BadCharacter, sign.start)),
        }
    }
}

//! What a Children mode reads.

ghost use Rattle.std.specs.Prelude.{◌≡◌, [], ◌∷◌};
ghost use Rattle.mt_lexer.specs.Machine as machine;
ghost use Rattle.mt_lexer.specs.Steps.{Steps};

use crate::character::{Class, Sign, SourceChar};
use crate::lexer::{Flow, Lexer, Step};
use crate::mode::{Before, Fault, Mode, Opener};
use crate::part::Part;
use mt_tree::{Kind, Span};

impl Lexer<'_> {
    pub fn children(&mut self, at: SourceChar, class: Class, opening: u32) -> Step
        ensures { Steps result (machine.children_by self.old.tokens.source at class opening self.old.before self.old.modes) self.old self.new }
    {
        let mode = Mode::Children(opening);
        let start = at.span.start;
        match class {
            Class::End => Ok(Flow::Refuse(Fault::Unclosed, opening)),
            Class::Sign(Sign::Less) => self.enter(mode, Part::ChildLess(start)),
            Class::Sign(Sign::Tilde) => self.enter(mode, Part::ChildSign(start, Opener::Tilde)),
            Class::Sign(Sign::Dollar) => self.enter(mode, Part::ChildSign(start, Opener::Dollar)),
            _ => self.enter(mode, Part::ChildText(start)),
        }
    }

    // A text among children ends, or goes on.
    pub fn child_text(&mut self, start: u32, at: SourceChar, class: Class) -> Step
        ensures { Steps result (machine.child_text_by self.old.tokens.source at class start self.old.before self.old.modes) self.old self.new }
    {
        match class {
            Class::Sign(Sign::Tilde) => {
                Ok(Flow::Continue(Part::ChildTextSign(start, at.span.start, Opener::Tilde)))
            }
            Class::Sign(Sign::Dollar) => {
                Ok(Flow::Continue(Part::ChildTextSign(start, at.span.start, Opener::Dollar)))
            }
            Class::Sign(Sign::Less) | Class::End => {
                self.emit_before(
                    Kind::ChildText,
                    at.span_before(start),
                    Before::Other,
                    at,
                    class,
                )
            }
            _ => Ok(Flow::Continue(Part::ChildText(start))),
        }
    }

    // Behind a `~` or `$` in a text.
    pub fn child_text_sign(
        &mut self,
        text: Span,
        opener: Opener,
        at: SourceChar,
        class: Class,
    ) -> Step
        ensures { Steps result (machine.child_text_sign_by self.old.tokens.source at class text.start text.end opener self.old.before self.old.modes) self.old self.new }
    {
        match class {
            Class::OpenBrace => {
                self.emit(Kind::ChildText, text, Before::Other)?;
                self.open_code(text.end, opener, at)
            }
            _ => self.child_text(text.start, at, class),
        }
    }

    // Behind a `~` or `$` that no text stands before.
    pub fn child_sign(&mut self, start: u32, opener: Opener, at: SourceChar, class: Class) -> Step
        ensures { Steps result (machine.child_sign_by self.old.tokens.source at class start opener self.old.before self.old.modes) self.old self.new }
    {
        match class {
            Class::OpenBrace => self.open_code(start, opener, at),
            _ => self.child_text(start, at, class),
        }
    }

    // Behind a `<`.
    pub fn child_less(&mut self, start: u32, at: SourceChar, class: Class) -> Step
        ensures { Steps result (machine.child_less_by self.old.tokens.source at class start self.old.before self.old.modes) self.old self.new }
    {
        match class {
            Class::Letter => Ok(Flow::Continue(Part::TagName(start, at.span.start))),
            Class::Sign(Sign::Slash) => Ok(Flow::Continue(Part::CloseStart(start))),
            _ => Ok(Flow::Refuse(Fault::BadCharacter, start)),
        }
    }

    // Behind `</`.
    pub fn close_start(&mut self, start: u32, at: SourceChar, class: Class) -> Step
        ensures { Steps result (machine.close_start_by self.old.tokens.source at class start self.old.before self.old.modes) self.old self.new }
    {
        match class {
            Class::Letter => Ok(Flow::Continue(Part::CloseName(start))),
            Class::End => Ok(Flow::Refuse(Fault::Unclosed, start)),
            _ => Ok(Flow::Refuse(Fault::BadCharacter, at.span.start)),
        }
    }

    // The name of a close tag ends, or goes on.
    pub fn close_name(&mut self, start: u32, at: SourceChar, class: Class) -> Step
        ensures { Steps result (machine.close_name_by self.old.tokens.source at class start self.old.before self.old.modes) self.old self.new }
    {
        if class.continues_tag() {
            Ok(Flow::Continue(Part::CloseName(start)))
        } else {
            self.close_space(start, at, class)
        }
    }

    // Behind the name of a close tag.
    pub fn close_space(&mut self, start: u32, at: SourceChar, class: Class) -> Step
        ensures { Steps result (machine.close_space_by self.old.tokens.source at class start self.old.before self.old.modes) self.old self.new }
    {
        match class {
            Class::White | Class::LineFeed | Class::CarriageReturn => {
                Ok(Flow::Continue(Part::CloseSpace(start)))
            }
            Class::Sign(Sign::Greater) => self.end_mode(Kind::CloseTag, start, at),
            Class::End => Ok(Flow::Refuse(Fault::Unclosed, start)),
            _ => Ok(Flow::Refuse(Fault::BadCharacter, at.span.start)),
        }
    }
}

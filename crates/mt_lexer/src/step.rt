//! One character of the source.

ghost use Rattle.std.specs.Prelude.{◌≡◌, [], ◌∷◌};
ghost use Rattle.mt_lexer.specs.Machine as machine;
ghost use Rattle.mt_lexer.specs.Steps.{Steps};

use crate::character::{Class, Sign, SourceChar};
use crate::lexer::{Flow, Lexer, Step};
use crate::mode::{Before, Fault};
use crate::part::Part;
use crate::word::{before_word, is_number, word_kind};
use mt_tree::{Kind, Span};

impl Lexer<'_> {
    // The character where this part is open.
    pub fn step(&mut self, part: Part, at: SourceChar, class: Class) -> Step
        ensures { Steps result (machine.step_by self.old.tokens.source at part class self.old.before self.old.modes) self.old self.new }
    {
        match part {
            Part::Fresh => self.fresh(at, class),
            Part::Name(start) => self.word(start, at, class),
            Part::Zero(start) => self.number(start, at, class),
            Part::Number(start) => self.digits(start, at, class),
            Part::Text(text) => self.text(text, at, class),
            Part::Escape(escape) => Ok(escape.first(at)),
            Part::Unicode(escape) => Ok(escape.unicode(at)),
            Part::Unit(escape, left, value) => Ok(escape.unit(left, value, at)),
            Part::CodePointStart(escape) => Ok(escape.code_point_start(at)),
            Part::CodePoint(escape, left, value) => Ok(escape.code_point(left, value, at)),
            Part::HighSurrogate(escape) => Ok(escape.high(at)),
            Part::LowEscape(escape) => Ok(escape.low_escape(at)),
            Part::LowUnit(escape, left, value) => Ok(escape.low_unit(left, value, at)),
            Part::Sign(sign, which) => self.sign(sign, which, at, class),
            Part::SignEquals(sign, equals) => self.sign_equals(sign, equals, at, class),
            Part::LineComment => self.line_comment(at, class),
            Part::BlockComment(start) => self.block_comment(start, class),
            Part::BlockStar(start) => self.block_star(start, class),
            Part::TagName(start, name) => self.tag_name(start, name, at, class),
            Part::AttributeName(start) => self.attribute_name(start, at, class),
            Part::Quoted(start, quote) => self.quoted(start, quote, at, class),
            Part::TagSlash(start) => self.tag_slash(start, at, class),
            Part::ChildText(start) => self.child_text(start, at, class),
            Part::ChildTextSign(start, end, opener) => {
                self.child_text_sign(Span { start, end }, opener, at, class)
            }
            Part::ChildSign(start, opener) => self.child_sign(start, opener, at, class),
            Part::ChildLess(start) => self.child_less(start, at, class),
            Part::CloseStart(start) => self.close_start(start, at, class),
            Part::CloseName(start) => self.close_name(start, at, class),
            Part::CloseSpace(start) => self.close_space(start, at, class),
        }
    }

    // A word ends, or goes on.
    fn word(&mut self, start: u32, at: SourceChar, class: Class) -> Step
        ensures { Steps result (machine.step_by self.old.tokens.source at (Part.Name start) class self.old.before self.old.modes) self.old self.new }
    {
        if class.continues_name() {
            Ok(Flow::Continue(Part::Name(start)))
        } else {
            self.end_word(start, at, class)
        }
    }

    fn end_word(&mut self, start: u32, at: SourceChar, class: Class) -> Step
        ensures { Steps result (machine.word_by self.old.tokens.source at class start self.old.before self.old.modes) self.old self.new }
    {
        let span = at.span_before(start);
        let word = self.tokens.text(span);
        let before = before_word(self.before, word);
        self.emit_before(word_kind(word), span, before, at, class)
    }

    // A number ends, or goes on.
    fn digits(&mut self, start: u32, at: SourceChar, class: Class) -> Step
        ensures { Steps result (machine.step_by self.old.tokens.source at (Part.Number start) class self.old.before self.old.modes) self.old self.new }
    {
        if class.is_digit() {
            Ok(Flow::Continue(Part::Number(start)))
        } else {
            self.number(start, at, class)
        }
    }

    // Behind the digits of a number.
    fn number(&mut self, start: u32, at: SourceChar, class: Class) -> Step
        ensures { Steps result (machine.number_by self.old.tokens.source at class start self.old.modes) self.old self.new }
    {
        let span = at.span_before(start);
        if class.spoils_number() {
            Ok(Flow::Refuse(Fault::BadCharacter, at.span.start))
        } else if is_number(self.tokens.text(span)) {
            self.emit_before(Kind::Number, span, Before::Operand, at, class)
        } else {
            Ok(Flow::Refuse(Fault::NumberTooLarge, start))
        }
    }

    fn line_comment(&mut self, at: SourceChar, class: Class) -> Step
        ensures { Steps result (machine.line_by self.old.tokens.source at class self.old.before self.old.modes) self.old self.new }
    {
        match class {
            Class::LineFeed | Class::End => self.fresh(at, class),
            _ => Ok(Flow::Continue(Part::LineComment)),
        }
    }

    fn block_comment(&mut self, start: u32, class: Class) -> Step
        ensures { Steps result (machine.block_by class start self.old.before self.old.modes) self.old self.new }
    {
        match class {
            Class::Sign(Sign::Star) => Ok(Flow::Continue(Part::BlockStar(start))),
            Class::End => Ok(Flow::Refuse(Fault::Unclosed, start)),
            _ => Ok(Flow::Continue(Part::BlockComment(start))),
        }
    }

    // In a block comment, behind a star.
    fn block_star(&mut self, start: u32, class: Class) -> Step
        ensures { Steps result (machine.star_by class start self.old.before self.old.modes) self.old self.new }
    {
        match class {
            Class::Sign(Sign::Slash) => Ok(Flow::Continue(Part::Fresh)),
            _ => self.block_comment(start, class),
        }
    }
}

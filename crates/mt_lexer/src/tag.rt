//! What a Tag mode reads.

ghost use Rattle.std.specs.Prelude.{◌≡◌, [], ◌∷◌};
ghost use Rattle.mt_lexer.specs.Machine as machine;
ghost use Rattle.mt_lexer.specs.Steps.{Steps};

use crate::character::{Class, Quote, Sign, SourceChar};
use crate::lexer::{Flow, Lexer, Step};
use crate::mode::{Before, Fault, Mode};
use crate::part::Part;
use mt_tree::{Kind, Span, tag_void};

impl Lexer<'_> {
    pub fn tag(&mut self, at: SourceChar, class: Class, opening: u32, is_void: bool) -> Step
        ensures { Steps result (machine.tag_by self.old.tokens.source at class opening is_void self.old.before self.old.modes) self.old self.new }
    {
        let mode = Mode::Tag(opening, is_void);
        let start = at.span.start;
        match class {
            Class::End => Ok(Flow::Refuse(Fault::Unclosed, opening)),
            Class::White | Class::LineFeed | Class::CarriageReturn => self.enter(mode, Part::Fresh),
            Class::Letter => self.enter(mode, Part::AttributeName(start)),
            Class::Quote(quote) => self.enter(mode, Part::Quoted(start, quote)),
            Class::Sign(Sign::Equals) => self.single(at, mode, Before::Other),
            Class::Sign(Sign::Slash) => self.enter(mode, Part::TagSlash(start)),
            Class::Sign(Sign::Greater) => self.end_tag(at, opening, is_void),
            Class::Sign(Sign::Tilde) => self.enter(mode, Part::Sign(at.span, Sign::Tilde)),
            Class::Sign(Sign::Dollar) => self.enter(mode, Part::Sign(at.span, Sign::Dollar)),
            _ => Ok(Flow::Refuse(Fault::BadCharacter, start)),
        }
    }

    // The `>` of a tag: children follow, unless there can be none.
    fn end_tag(&mut self, at: SourceChar, opening: u32, is_void: bool) -> Step
        ensures { Steps result (machine.tag_ends self.old.tokens.source at opening is_void self.old.before self.old.modes) self.old self.new }
    {
        self.emit(Kind::TagEnd, at.span, Before::Other)?;
        if is_void {
            Ok(Flow::Continue(Part::Fresh))
        } else {
            self.enter(Mode::Children(opening), Part::Fresh)
        }
    }

    // The name of a tag ends, or goes on.
    pub fn tag_name(&mut self, start: u32, name: u32, at: SourceChar, class: Class) -> Step
        ensures { Steps result (machine.tag_name_by self.old.tokens.source at class start name self.old.before self.old.modes) self.old self.new }
    {
        if class.continues_tag() {
            return Ok(Flow::Continue(Part::TagName(start, name)));
        }
        let is_void = tag_void(self.tokens.text(at.span_before(name)));
        self.emit(Kind::TagOpen, at.span_before(start), Before::Other)?;
        self.modes.push(Mode::Tag(start, is_void))?;
        self.fresh(at, class)
    }

    // The name of an attribute ends, or goes on.
    pub fn attribute_name(&mut self, start: u32, at: SourceChar, class: Class) -> Step
        ensures { Steps result (machine.step_by self.old.tokens.source at (Part.AttributeName start) class self.old.before self.old.modes) self.old self.new }
    {
        if class.continues_attribute() {
            return Ok(Flow::Continue(Part::AttributeName(start)));
        }
        self.emit_before(
            Kind::AttributeName,
            at.span_before(start),
            Before::Other,
            at,
            class,
        )
    }

    // A quoted value is closed, or goes on.
    pub fn quoted(&mut self, start: u32, quote: Quote, at: SourceChar, class: Class) -> Step
        ensures { Steps result (machine.value_by self.old.tokens.source at class start quote self.old.before self.old.modes) self.old self.new }
    {
        match class {
            Class::Quote(other) => {
                if other.is_same(quote) {
                    self.emit(Kind::Quoted, at.span_through(start), Before::Other)?;
                    Ok(Flow::Continue(Part::Fresh))
                } else {
                    Ok(Flow::Continue(Part::Quoted(start, quote)))
                }
            }
            Class::End => self.unclosed_tag(at),
            _ => Ok(Flow::Continue(Part::Quoted(start, quote))),
        }
    }

    // The source ends in a value, which is refused at the opening of the tag.
    fn unclosed_tag(&mut self, at: SourceChar) -> Step
        ensures { Steps result (machine.tag_unclosed self.old.tokens.source at self.old.modes) self.old self.new }
    {
        match self.modes.pop() {
            Some(Mode::Tag(opening, _)) => Ok(Flow::Refuse(Fault::Unclosed, opening)),
            _ => Ok(Flow::Refuse(Fault::BadCharacter, at.span.start)),
        }
    }

    // Behind the slash of a tag.
    pub fn tag_slash(&mut self, start: u32, at: SourceChar, class: Class) -> Step
        ensures { Steps result (machine.tag_slash_by self.old.tokens.source at class start self.old.modes) self.old self.new }
    {
        match class {
            Class::Sign(Sign::Greater) => self.end_mode(Kind::TagEnd, start, at),
            _ => Ok(Flow::Refuse(Fault::BadCharacter, start)),
        }
    }

    // A token that ends here, and the mode with it.
    pub fn end_mode(&mut self, kind: Kind, start: u32, at: SourceChar) -> Step
        ensures { Steps result (machine.popped self.old.tokens.source at kind (machine.upto self.old.tokens.source at start) self.old.modes) self.old self.new }
    {
        match self.modes.pop() {
            None => Ok(Flow::Refuse(Fault::BadCharacter, at.span.start)),
            Some(_) => {
                self.emit(kind, at.span_through(start), Before::Other)?;
                Ok(Flow::Continue(Part::Fresh))
            }
        }
    }
}

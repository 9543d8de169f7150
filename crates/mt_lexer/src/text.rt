//! Texts of code and their escapes.

ghost use Rattle.std.specs.Prelude.{◌≡◌, ◌<◌, true, false, ℕ, List, [], ◌∷◌, MatchOption};
ghost use Rattle.mt_lexer.specs.Escape as spelling;
ghost use Rattle.mt_lexer.specs.Machine as machine;
ghost use Rattle.mt_lexer.specs.Steps.{Steps, Flows};

use crate::character::{Class, SourceChar};
use crate::escape::{hex_more, is_character, is_hex, is_high, is_low, is_simple_escape};
use crate::lexer::{Flow, Lexer, Step};
use crate::mode::{Before, Fault};
use crate::part::{OpenEscape, OpenText, Part};
use mt_tree::Kind;

impl Lexer<'_> {
    // A text is closed, or goes on.
    pub fn text(&mut self, text: OpenText, at: SourceChar, class: Class) -> Step
        ensures { Steps result (machine.text_by self.old.tokens.source at class text self.old.before self.old.modes) self.old self.new }
    {
        match class {
            Class::Quote(quote) => {
                if quote.is_same(text.quote) {
                    self.emit(Kind::Text, at.span_through(text.start), Before::Operand)?;
                    Ok(Flow::Continue(Part::Fresh))
                } else {
                    Ok(Flow::Continue(Part::Text(text)))
                }
            }
            Class::Backslash => Ok(Flow::Continue(Part::Escape(OpenEscape {
                text,
                backslash: at.span.start,
            }))),
            Class::LineFeed | Class::CarriageReturn | Class::End => {
                Ok(Flow::Refuse(Fault::Unclosed, text.start))
            }
            _ => Ok(Flow::Continue(Part::Text(text))),
        }
    }
}

impl OpenEscape {
    fn refused(self) -> Flow
        ensures { result ≡ Flow.Refuse Fault.BadEscape self.backslash }
    {
        Flow::Refuse(Fault::BadEscape, self.backslash)
    }

    /// Behind the backslash.
    pub fn first(self, at: SourceChar) -> Flow
        ensures { Flows result (λ s b ms. machine.escape_by s at self b ms) }
    {
        if is_simple_escape(at.value) {
            Flow::Continue(Part::Text(self.text))
        } else if at.value == 'u' {
            Flow::Continue(Part::Unicode(self))
        } else {
            self.refused()
        }
    }

    /// Behind `\u`.
    pub fn unicode(self, at: SourceChar) -> Flow
        ensures { Flows result (λ s b ms. machine.unicode_by s at self b ms) }
    {
        if at.value == '{' {
            Flow::Continue(Part::CodePointStart(self))
        } else {
            self.unit(3, 0, at)
        }
    }

    /// Among the four digits of a unit.
    pub fn unit(self, left: u8, value: u32, at: SourceChar) -> Flow
        ensures { Flows result (λ s b ms. machine.unit_by s at self left value b ms) }
    {
        if !is_hex(at.value) {
            return self.refused();
        }
        let value = hex_more(value, at.value);
        if left > 0 {
            Flow::Continue(Part::Unit(self, left - 1, value))
        } else if is_high(value) {
            Flow::Continue(Part::HighSurrogate(self))
        } else if is_low(value) {
            self.refused()
        } else {
            Flow::Continue(Part::Text(self.text))
        }
    }

    /// Behind `\u{`.
    pub fn code_point_start(self, at: SourceChar) -> Flow
        ensures { Flows result (λ s b ms. machine.code_point_start_by s at self b ms) }
    {
        if is_hex(at.value) {
            Flow::Continue(Part::CodePoint(self, 5, hex_more(0, at.value)))
        } else {
            self.refused()
        }
    }

    /// Among the digits in braces.
    pub fn code_point(self, left: u8, value: u32, at: SourceChar) -> Flow
        ensures { Flows result (λ s b ms. machine.code_point_by s at self left value b ms) }
    {
        if at.value == '}' {
            if is_character(value) {
                Flow::Continue(Part::Text(self.text))
            } else {
                self.refused()
            }
        } else if left > 0 && is_hex(at.value) {
            Flow::Continue(Part::CodePoint(self, left - 1, hex_more(value, at.value)))
        } else {
            self.refused()
        }
    }

    /// Behind the first half of a surrogate pair.
    pub fn high(self, at: SourceChar) -> Flow
        ensures { Flows result (λ s b ms. machine.high_by s at self b ms) }
    {
        if at.value == '\\' {
            Flow::Continue(Part::LowEscape(self))
        } else {
            self.refused()
        }
    }

    /// Behind that and a backslash.
    pub fn low_escape(self, at: SourceChar) -> Flow
        ensures { Flows result (λ s b ms. machine.low_escape_by s at self b ms) }
    {
        if at.value == 'u' {
            Flow::Continue(Part::LowUnit(self, 3, 0))
        } else {
            self.refused()
        }
    }

    /// Among the four digits of the second half.
    pub fn low_unit(self, left: u8, value: u32, at: SourceChar) -> Flow
        ensures { Flows result (λ s b ms. machine.low_unit_by s at self left value b ms) }
    {
        if !is_hex(at.value) {
            return self.refused();
        }
        let value = hex_more(value, at.value);
        if left > 0 {
            Flow::Continue(Part::LowUnit(self, left - 1, value))
        } else if is_low(value) {
            Flow::Continue(Part::Text(self.text))
        } else {
            self.refused()
        }
    }
}

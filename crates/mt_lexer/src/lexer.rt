//! The lexer's state, and what its steps have in common.

ghost use Rattle.std.specs.Prelude.{◌≡◌, [], ◌∷◌, OnOk, IfOk};
ghost use Rattle.mt_lexer.specs.Machine as machine;
ghost use Rattle.mt_lexer.specs.Steps.{Steps};
ghost use Rattle.mt_lexer.specs.Tokens.{Mark, with_marks};

use crate::character::{Class, SourceChar};
use crate::mode::{Before, Fault, Mode, Modes};
use crate::part::Part;
use crate::token::Tokens;
use mt_tree::{Kind, Span};
use std::alloc::AllocError;

/// How a step goes on.
#[derive(Clone, Copy)]
pub enum Flow {
    Continue(Part),
    Refuse(Fault, u32),
    End,
}

pub type Step = Result<Flow, AllocError>;

/// The tokens so far, the modes that are open, and what the last token was.
#[derive(Drop)]
pub struct Lexer<'a> {
    pub tokens: Tokens<'a>,
    pub modes: Modes,
    pub before: Before,
}

impl Lexer<'_> {
    // A token more, after which the last one was such.
    pub fn emit(&mut self, kind: Kind, span: Span, before: Before) -> Result<(), AllocError>
        ensures { OnOk result (self.new ≡ record { tokens = with_marks self.old.tokens (record { kind = kind; span = span } ∷ []); modes = self.old.modes; before = before }) }
    {
        self.tokens.push(kind, span)?;
        self.before = before;
        Ok(())
    }

    // In this mode over those that are open.
    pub fn enter(&mut self, mode: Mode, part: Part) -> Step
        ensures lexer { OnOk result (self.new ≡ record self.old { modes = mode ∷ self.old.modes }) }
        ensures part { IfOk result (λ r. r ≡ Flow.Continue part) }
    {
        self.modes.push(mode)?;
        Ok(Flow::Continue(part))
    }

    // A token more, and then the character afresh.
    pub fn emit_before(
        &mut self,
        kind: Kind,
        span: Span,
        before: Before,
        at: SourceChar,
        class: Class,
    ) -> Step
        ensures { Steps result (machine.emit kind span (machine.fresh_by self.old.tokens.source at class before self.old.modes)) self.old self.new }
    {
        self.emit(kind, span, before)?;
        self.fresh(at, class)
    }

    // The character, read afresh.
    pub fn fresh(&mut self, at: SourceChar, class: Class) -> Step
        ensures { Steps result (machine.fresh_by self.old.tokens.source at class self.old.before self.old.modes) self.old self.new }
    {
        match self.modes.pop() {
            None => Ok(Flow::Refuse(Fault::BadCharacter, at.span.start)),
            Some(Mode::Code(opening)) => self.code(at, class, opening),
            Some(Mode::Tag(opening, is_void)) => self.tag(at, class, opening, is_void),
            Some(Mode::Children(opening)) => self.children(at, class, opening),
        }
    }
}

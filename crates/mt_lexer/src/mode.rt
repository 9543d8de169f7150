//! What the lexer reads at a place.

use std::alloc::{AllocError, Global};
use std::marker::Model;

/// A mode. Its number is the byte at which it was opened.
#[derive(Clone, Copy)]
pub enum Mode {
    /// Code; `None` is the code of the file. An open brace in it is one more such mode.
    Code(Option<u32>),
    /// A tag, and whether its elements have no children.
    Tag(u32, bool),
    Children(u32),
}

/// What the token before means to a `<` of code.
#[derive(Clone, Copy)]
pub enum Before {
    /// It ends an operand, so `<` compares.
    Operand,
    /// A dot, behind which a reserved word is a name.
    Dot,
    Other,
}

/// The sign before a brace that opens code.
#[derive(Clone, Copy)]
pub enum Opener {
    Tilde,
    Dollar,
}

/// Why a text has no spelling.
#[derive(Clone, Copy)]
pub enum Fault {
    BadCharacter,
    BadEscape,
    Unclosed,
    NumberTooLarge,
}

/// The modes that are open, the innermost first.
#[derive(Drop)]
pub struct Modes {
    items: Vec<Mode>,
}

impl Model for Modes {
    ghost use Rattle.std.specs.Prelude.{List, reverse};
    ghost use Rattle.mt_lexer.specs.declared.mode.Mode.{Mode};

    ghost Value = { List Mode };

    ghost view = { λ s. reverse s.items.items };
}

impl Modes {
    ghost use Rattle.std.specs.Prelude.{◌≡◌, [], ◌∷◌, OnOk, MatchOption};

    pub fn new(alloc: Global) -> Modes
        ensures { result ≡ [] }
    {
        Modes {
            items: Vec::new(alloc),
        }
    }

    pub fn push(&mut self, mode: Mode) -> Result<(), AllocError>
        ensures { OnOk result (self.new ≡ mode ∷ self.old) }
    {
        self.items.push(mode)?;
        Ok(())
    }

    pub fn pop(&mut self) -> Option<Mode>
        ensures { MatchOption result ((self.old ≡ []) × (self.new ≡ [])) (λ x. self.old ≡ x ∷ self.new) }
    {
        self.items.pop()
    }
}

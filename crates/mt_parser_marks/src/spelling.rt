//! Texts in which some characters are spelled by several.

ghost use Rattle.std.specs.Prelude.{◌≡◌, IfOk, ◌++◌, OnOk};
ghost use Rattle.std.specs.Str.{chars};
ghost use Rattle.std.specs.String.{string_bytes};
ghost use Rattle.mt_parser_marks.specs.Values.{next_in_text, next_in_value, spelled};
ghost use Rattle.mt_parser_marks.specs.Reading.{next_by};

use crate::character::first;
use crate::escape::escape;
use crate::reference::reference;
use mt_tree::{NoMemory, Text};
use std::alloc::{AllocError, Global};

/// By what characters are spelled.
#[derive(Clone, Copy)]
pub enum Spelling {
    /// By escapes, as in a text of code.
    Escapes,
    /// By references, as in a quoted value and between tags.
    References,
}

impl Spelling {
    /// The characters that the text spells.
    pub fn read(self, alloc: Global, text: &str) -> Result<Text, NoMemory>
        ensures { IfOk result (λ made. made ≡ spelled (next_by self) (chars text.now)) }
    {
        let mut characters = String::new(alloc);
        match self.append(text, &mut characters) {
            Ok(()) => Text::from_str(alloc, characters.as_str()),
            Err(_refused) => Err(NoMemory),
        }
    }

    // The same, behind the characters that stand there.
    fn append(self, text: &str, into: &mut String) -> Result<(), AllocError>
        ensures { OnOk result (chars (string_bytes into.new) ≡ chars (string_bytes into.old) ++ spelled (next_by self) (chars text.now)) }
    {
        let mut rest = text;
        while let Some((c, behind)) = first(rest) {
            let (character, after) = self.next(c, behind);
            into.push(character)?;
            rest = after;
        }
        Ok(())
    }

    // What the character spells with what is behind it, and the rest.
    fn next(self, c: char, behind: &str) -> (char, &str)
        ensures character { result.0 ≡ (next_by self c (chars behind.now)).0 }
        ensures rest { chars result.1.now ≡ (next_by self c (chars behind.now)).1 }
    {
        match self {
            Spelling::Escapes => next_in_text(c, behind),
            Spelling::References => next_in_value(c, behind),
        }
    }
}

fn next_in_text(c: char, behind: &str) -> (char, &str)
    ensures character { result.0 ≡ (next_in_text c (chars behind.now)).0 }
    ensures rest { chars result.1.now ≡ (next_in_text c (chars behind.now)).1 }
{
    if c == '\\' {
        escape(behind).unwrap_or((c, behind))
    } else {
        (c, behind)
    }
}

fn next_in_value(c: char, behind: &str) -> (char, &str)
    ensures character { result.0 ≡ (next_in_value c (chars behind.now)).0 }
    ensures rest { chars result.1.now ≡ (next_in_value c (chars behind.now)).1 }
{
    if c == '&' {
        reference(behind).unwrap_or((c, behind))
    } else {
        (c, behind)
    }
}

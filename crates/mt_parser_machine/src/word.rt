//! A token that the topmost level names.

ghost use Rattle.std.specs.Prelude.{◌≡◌, ◌+◌, ◌≤◌};
ghost use Rattle.mt_grammar.specs.Machine as spec;
ghost use Rattle.mt_grammar.specs.Token.{terminal};
ghost use Rattle.mt_parser_marks.specs.Views.{token_of};
ghost use Rattle.mt_parser_machine.specs.Views.{level_of};
ghost use Rattle.mt_parser_machine.specs.Steps.{Steps};
ghost use Rattle.mt_parser_machine.specs.Counts.{count_of, counted};

use crate::level::Level;
use crate::machine::{Machine, Step};
use mt_parser_marks::Token;

impl<'a> Machine<'a> {
    // A token that this level names.
    fn word_of(&mut self, token: Token<'a>, top: Level<'a>) -> Step
        requires { count_of (level_of top) + counted self.old.stack ≤ 1000000 }
        ensures { Steps result (spec.word_by (token_of token.entry) (level_of top.entry) token.entry.terminal self.old.stack self.old.nodes) self.new }
    {
        match top {
            Level::IfOpen(_)
            | Level::WhileOpen(_)
            | Level::ForOpen(_)
            | Level::DeclName(..)
            | Level::DeclNext(..)
            | Level::Jump(..) => self.statement_word(token, top),
            Level::TryOpen(_)
            | Level::CatchOpen(_)
            | Level::CatchName(_)
            | Level::CatchClose(_)
            | Level::CatchBrace(_) => self.try_word(token, top),
            Level::FunctionStart(_)
            | Level::FunctionName(..)
            | Level::FunctionOpen(..)
            | Level::FunctionFirst(..)
            | Level::FunctionNext(..)
            | Level::ParameterName(..)
            | Level::FunctionBrace(..) => self.function_word(token, top),
            Level::Dot(_) | Level::ObjectKey(..) | Level::ObjectColon(..) => {
                self.object_word(token, top)
            }
            Level::Attributes(..) | Level::AttributeValue(..) | Level::Children(..) => {
                self.element_word(token, top)
            }
            _ => Ok(None),
        }
    }

    /// A token that the topmost level names.
    pub fn word(&mut self, token: Token<'a>) -> Step
        requires classified { token.terminal ≡ terminal (token_of token) }
        requires few { counted self.old.stack ≤ 1000000 }
        ensures { Steps result (spec.word_step (token_of token.entry) self.old.stack self.old.nodes) self.new }
    {
        match self.stack.pop() {
            Some(top) => self.word_of(token, top),
            None => Ok(None),
        }
    }
}

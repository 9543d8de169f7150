//! The words of a function up to its body.

ghost use Rattle.std.specs.Prelude.{◌≡◌, true, ◌+◌, ◌≤◌};
ghost use Rattle.mt_grammar.specs.Machine as spec;
ghost use Rattle.mt_parser_marks.specs.Views.{token_of};
ghost use Rattle.mt_parser_machine.specs.Views.{level_of};
ghost use Rattle.mt_parser_machine.specs.Steps.{Steps};
ghost use Rattle.mt_parser_machine.specs.Counts.{count_of, counted};
ghost use Rattle.mt_parser_machine.specs.Families.{is_function_word};

use crate::focus::Focus;
use crate::level::Level;
use crate::machine::{Machine, Step};
use mt_grammar::{Heading, Terminal};
use mt_parser_marks::Token;

impl<'a> Machine<'a> {
    /// A token that the level of a function names.
    pub fn function_word(&mut self, token: Token<'a>, top: Level<'a>) -> Step
        requires { count_of (level_of top) + counted self.old.stack ≤ 1000000 }
        ensures { is_function_word (level_of top.entry) ≡ true → Steps result (spec.word_by (token_of token.entry) (level_of top.entry) token.entry.terminal self.old.stack self.old.nodes) self.new }
    {
        match (top, token.terminal) {
            (Level::FunctionStart(place), Terminal::Name) => {
                self.open_named(token, Level::FunctionOpen(Heading::NamedExpression, place))
            }
            (Level::FunctionStart(place), Terminal::Open) => {
                self.open(
                    Level::FunctionFirst(Heading::Expression, place),
                    Focus::Word,
                )
            }
            (Level::FunctionName(heading, place), Terminal::Name) => {
                self.open_named(token, Level::FunctionOpen(heading, place))
            }
            (Level::FunctionOpen(heading, place), Terminal::Open) => {
                self.open(Level::FunctionFirst(heading, place), Focus::Word)
            }
            (Level::FunctionFirst(heading, place), Terminal::Close) => {
                self.open(Level::FunctionBrace(heading, place, 0), Focus::Word)
            }
            (Level::FunctionFirst(heading, place), Terminal::Name) => {
                self.open_named(token, Level::FunctionNext(heading, place, 1))
            }
            (Level::FunctionNext(heading, place, count), Terminal::Comma) => {
                self.open(Level::ParameterName(heading, place, count), Focus::Word)
            }
            (Level::FunctionNext(heading, place, count), Terminal::Close) => {
                self.open(Level::FunctionBrace(heading, place, count), Focus::Word)
            }
            (Level::ParameterName(heading, place, count), Terminal::Name) => {
                self.open_named(token, Level::FunctionNext(heading, place, count + 1))
            }
            (Level::FunctionBrace(heading, place, count), Terminal::OpenBrace) => {
                self.open(
                    Level::FunctionBody(heading, place, count, 0),
                    Focus::Statement,
                )
            }
            _ => Ok(None),
        }
    }
}

//! The words and signs of `try` and `catch`.

ghost use Rattle.std.specs.Prelude.{◌≡◌, true};
ghost use Rattle.mt_grammar.specs.Machine as spec;
ghost use Rattle.mt_parser_marks.specs.Views.{token_of};
ghost use Rattle.mt_parser_machine.specs.Views.{level_of};
ghost use Rattle.mt_parser_machine.specs.Steps.{Steps};
ghost use Rattle.mt_parser_machine.specs.Families.{is_try_word};

use crate::focus::Focus;
use crate::level::Level;
use crate::machine::{Machine, Step};
use mt_grammar::Terminal;
use mt_parser_marks::Token;

impl<'a> Machine<'a> {
    /// A token that the level of a `try` names.
    pub fn try_word(&mut self, token: Token<'a>, top: Level<'a>) -> Step
        ensures { is_try_word (level_of top.entry) ≡ true → Steps result (spec.word_by (token_of token.entry) (level_of top.entry) token.entry.terminal self.old.stack self.old.nodes) self.new }
    {
        match (top, token.terminal) {
            (Level::TryOpen(place), Terminal::OpenBrace) => {
                self.open_in(
                    Level::TryBlock(place),
                    Level::Block(token.mark.place, 0),
                    Focus::Statement,
                )
            }
            (Level::CatchOpen(place), Terminal::Open) => {
                self.open(Level::CatchName(place), Focus::Word)
            }
            (Level::CatchName(place), Terminal::Name) => {
                self.open_named(token, Level::CatchClose(place))
            }
            (Level::CatchClose(place), Terminal::Close) => {
                self.open(Level::CatchBrace(place), Focus::Word)
            }
            (Level::CatchBrace(place), Terminal::OpenBrace) => {
                self.open_in(
                    Level::CatchBlock(place),
                    Level::Block(token.mark.place, 0),
                    Focus::Statement,
                )
            }
            _ => Ok(None),
        }
    }
}

//! The words and signs of statements.

ghost use Rattle.std.specs.Prelude.{◌≡◌, true, ◌+◌, ◌≤◌};
ghost use Rattle.mt_grammar.specs.Machine as spec;
ghost use Rattle.mt_grammar.specs.Grammar as grammar;
ghost use Rattle.mt_parser_marks.specs.Views.{token_of};
ghost use Rattle.mt_parser_machine.specs.Views.{level_of};
ghost use Rattle.mt_parser_machine.specs.Steps.{Steps};
ghost use Rattle.mt_parser_machine.specs.Counts.{count_of, counted};
ghost use Rattle.mt_parser_machine.specs.Families.{is_statement_word};

use crate::focus::Focus;
use crate::level::Level;
use crate::machine::{Machine, Step};
use mt_grammar::{Declaration, Terminal};
use mt_parser_marks::{Node, Token};
use mt_tree::VarKind;

// A `const` has its value.
fn needs_value(declaration: Declaration) -> bool
    ensures { result ≡ grammar.needs_value (spec.kind_of declaration) }
{
    match declaration {
        Declaration::Statement(kind) => matches!(kind, VarKind::Const),
        Declaration::ForStart => false,
    }
}

impl<'a> Machine<'a> {
    /// A token that the level of a statement names.
    pub fn statement_word(&mut self, token: Token<'a>, top: Level<'a>) -> Step
        requires { count_of (level_of top) + counted self.old.stack ≤ 1000000 }
        ensures { is_statement_word (level_of top.entry) ≡ true → Steps result (spec.word_by (token_of token.entry) (level_of top.entry) token.entry.terminal self.old.stack self.old.nodes) self.new }
    {
        match (top, token.terminal) {
            (Level::IfOpen(place), Terminal::Open) => {
                self.open(Level::IfTest(place), Focus::Operand)
            }
            (Level::WhileOpen(place), Terminal::Open) => {
                self.open(Level::WhileTest(place), Focus::Operand)
            }
            (Level::ForOpen(place), Terminal::Open) => {
                self.open(Level::ForStart(place), Focus::First)
            }
            (Level::DeclName(declaration, place, count), Terminal::Name) => {
                self.nodes.push(Node::DeclName(token.mark))?;
                self.open(Level::DeclNext(declaration, place, count + 1), Focus::Word)
            }
            (Level::DeclNext(declaration, place, count), Terminal::Assign(None)) => {
                self.open(Level::DeclValue(declaration, place, count), Focus::Operand)
            }
            (Level::DeclNext(declaration, place, count), _) => {
                if needs_value(declaration) {
                    return Ok(None);
                }
                self.declared(token, declaration, place, count)
            }
            (Level::Jump(place, jump), _) => {
                self.nodes.push(Node::Jump(place, jump))?;
                self.ended(token)
            }
            _ => Ok(None),
        }
    }
}

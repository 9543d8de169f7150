//! Where an expression may be left out.

ghost use Rattle.std.specs.Prelude.{◌≡◌, ◌∷◌, ◌+◌, ◌≤◌, true};
ghost use Rattle.mt_grammar.specs.Machine as spec;
ghost use Rattle.mt_parser_marks.specs.Views.{token_of};
ghost use Rattle.mt_parser_machine.specs.Views.{level_of};
ghost use Rattle.mt_parser_machine.specs.Steps.{Steps};
ghost use Rattle.mt_parser_machine.specs.Counts.{count_of, counted};
ghost use Rattle.mt_parser_machine.specs.Families as families;

use crate::focus::Focus;
use crate::level::Level;
use crate::machine::{Machine, Step};
use mt_grammar::{Declaration, Terminal};
use mt_parser_marks::{Node, Token};
use mt_tree::VarKind;

// The level ends at the terminal without an expression, or goes on without one.
fn needs_none<'a>(terminal: Terminal, top: Level<'a>) -> bool
    ensures { result ≡ families.needs_none terminal (level_of top.entry) }
{
    match terminal {
        Terminal::Close => matches!(top, Level::Arguments(..) | Level::ForStep(_)),
        Terminal::CloseSquare => matches!(top, Level::Array(..)),
        Terminal::Declare(_) => matches!(top, Level::ForStart(_)),
        Terminal::Semicolon => {
            matches!(
                top,
                Level::ForStart(_) | Level::ForTest(_) | Level::Return(_)
            )
        }
        Terminal::CloseBrace => matches!(top, Level::Return(_)),
        _ => false,
    }
}

impl<'a> Machine<'a> {
    // The token that the level needs no expression for.
    fn absent(&mut self, token: Token<'a>, top: Level<'a>) -> Step
        requires { count_of (level_of top) + counted self.old.stack ≤ 1000000 }
        ensures { families.needs_none token.entry.terminal (level_of top.entry) ≡ true → Steps result (spec.first_by (token_of token.entry) token.entry.terminal (level_of top.entry ∷ self.old.stack) self.old.nodes) self.new }
    {
        match (top, token.terminal) {
            (Level::Arguments(start, count), _) => {
                self.finish(Node::Call(start, count), Focus::Value(start, false))
            }
            (Level::Array(place, count), _) => {
                self.finish(Node::Array(place, count), Focus::Value(place, false))
            }
            (Level::ForStart(place), Terminal::Declare(VarKind::Var)) => {
                self.open(
                    Level::DeclName(Declaration::ForStart, place, 0),
                    Focus::Word,
                )
            }
            (Level::ForStart(_), Terminal::Declare(_)) => Ok(None),
            (Level::ForStart(place), _) => {
                self.nodes.push(Node::Absent)?;
                self.nodes.push(Node::StartOptional)?;
                self.open(Level::ForTest(place), Focus::First)
            }
            (Level::ForTest(place), _) => {
                self.nodes.push(Node::Absent)?;
                self.open(Level::ForStep(place), Focus::First)
            }
            (Level::ForStep(place), _) => {
                self.nodes.push(Node::Absent)?;
                self.open(Level::ForBody(place), Focus::Body)
            }
            (Level::Return(place), _) => {
                self.nodes.push(Node::Absent)?;
                self.nodes.push(Node::Return(place))?;
                self.ended(token)
            }
            _ => Ok(None),
        }
    }

    /// The first token of an expression, or the token that needs none.
    pub fn first(&mut self, token: Token<'a>) -> Step
        requires { counted self.old.stack ≤ 1000000 }
        ensures { Steps result (spec.first_by (token_of token.entry) token.entry.terminal self.old.stack self.old.nodes) self.new }
    {
        match self.stack.pop() {
            Some(top) => {
                if needs_none(token.terminal, top) {
                    return self.absent(token, top);
                }
                self.stack.push(top)?;
                self.operand(token)
            }
            None => self.operand(token),
        }
    }
}

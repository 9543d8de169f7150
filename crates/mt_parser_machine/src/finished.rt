//! Behind a statement.

ghost use Rattle.std.specs.Prelude.{◌+◌, ◌≤◌};
ghost use Rattle.mt_grammar.specs.Machine as spec;
ghost use Rattle.mt_parser_marks.specs.Views.{token_of};
ghost use Rattle.mt_parser_machine.specs.Views.{level_of};
ghost use Rattle.mt_parser_machine.specs.Steps.{Steps};
ghost use Rattle.mt_parser_machine.specs.Counts.{count_of, counted};

use crate::focus::Focus;
use crate::level::Level;
use crate::machine::{Machine, Step};
use mt_grammar::{Declaration, Terminal};
use mt_parser_marks::{Node, Token};
use mt_tree::{Place, VarKind};

impl<'a> Machine<'a> {
    // A level that a statement doesn't finish, back on the stack.
    fn hold(&mut self, token: Token<'a>, top: Level<'a>) -> Step
        requires { count_of (level_of top) + counted self.old.stack ≤ 1000000 }
        ensures { Steps result (spec.hold_by (token_of token.entry) token.entry.terminal (level_of top.entry) self.old.stack self.old.nodes) self.new }
    {
        match top {
            Level::Program(count) => self.stack.push(Level::Program(count + 1))?,
            Level::Block(place, count) => self.stack.push(Level::Block(place, count + 1))?,
            Level::FunctionBody(heading, place, parameters, count) => {
                self.stack
                    .push(Level::FunctionBody(heading, place, parameters, count + 1))?;
            }
            Level::Tilde(place, count) => self.stack.push(Level::Tilde(place, count + 1))?,
            Level::TryBlock(place) => {
                if !matches!(token.terminal, Terminal::Catch) {
                    return Ok(None);
                }
                return self.open(Level::CatchOpen(place), Focus::Word);
            }
            _ => return Ok(None),
        }
        self.statement(token)
    }

    /// What follows a statement. The statements that it ends are finished first.
    pub fn finished(&mut self, token: Token<'a>) -> Step
        requires { counted self.old.stack ≤ 1000000 }
        ensures { Steps result (spec.finished_by (token_of token.entry) token.entry.terminal self.old.stack self.old.nodes) self.new }
    {
        while let Some(top) = self.stack.pop() {
            match top {
                Level::Single(place) => self.nodes.push(Node::Block(place, 1))?,
                Level::IfThen(place) => {
                    if matches!(token.terminal, Terminal::Else) {
                        return self.open(Level::IfElse(place), Focus::Body);
                    }
                    self.nodes.push(Node::If(place))?;
                }
                Level::IfElse(place) => self.nodes.push(Node::IfElse(place))?,
                Level::WhileBody(place) => self.nodes.push(Node::While(place))?,
                Level::ForBody(place) => self.nodes.push(Node::For(place))?,
                Level::CatchBlock(place) => self.nodes.push(Node::Try(place))?,
                other => return self.hold(token, other),
            }
        }
        Ok(None)
    }

    /// Behind a statement that may end here: at its `;`, or in front of a `}`.
    pub fn ended(&mut self, token: Token<'a>) -> Step
        requires { counted self.old.stack ≤ 1000000 }
        ensures { Steps result (spec.ended_by (token_of token.entry) token.entry.terminal self.old.stack self.old.nodes) self.new }
    {
        match token.terminal {
            Terminal::Semicolon => Ok(Some(Focus::Finished)),
            Terminal::CloseBrace => self.finished(token),
            _ => Ok(None),
        }
    }

    /// Behind the last of `count` declarations.
    pub fn declared(
        &mut self,
        token: Token<'a>,
        declaration: Declaration,
        place: Place,
        count: usize,
    ) -> Step
        requires { counted self.old.stack ≤ 1000000 }
        ensures { Steps result (spec.declared_by (token_of token.entry) token.entry.terminal declaration place count self.old.stack self.old.nodes) self.new }
    {
        match token.terminal {
            Terminal::Comma => self.open(Level::DeclName(declaration, place, count), Focus::Word),
            Terminal::Semicolon => match declaration {
                Declaration::Statement(kind) => {
                    self.nodes.push(Node::Var(place, kind, count))?;
                    self.ended(token)
                }
                Declaration::ForStart => {
                    self.nodes.push(Node::StartVars(count))?;
                    self.open(Level::ForTest(place), Focus::First)
                }
            },
            _ => match declaration {
                Declaration::Statement(kind) => {
                    self.nodes.push(Node::Var(place, kind, count))?;
                    self.ended(token)
                }
                Declaration::ForStart => Ok(None),
            },
        }
    }

    /// The first token of the body of an `if`, `while` or `for`.
    pub fn body(&mut self, token: Token<'a>) -> Step
        requires { counted self.old.stack ≤ 1000000 }
        ensures { Steps result (spec.body_by (token_of token.entry) token.entry.terminal self.old.stack self.old.nodes) self.new }
    {
        match token.terminal {
            Terminal::Declare(VarKind::Let | VarKind::Const) => Ok(None),
            Terminal::OpenBrace => self.open(Level::Block(token.mark.place, 0), Focus::Statement),
            _ => {
                self.stack.push(Level::Single(token.mark.place))?;
                self.statement(token)
            }
        }
    }
}

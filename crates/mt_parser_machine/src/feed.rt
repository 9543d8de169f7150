//! One token, and the end of the tokens.

ghost use Rattle.std.specs.Prelude.{◌≡◌, ◌≤◌, IfOk};
ghost use Rattle.mt_grammar.specs.Machine as spec;
ghost use Rattle.mt_grammar.specs.Token.{terminal};
ghost use Rattle.mt_parser_marks.specs.Views.{token_of};
ghost use Rattle.mt_parser_machine.specs.Views.{focus_of};
ghost use Rattle.mt_parser_machine.specs.Steps.{Ends, Steps};
ghost use Rattle.mt_parser_machine.specs.Counts.{counted};

use crate::focus::Focus;
use crate::level::Level;
use crate::machine::{Machine, Step};
use mt_parser_marks::{Node, Token};
use std::alloc::AllocError;

impl<'a> Machine<'a> {
    /// Reads one token.
    pub fn feed(&mut self, token: Token<'a>, focus: Focus) -> Step
        requires classified { token.terminal ≡ terminal (token_of token) }
        requires few { counted self.old.stack ≤ 1000000 }
        ensures { Steps result (spec.feed_by (token_of token.entry) (focus_of focus) self.old.stack self.old.nodes) self.new }
    {
        match focus {
            Focus::Statement => self.statement(token),
            Focus::Body => self.body(token),
            Focus::Operand => self.operand(token),
            Focus::First => self.first(token),
            Focus::Word => self.word(token),
            Focus::Value(start, target) => self.value(token, start, target),
            Focus::Finished => self.finished(token),
        }
    }

    // The end behind a statement.
    fn end_finished(&mut self) -> Result<bool, AllocError>
        ensures { IfOk result (λ ends. Ends ends (spec.end_finished self.old.stack self.old.nodes) self.new.nodes) }
    {
        while let Some(top) = self.stack.pop() {
            match top {
                Level::Single(place) => self.nodes.push(Node::Block(place, 1))?,
                Level::IfThen(place) => self.nodes.push(Node::If(place))?,
                Level::IfElse(place) => self.nodes.push(Node::IfElse(place))?,
                Level::WhileBody(place) => self.nodes.push(Node::While(place))?,
                Level::ForBody(place) => self.nodes.push(Node::For(place))?,
                Level::CatchBlock(place) => self.nodes.push(Node::Try(place))?,
                Level::Program(_) => return Ok(true),
                _ => return Ok(false),
            }
        }
        Ok(false)
    }

    /// Whether the tokens may end here. If so, the nodes are those of the whole program.
    pub fn end(&mut self, focus: Focus) -> Result<bool, AllocError>
        ensures { IfOk result (λ ends. Ends ends (spec.end_by (focus_of focus) self.old.stack self.old.nodes) self.new.nodes) }
    {
        match focus {
            Focus::Statement => Ok(matches!(self.stack.pop(), Some(Level::Program(_)))),
            Focus::Finished => self.end_finished(),
            _ => Ok(false),
        }
    }
}

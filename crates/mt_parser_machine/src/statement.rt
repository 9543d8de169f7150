//! Where a statement or an item can stand, and behind one.

ghost use Rattle.std.specs.Prelude.{◌+◌, ◌≤◌};
ghost use Rattle.mt_grammar.specs.Machine as spec;
ghost use Rattle.mt_parser_marks.specs.Views.{token_of};
ghost use Rattle.mt_parser_machine.specs.Steps.{Steps};
ghost use Rattle.mt_parser_machine.specs.Counts.{counted};

use crate::focus::Focus;
use crate::level::Level;
use crate::machine::{Machine, Step};
use mt_grammar::{Declaration, Heading, Terminal};
use mt_parser_marks::{Node, Token};
use mt_tree::Place;

impl<'a> Machine<'a> {
    /// A tilde or an element that began there is finished.
    pub fn settle(&mut self, place: Place) -> Step
        requires { counted self.old.stack ≤ 1000001 }
        ensures { Steps result (spec.settled place self.old.stack self.old.nodes) self.new }
    {
        match self.stack.pop() {
            Some(Level::AttributeValue(tag, count)) => {
                self.nodes.push(Node::AttributeTilde)?;
                self.open(Level::Attributes(tag, count, false), Focus::Word)
            }
            Some(Level::Children(tag, attributes, count)) => {
                let count = count + 1;
                self.nodes.push(Node::ChildDirect)?;
                self.open(Level::Children(tag, attributes, count), Focus::Word)
            }
            Some(top) => self.open(top, Focus::Value(place, false)),
            None => Ok(Some(Focus::Value(place, false))),
        }
    }

    // A function with these numbers of parameters and of statements is finished.
    fn close_function(
        &mut self,
        heading: Heading,
        place: Place,
        parameters: usize,
        count: usize,
    ) -> Step
        ensures { Steps result (spec.function_closed heading place parameters count self.old.stack self.old.nodes) self.new }
    {
        match heading {
            Heading::Service | Heading::Declaration => {
                self.finish(
                    Node::Declare(place, heading, parameters, count),
                    Focus::Finished,
                )
            }
            Heading::NamedExpression | Heading::Expression => {
                self.finish(
                    Node::Function(place, heading, parameters, count),
                    Focus::Value(place, false),
                )
            }
        }
    }

    // A closing brace where a statement can stand.
    fn close_brace(&mut self) -> Step
        requires { counted self.old.stack ≤ 1000001 }
        ensures { Steps result (spec.close_brace self.old.stack self.old.nodes) self.new }
    {
        match self.stack.pop() {
            Some(Level::Block(place, count)) => {
                self.finish(Node::Block(place, count), Focus::Finished)
            }
            Some(Level::FunctionBody(heading, place, parameters, count)) => {
                self.close_function(heading, place, parameters, count)
            }
            Some(Level::Tilde(place, count)) => {
                self.nodes.push(Node::Tilde(place, count))?;
                self.settle(place)
            }
            _ => Ok(None),
        }
    }

    // The word of a function or a service.
    fn item(&mut self, token: Token<'a>, heading: Heading) -> Step
        ensures { Steps result (spec.item_by (token_of token.entry) heading self.old.stack self.old.nodes) self.new }
    {
        match self.stack.pop() {
            Some(top) => {
                if !matches!(
                    top,
                    Level::Program(_) | Level::FunctionBody(..) | Level::Tilde(..)
                ) {
                    return Ok(None);
                }
                self.open_in(
                    top,
                    Level::FunctionName(heading, token.mark.place),
                    Focus::Word,
                )
            }
            None => Ok(None),
        }
    }

    /// The first token of a statement or an item, or the `}` of what holds it.
    pub fn statement(&mut self, token: Token<'a>) -> Step
        requires { counted self.old.stack ≤ 1000001 }
        ensures { Steps result (spec.statement_by (token_of token.entry) token.entry.terminal self.old.stack self.old.nodes) self.new }
    {
        let place = token.mark.place;
        match token.terminal {
            Terminal::Declare(kind) => {
                self.open(
                    Level::DeclName(Declaration::Statement(kind), place, 0),
                    Focus::Word,
                )
            }
            Terminal::If => self.open(Level::IfOpen(place), Focus::Word),
            Terminal::While => self.open(Level::WhileOpen(place), Focus::Word),
            Terminal::For => self.open(Level::ForOpen(place), Focus::Word),
            Terminal::Return => self.open(Level::Return(place), Focus::First),
            Terminal::Jump(jump) => self.open(Level::Jump(place, jump), Focus::Word),
            Terminal::Throw => self.open(Level::Throw(place), Focus::Operand),
            Terminal::Try => self.open(Level::TryOpen(place), Focus::Word),
            Terminal::OpenBrace => self.open(Level::Block(place, 0), Focus::Statement),
            Terminal::CloseBrace => self.close_brace(),
            Terminal::Semicolon => self.finish(Node::Empty(place), Focus::Finished),
            Terminal::Function => self.item(token, Heading::Declaration),
            Terminal::Service => self.item(token, Heading::Service),
            _ => {
                self.stack.push(Level::Expression(place))?;
                self.operand(token)
            }
        }
    }
}

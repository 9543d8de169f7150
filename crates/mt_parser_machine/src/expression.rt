//! Behind an expression.

ghost use Rattle.std.specs.Prelude.{◌≡◌, ◌+◌, ◌≤◌, Bool};
ghost use Rattle.mt_grammar.specs.Machine as spec;
ghost use Rattle.mt_grammar.specs.Grammar as grammar;
ghost use Rattle.mt_parser_marks.specs.Views.{token_of};
ghost use Rattle.mt_parser_machine.specs.Views.{level_of};
ghost use Rattle.mt_parser_machine.specs.Steps.{Steps};
ghost use Rattle.mt_parser_machine.specs.Counts.{count_of, counted};

use crate::focus::Focus;
use crate::level::Level;
use crate::machine::{Machine, Step};
use crate::precedence::{awaits_at, made_at, operator_node, reduces, start_of};
use mt_grammar::{StepSign, Terminal};
use mt_parser_marks::{Node, Token};
use mt_tree::{Place, StepKind};

fn step_after(step: StepSign) -> StepKind
    ensures { result ≡ grammar.step_after step }
{
    match step {
        StepSign::Increment => StepKind::IncAfter,
        StepSign::Decrement => StepKind::DecAfter,
    }
}

impl<'a> Machine<'a> {
    // A dollar that began there is finished.
    fn settle_dollar(&mut self, place: Place) -> Step
        requires { counted self.old.stack ≤ 1000000 }
        ensures { Steps result (spec.dollar_settled place self.old.stack self.old.nodes) self.new }
    {
        match self.stack.pop() {
            Some(Level::AttributeValue(tag, count)) => {
                self.nodes.push(Node::AttributeDollar)?;
                return self.open(Level::Attributes(tag, count, false), Focus::Word);
            }
            Some(Level::Children(tag, attributes, count)) => {
                let count = count + 1;
                self.nodes.push(Node::ChildDollar)?;
                return self.open(Level::Children(tag, attributes, count), Focus::Word);
            }
            Some(top) => self.stack.push(top)?,
            None => {}
        }
        self.finish(Node::Dollar(place), Focus::Value(place, false))
    }

    // Behind an expression that ends a statement or a declaration.
    fn stop(&mut self, token: Token<'a>, top: Level<'a>) -> Step
        requires { count_of (level_of top) + counted self.old.stack ≤ 1000000 }
        ensures { Steps result (spec.stop_by (token_of token.entry) token.entry.terminal (level_of top.entry) self.old.stack self.old.nodes) self.new }
    {
        match top {
            Level::DeclValue(declaration, place, count) => {
                self.nodes.push(Node::DeclValue)?;
                self.declared(token, declaration, place, count)
            }
            Level::Return(place) => {
                self.nodes.push(Node::Present)?;
                self.nodes.push(Node::Return(place))?;
                self.ended(token)
            }
            Level::Throw(place) => {
                self.nodes.push(Node::Throw(place))?;
                self.ended(token)
            }
            Level::Expression(place) => {
                self.nodes.push(Node::Expression(place))?;
                self.ended(token)
            }
            _ => Ok(None),
        }
    }

    // A closing parenthesis behind an expression.
    fn close_parenthesis(&mut self, token: Token<'a>, target: bool, top: Level<'a>) -> Step
        requires { count_of (level_of top) + counted self.old.stack ≤ 1000000 }
        ensures { Steps result (spec.close_by (token_of token.entry) Terminal.Close target (level_of top.entry) self.old.stack self.old.nodes) self.new }
    {
        match top {
            Level::Paren(place) => Ok(Some(Focus::Value(place, target))),
            Level::IfTest(place) => self.open(Level::IfThen(place), Focus::Body),
            Level::WhileTest(place) => self.open(Level::WhileBody(place), Focus::Body),
            Level::ForStep(place) => {
                self.nodes.push(Node::Present)?;
                self.open(Level::ForBody(place), Focus::Body)
            }
            Level::Arguments(start, count) => {
                self.finish(Node::Call(start, count + 1), Focus::Value(start, false))
            }
            _ => Ok(None),
        }
    }

    // A comma behind an expression.
    fn comma(&mut self, token: Token<'a>, top: Level<'a>) -> Step
        requires is { token.terminal ≡ Terminal.Comma }
        requires few { count_of (level_of top) + counted self.old.stack ≤ 1000000 }
        ensures { (target : Bool) → Steps result (spec.close_by (token_of token.entry) Terminal.Comma target (level_of top.entry) self.old.stack self.old.nodes) self.new }
    {
        match top {
            Level::Arguments(start, count) => {
                self.open(Level::Arguments(start, count + 1), Focus::Operand)
            }
            Level::Array(place, count) => self.open(Level::Array(place, count + 1), Focus::First),
            Level::ObjectValue(place, count) => {
                self.open(Level::ObjectKey(place, count + 1), Focus::Word)
            }
            other => self.stop(token, other),
        }
    }

    // A semicolon behind an expression.
    fn semicolon(&mut self, token: Token<'a>, top: Level<'a>) -> Step
        requires is { token.terminal ≡ Terminal.Semicolon }
        requires few { count_of (level_of top) + counted self.old.stack ≤ 1000000 }
        ensures { (target : Bool) → Steps result (spec.close_by (token_of token.entry) Terminal.Semicolon target (level_of top.entry) self.old.stack self.old.nodes) self.new }
    {
        match top {
            Level::ForStart(place) => {
                self.nodes.push(Node::Present)?;
                self.nodes.push(Node::StartOptional)?;
                self.open(Level::ForTest(place), Focus::First)
            }
            Level::ForTest(place) => {
                self.nodes.push(Node::Present)?;
                self.open(Level::ForStep(place), Focus::First)
            }
            other => self.stop(token, other),
        }
    }

    // What ends an expression that no operator on the stack takes.
    fn close(&mut self, token: Token<'a>, target: bool, top: Level<'a>) -> Step
        requires { count_of (level_of top) + counted self.old.stack ≤ 1000000 }
        ensures { Steps result (spec.close_by (token_of token.entry) token.entry.terminal target (level_of top.entry) self.old.stack self.old.nodes) self.new }
    {
        match token.terminal {
            Terminal::Close => self.close_parenthesis(token, target, top),
            Terminal::CloseSquare => match top {
                Level::Index(start) => self.finish(Node::Index(start), Focus::Value(start, true)),
                Level::Array(place, count) => {
                    self.finish(Node::Array(place, count + 1), Focus::Value(place, false))
                }
                _ => Ok(None),
            },
            Terminal::Comma => self.comma(token, top),
            Terminal::Colon => match top {
                Level::CondTest(start) => self.open(Level::CondElse(start), Focus::Operand),
                _ => Ok(None),
            },
            Terminal::Semicolon => self.semicolon(token, top),
            Terminal::CloseBrace => match top {
                Level::ObjectValue(place, count) => {
                    self.finish(Node::Object(place, count + 1), Focus::Value(place, false))
                }
                Level::Dollar(place) => self.settle_dollar(place),
                other => self.stop(token, other),
            },
            _ => Ok(None),
        }
    }

    // What goes on with an expression that no operator on the stack takes, or ends it.
    fn shift(&mut self, token: Token<'a>, start: Place, target: bool, top: Level<'a>) -> Step
        requires { count_of (level_of top) + counted self.old.stack ≤ 1000000 }
        ensures { Steps result (spec.shift_by (token_of token.entry) token.entry.terminal start target (level_of top.entry) self.old.stack self.old.nodes) self.new }
    {
        match token.terminal {
            Terminal::Dot => self.open_in(top, Level::Dot(start), Focus::Word),
            Terminal::OpenSquare => self.open_in(top, Level::Index(start), Focus::Operand),
            Terminal::Open => self.open_in(top, Level::Arguments(start, 0), Focus::First),
            Terminal::Assign(operator) => {
                if !target {
                    return Ok(None);
                }
                self.open_in(top, Level::Assign(operator, start), Focus::Operand)
            }
            Terminal::Step(step) => {
                if !target {
                    return Ok(None);
                }
                self.open_in(
                    top,
                    Level::StepAfter(step_after(step), start),
                    Focus::Value(start, false),
                )
            }
            Terminal::Infix(operator) => {
                self.open_in(top, Level::Operation(operator, start), Focus::Operand)
            }
            Terminal::Question => self.open_in(top, Level::CondTest(start), Focus::Operand),
            _ => self.close(token, target, top),
        }
    }

    /// What follows an expression that began there; the flag says whether it can be assigned to. Operators on the stack
    /// that end in front of the token are finished first.
    pub fn value(&mut self, token: Token<'a>, mut start: Place, mut target: bool) -> Step
        requires { counted self.old.stack ≤ 1000000 }
        ensures { Steps result (spec.value_by (token_of token.entry) token.entry.terminal start target self.old.stack self.old.nodes) self.new }
    {
        while let Some(top) = self.stack.pop() {
            if !reduces(token.terminal, target, top) {
                if awaits_at(top) > made_at(token.terminal) {
                    return Ok(None);
                }
                return self.shift(token, start, target, top);
            }
            self.nodes.push(operator_node(top))?;
            start = start_of(top);
            target = false;
        }
        Ok(None)
    }
}

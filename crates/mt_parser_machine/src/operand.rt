//! The first token of an expression.

ghost use Rattle.std.specs.Prelude.{◌≡◌, ◌++◌, ◌∷◌, [], false, cond, nat_le, None};
ghost use Rattle.mt_grammar.specs.Machine as spec;
ghost use Rattle.mt_grammar.specs.Grammar as grammar;
ghost use Rattle.mt_grammar.specs.Nodes as n;
ghost use Rattle.mt_grammar.specs.Stack as f;
ghost use Rattle.mt_parser_marks.specs.Views.{token_of};
ghost use Rattle.mt_parser_machine.specs.Views.{level_of};
ghost use Rattle.mt_parser_machine.specs.Steps.{Steps};

use crate::focus::Focus;
use crate::level::Level;
use crate::machine::{Machine, Step};
use crate::precedence::awaits_at;
use crate::tag::tag_mark;
use mt_grammar::{Infix, StepSign, Terminal};
use mt_parser_marks::{Node, Token};
use mt_tree::{Binary, StepKind, Unary};

fn step_before(step: StepSign) -> StepKind
    ensures { result ≡ grammar.step_before step }
{
    match step {
        StepSign::Increment => StepKind::IncBefore,
        StepSign::Decrement => StepKind::DecBefore,
    }
}

impl<'a> Machine<'a> {
    // An operator before its operand.
    fn prefix(&mut self, level: Level<'a>) -> Step
        ensures { Steps result (cond (nat_le (spec.awaits self.old.stack) 8) (spec.at f.Operand (level_of level.entry ∷ self.old.stack) self.old.nodes) None) self.new }
    {
        match self.stack.pop() {
            Some(top) => {
                if awaits_at(top) > 8 {
                    return Ok(None);
                }
                self.open_in(top, level, Focus::Operand)
            }
            None => self.open(level, Focus::Operand),
        }
    }

    // The name of a tag behind its `<`.
    fn open_tag(&mut self, token: Token<'a>) -> Step
        ensures { Steps result (spec.at f.Word (f.Attributes (grammar.tag_mark (token_of token.entry)) 0 false ∷ self.old.stack) (self.old.nodes ++ n.Word (grammar.tag_mark (token_of token.entry)) ∷ [])) self.new }
    {
        let tag = tag_mark(token);
        self.nodes.push(Node::Word(tag))?;
        self.open(Level::Attributes(tag, 0, false), Focus::Word)
    }

    /// The first token of an expression.
    pub fn operand(&mut self, token: Token<'a>) -> Step
        ensures { Steps result (spec.operand_by (token_of token.entry) token.entry.terminal self.old.stack self.old.nodes) self.new }
    {
        let place = token.mark.place;
        match token.terminal {
            Terminal::Name => self.finish(Node::Name(token.mark), Focus::Value(place, true)),
            Terminal::Number => self.finish(Node::Number(token.mark), Focus::Value(place, false)),
            Terminal::Text => self.finish(Node::Text(token.mark), Focus::Value(place, false)),
            Terminal::Constant(value) => {
                self.finish(Node::Constant(place, value), Focus::Value(place, false))
            }
            Terminal::Open => self.open(Level::Paren(place), Focus::Operand),
            Terminal::OpenSquare => self.open(Level::Array(place, 0), Focus::First),
            Terminal::OpenBrace => self.open(Level::ObjectKey(place, 0), Focus::Word),
            Terminal::Function => self.open(Level::FunctionStart(place), Focus::Word),
            Terminal::Exclamation => self.prefix(Level::Unary(Unary::Not, place)),
            Terminal::Typeof => self.prefix(Level::Unary(Unary::Typeof, place)),
            Terminal::Infix(Infix::Binary(Binary::Add)) => {
                self.prefix(Level::Unary(Unary::Plus, place))
            }
            Terminal::Infix(Infix::Binary(Binary::Sub)) => {
                self.prefix(Level::Unary(Unary::Minus, place))
            }
            Terminal::Step(step) => { self.prefix(Level::StepBefore(step_before(step), place)) }
            Terminal::TildeOpen => self.open(Level::Tilde(place, 0), Focus::Statement),
            Terminal::DollarOpen => self.open(Level::Dollar(place), Focus::Operand),
            Terminal::TagOpen => self.open_tag(token),
            _ => Ok(None),
        }
    }
}

//! The precedence of operators, on the stack and as tokens.

ghost use Rattle.std.specs.Prelude.{◌≡◌, ◌+◌};
ghost use Rattle.mt_grammar.specs.Machine as spec;
ghost use Rattle.mt_grammar.specs.Grammar as grammar;
ghost use Rattle.mt_parser_marks.specs.NodeViews.{node_of};
ghost use Rattle.mt_parser_machine.specs.Views.{level_of};

use crate::level::Level;
use mt_grammar::{Infix, Terminal};
use mt_parser_marks::Node;
use mt_tree::{Binary, Place};

fn precedence_of(operator: Infix) -> u8
    ensures { result ≡ grammar.precedence_of operator }
{
    match operator {
        Infix::Or => 2,
        Infix::And => 3,
        Infix::Binary(Binary::Same | Binary::Different) => 4,
        Infix::Binary(Binary::Less | Binary::LessEqual | Binary::Greater | Binary::GreaterEqual) =>
            5,
        Infix::Binary(Binary::Add | Binary::Sub) => 6,
        Infix::Binary(Binary::Mul | Binary::Div | Binary::Rem) => 7,
    }
}

/// The precedence of the expressions that are read above the level.
pub fn awaits_at<'a>(level: Level<'a>) -> u8
    ensures { result ≡ spec.awaits_at (level_of level.entry) }
{
    match level {
        Level::Operation(operator, _) => precedence_of(operator) + 1,
        Level::Unary(..) => 8,
        Level::StepBefore(..) => 10,
        Level::StepAfter(..) | Level::AttributeValue(..) | Level::Children(..) => 11,
        _ => 0,
    }
}

/// An expression of a lower precedence than this goes on with the terminal.
pub fn binding(terminal: Terminal) -> u8
    ensures { result ≡ spec.binding terminal }
{
    match terminal {
        Terminal::Dot
        | Terminal::OpenSquare
        | Terminal::Open
        | Terminal::Assign(_)
        | Terminal::Step(_) => 10,
        Terminal::Infix(operator) => precedence_of(operator),
        Terminal::Question => 2,
        _ => 0,
    }
}

/// The precedence of the expression that the terminal makes of the one before it.
pub fn made_at(terminal: Terminal) -> u8
    ensures { result ≡ spec.made_at terminal }
{
    match terminal {
        Terminal::Dot | Terminal::OpenSquare | Terminal::Open => 10,
        Terminal::Step(_) => 9,
        Terminal::Infix(operator) => precedence_of(operator),
        Terminal::Question => 1,
        _ => 0,
    }
}

/// Whether the level is an operator whose last operand ends before the terminal.
pub fn reduces<'a>(terminal: Terminal, target: bool, level: Level<'a>) -> bool
    ensures { result ≡ spec.reduces terminal target (level_of level.entry) }
{
    match level {
        Level::Operation(operator, _) => binding(terminal) <= precedence_of(operator),
        Level::Unary(..) => binding(terminal) <= 8,
        Level::StepBefore(..) => target && binding(terminal) <= 9,
        Level::StepAfter(..) => binding(terminal) <= 9,
        Level::Assign(..) | Level::CondElse(_) => binding(terminal) == 0,
        _ => false,
    }
}

/// Where the operator began.
pub fn start_of<'a>(level: Level<'a>) -> Place
    ensures { result ≡ spec.start_of (level_of level.entry) }
{
    match level {
        Level::Operation(_, start)
        | Level::Unary(_, start)
        | Level::StepBefore(_, start)
        | Level::StepAfter(_, start)
        | Level::Assign(_, start)
        | Level::CondElse(start) => start,
        _ => Place { line: 0, column: 0 },
    }
}

/// The node that the operator makes.
pub fn operator_node<'a>(level: Level<'a>) -> Node<'a>
    ensures { node_of result ≡ spec.node_of (level_of level.entry) }
{
    match level {
        Level::Operation(operator, start) => Node::Operation(start, operator),
        Level::Unary(operator, place) => Node::Unary(place, operator),
        Level::StepBefore(step, place) => Node::Step(place, step),
        Level::StepAfter(step, start) => Node::Step(start, step),
        Level::Assign(operator, start) => Node::Assign(start, operator),
        Level::CondElse(start) => Node::Condition(start),
        _ => Node::Absent,
    }
}

//! The parts that nodes are.

ghost use Rattle.std.specs.Prelude.{◌≡◌, IfOk};
ghost use Rattle.mt_parser_marks.specs.NodeViews.{node_of};
ghost use Rattle.mt_parser_marks.specs.Views.{mark_of};
ghost use Rattle.mt_grammar.specs.Depth.{inside as inside_of, titles as titles_of};
ghost use Rattle.mt_parser_builder.specs.Growing.{part_of};
ghost use Rattle.mt_parser_builder.specs.Syntax as made;

use crate::part::{ExprPart, Part, Piece, StmtPart};
use mt_grammar::Heading;
use mt_parser_marks::{Mark as Spelled, Node, child_text, name, number, quoted, text};
use mt_syntax::Mark;
use mt_tree::NoMemory;
use std::alloc::Global;

fn mark(alloc: Global, spelled: &Spelled) -> Result<Mark, NoMemory>
    ensures { IfOk result (λ m. m ≡ made.mark_of (mark_of spelled.now)) }
{
    Ok(Mark {
        place: spelled.place,
        name: name(alloc, spelled.text)?,
    })
}

// What the node is, with its text read.
pub(crate) fn part(alloc: Global, node: &Node) -> Result<Part, NoMemory>
    ensures { IfOk result (λ p. p ≡ part_of (node_of node.now)) }
{
    match node {
        Node::Name(m) => Ok(Part::Expr(m.place, ExprPart::Name(name(alloc, m.text)?))),
        Node::Number(m) => Ok(Part::Expr(m.place, ExprPart::Number(number(m.text)))),
        Node::Text(m) => Ok(Part::Expr(m.place, ExprPart::Text(text(alloc, m.text)?))),
        Node::Property(m) => Ok(Part::Expr(m.place, ExprPart::Text(name(alloc, m.text)?))),
        Node::Constant(place, constant) => Ok(Part::Expr(*place, ExprPart::Constant(*constant))),
        Node::Array(place, count) => Ok(Part::Expr(*place, ExprPart::Array(*count))),
        Node::Object(place, count) => Ok(Part::Expr(*place, ExprPart::Object(*count))),
        Node::Function(place, heading, parameters, statements) => Ok(Part::Expr(
            *place,
            ExprPart::Function(*heading, *parameters, *statements),
        )),
        Node::Unary(place, unary) => Ok(Part::Expr(*place, ExprPart::Unary(*unary))),
        Node::Step(place, step) => Ok(Part::Expr(*place, ExprPart::Step(*step))),
        Node::Operation(place, infix) => Ok(Part::Expr(*place, ExprPart::Operation(*infix))),
        Node::Condition(place) => Ok(Part::Expr(*place, ExprPart::Condition)),
        Node::Assign(place, op) => Ok(Part::Expr(*place, ExprPart::Assign(*op))),
        Node::Index(place) => Ok(Part::Expr(*place, ExprPart::Index)),
        Node::Call(place, count) => Ok(Part::Expr(*place, ExprPart::Call(*count))),
        Node::Tilde(place, count) => Ok(Part::Tilde(*place, *count)),
        Node::Dollar(place) => Ok(Part::Dollar(*place)),
        Node::Element(place, attributes, children) => {
            Ok(Part::Expr(*place, ExprPart::Element(*attributes, *children)))
        }
        Node::Word(m) => Ok(Part::Piece(Piece::Word(mark(alloc, m)?))),
        Node::QuotedKey(m) => Ok(Part::Piece(Piece::QuotedKey(text(alloc, m.text)?))),
        Node::AttributeName(m) => Ok(Part::Piece(Piece::AttributeName(mark(alloc, m)?))),
        Node::AttributeQuoted(m) => Ok(Part::Piece(Piece::AttributeQuoted(quoted(alloc, m.text)?))),
        Node::AttributeTilde => Ok(Part::Piece(Piece::AttributeTilde)),
        Node::AttributeDollar => Ok(Part::Piece(Piece::AttributeDollar)),
        Node::ChildText(m) => Ok(Part::Piece(Piece::ChildText(child_text(alloc, m.text)?))),
        Node::ChildDirect => Ok(Part::Piece(Piece::ChildDirect)),
        Node::ChildDollar => Ok(Part::Piece(Piece::ChildDollar)),
        Node::DeclName(m) => Ok(Part::Piece(Piece::DeclName(mark(alloc, m)?))),
        Node::DeclValue => Ok(Part::Piece(Piece::DeclValue)),
        Node::Absent => Ok(Part::Piece(Piece::Absent)),
        Node::Present => Ok(Part::Piece(Piece::Present)),
        Node::StartOptional => Ok(Part::Piece(Piece::StartOptional)),
        Node::StartVars(count) => Ok(Part::Piece(Piece::StartVars(*count))),
        Node::Expression(place) => Ok(Part::Stmt(*place, StmtPart::Expression)),
        Node::Var(place, kind, count) => Ok(Part::Stmt(*place, StmtPart::Var(*kind, *count))),
        Node::Declare(place, heading, parameters, statements) => Ok(Part::Stmt(
            *place,
            StmtPart::Declare(*heading, *parameters, *statements),
        )),
        Node::If(place) => Ok(Part::Stmt(*place, StmtPart::If)),
        Node::IfElse(place) => Ok(Part::Stmt(*place, StmtPart::IfElse)),
        Node::While(place) => Ok(Part::Stmt(*place, StmtPart::While)),
        Node::For(place) => Ok(Part::Stmt(*place, StmtPart::For)),
        Node::Return(place) => Ok(Part::Stmt(*place, StmtPart::Return)),
        Node::Jump(place, jump) => Ok(Part::Stmt(*place, StmtPart::Jump(*jump))),
        Node::Throw(place) => Ok(Part::Stmt(*place, StmtPart::Throw)),
        Node::Try(place) => Ok(Part::Stmt(*place, StmtPart::Try)),
        Node::Block(place, count) => Ok(Part::Stmt(*place, StmtPart::Block(*count))),
        Node::Empty(place) => Ok(Part::Stmt(*place, StmtPart::Empty)),
    }
}

fn titles(heading: Heading) -> u128
    ensures { result ≡ titles_of heading }
{
    match heading {
        Heading::Expression => 0,
        _ => 1,
    }
}

/// How many nodes stand directly in the node. The counts in it may be of any size, so the sum is wider than they.
///
/// Takes no memory.
pub fn inside(node: &Node) -> u128
    ensures { result ≡ inside_of (node_of node.now) }
{
    match node {
        Node::Array(_, count) | Node::Tilde(_, count) | Node::Block(_, count) => *count as u128,
        Node::StartVars(count) | Node::Var(_, _, count) => *count as u128,
        Node::Object(_, count) => *count as u128 + *count as u128,
        Node::Function(_, heading, parameters, statements)
        | Node::Declare(_, heading, parameters, statements) => {
            titles(*heading) + *parameters as u128 + *statements as u128
        }
        Node::Call(_, count) => *count as u128 + 1,
        Node::Element(_, attributes, children) => *attributes as u128 + *children as u128 + 1,
        Node::Unary(..) | Node::Step(..) | Node::Dollar(_) | Node::AttributeQuoted(_) => 1,
        Node::ChildDirect | Node::ChildDollar | Node::Present | Node::StartOptional => 1,
        Node::Expression(_) | Node::Return(_) | Node::Throw(_) => 1,
        Node::Operation(..) | Node::Assign(..) | Node::Index(_) | Node::DeclValue => 2,
        Node::AttributeTilde | Node::AttributeDollar | Node::If(_) | Node::While(_) => 2,
        Node::Condition(_) | Node::IfElse(_) | Node::Try(_) => 3,
        Node::For(_) => 4,
        _ => 0,
    }
}

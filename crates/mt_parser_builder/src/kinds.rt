//! What a node makes of the values of those in it.

ghost use Rattle.std.specs.Prelude.{◌≡◌, [], option_map, Some, IfOk};
ghost use Rattle.std.specs.Vec.Iter.{into_iter_items};
ghost use Rattle.mt_syntax.specs.declared.tree.ExprKind.{roll-ExprKind};
ghost use Rattle.mt_syntax.specs.declared.tree.StmtKind.{roll-StmtKind};
ghost use Rattle.mt_parser_builder.specs.Answer.{Gives};
ghost use Rattle.mt_parser_builder.specs.Making as spec;
ghost use Rattle.mt_parser_builder.specs.Syntax as made;
ghost use Rattle.mt_parser_builder.specs.declared.part.StmtPart.TheVariants as stmt_part;

use crate::fault::Fault;
use crate::part::{ExprPart, Piece, StmtPart};
use crate::parts::{attribute_name, decl_name, expr, optional, start, stmt, title, word};
use crate::rows::row;
use crate::value::Value;
use mt_grammar::{Constant, Heading, Infix, Jump};
use mt_syntax::{
    Expr, ExprKind, ForStart, Function, Mark, Markup, MarkupChild, MarkupValue, StmtKind,
};
use mt_tree::{Boxed, NoMemory, Text};
use std::alloc::Global;
use std::vec::IntoIter;

fn constant_kind(constant: Constant) -> ExprKind
    ensures { result ≡ roll-ExprKind (made.constant_kind constant) }
{
    match constant {
        Constant::True => ExprKind::Bool(true),
        Constant::False => ExprKind::Bool(false),
        Constant::Null => ExprKind::Null,
        Constant::Undefined => ExprKind::Undefined,
    }
}

fn infix_kind(sign: Infix, left: Expr, right: Expr) -> ExprKind
    ensures { result ≡ roll-ExprKind (made.infix_kind sign left right) }
{
    match sign {
        Infix::Or => ExprKind::Or(left, right),
        Infix::And => ExprKind::And(left, right),
        Infix::Binary(op) => ExprKind::Binary(op, left, right),
    }
}

fn jump_kind(jump: Jump) -> StmtKind
    ensures { result ≡ roll-StmtKind (made.jump_kind jump) }
{
    match jump {
        Jump::Break => StmtKind::Break,
        Jump::Continue => StmtKind::Continue,
    }
}

fn declared_kind(heading: Heading, function: Function) -> StmtKind
    ensures { result ≡ roll-StmtKind (made.declared_kind heading function) }
{
    match heading {
        Heading::Service => StmtKind::Service(function),
        _ => StmtKind::Function(function),
    }
}

fn start_of(optional: Option<Expr>) -> ForStart
    ensures { result ≡ made.start_of optional }
{
    match optional {
        None => ForStart::Absent,
        Some(expr) => ForStart::Expr(expr),
    }
}

fn function(
    alloc: Global,
    heading: Heading,
    parameters: usize,
    statements: usize,
    parts: &mut IntoIter<Value>,
) -> Result<Function, Fault>
    ensures { Gives result (spec.function_made heading parameters statements (into_iter_items parts.old)) }
{
    let name = title(heading, parts)?;
    let parameters = row(alloc, parameters, parts)?;
    let body = row(alloc, statements, parts)?;
    Ok(Function {
        name,
        parameters,
        body,
    })
}

fn markup(
    alloc: Global,
    attributes: usize,
    children: usize,
    parts: &mut IntoIter<Value>,
) -> Result<ExprKind, Fault>
    ensures { Gives result (option_map roll-ExprKind (spec.markup_made attributes children (into_iter_items parts.old))) }
{
    let tag = word(parts)?;
    let attributes = row(alloc, attributes, parts)?;
    let children = row(alloc, children, parts)?;
    Ok(ExprKind::Markup(Markup {
        tag: tag.name,
        attributes,
        children,
    }))
}

pub(crate) fn expr_kind(
    alloc: Global,
    part: &ExprPart,
    parts: IntoIter<Value>,
) -> Result<ExprKind, Fault>
    ensures { Gives result (option_map roll-ExprKind (spec.kind_made part.now (into_iter_items parts))) }
{
    let mut parts = parts;
    match part {
        ExprPart::Name(text) => Ok(ExprKind::Name(text.share()?)),
        ExprPart::Number(number) => Ok(ExprKind::Num(*number)),
        ExprPart::Text(text) => Ok(ExprKind::Text(text.share()?)),
        ExprPart::Constant(constant) => Ok(constant_kind(*constant)),
        ExprPart::Array(count) => Ok(ExprKind::Arr(row(alloc, *count, &mut parts)?)),
        ExprPart::Object(count) => Ok(ExprKind::Obj(row(alloc, *count, &mut parts)?)),
        ExprPart::Function(heading, parameters, statements) => {
            let function = function(alloc, *heading, *parameters, *statements, &mut parts)?;
            Ok(ExprKind::Fun(function))
        }
        ExprPart::Unary(unary) => Ok(ExprKind::Unary(*unary, expr(&mut parts)?)),
        ExprPart::Step(step) => Ok(ExprKind::Step(*step, expr(&mut parts)?)),
        ExprPart::Operation(infix) => {
            let left = expr(&mut parts)?;
            let right = expr(&mut parts)?;
            Ok(infix_kind(*infix, left, right))
        }
        ExprPart::Condition => {
            let test = expr(&mut parts)?;
            let then = expr(&mut parts)?;
            let other = expr(&mut parts)?;
            Ok(ExprKind::Cond(test, then, other))
        }
        ExprPart::Assign(op) => {
            let target = expr(&mut parts)?;
            let value = expr(&mut parts)?;
            Ok(ExprKind::Assign(*op, target, value))
        }
        ExprPart::Index => {
            let base = expr(&mut parts)?;
            let key = expr(&mut parts)?;
            Ok(ExprKind::Index(base, key))
        }
        ExprPart::Call(count) => {
            let callee = expr(&mut parts)?;
            Ok(ExprKind::Call(callee, row(alloc, *count, &mut parts)?))
        }
        ExprPart::Element(attributes, children) => {
            markup(alloc, *attributes, *children, &mut parts)
        }
    }
}

fn if_kind(alloc: Global, parts: &mut IntoIter<Value>) -> Result<StmtKind, Fault>
    ensures { Gives result (option_map roll-StmtKind (spec.stmt_made stmt_part.If (into_iter_items parts.old))) }
{
    let test = expr(parts)?;
    let then = stmt(parts)?;
    Ok(StmtKind::If(test, Boxed::new(alloc, then)?, None))
}

fn if_else_kind(alloc: Global, parts: &mut IntoIter<Value>) -> Result<StmtKind, Fault>
    ensures { Gives result (option_map roll-StmtKind (spec.stmt_made stmt_part.IfElse (into_iter_items parts.old))) }
{
    let test = expr(parts)?;
    let then = stmt(parts)?;
    let other = stmt(parts)?;
    let then = Boxed::new(alloc, then)?;
    let other = Boxed::new(alloc, other)?;
    Ok(StmtKind::If(test, then, Some(other)))
}

fn while_kind(alloc: Global, parts: &mut IntoIter<Value>) -> Result<StmtKind, Fault>
    ensures { Gives result (option_map roll-StmtKind (spec.stmt_made stmt_part.While (into_iter_items parts.old))) }
{
    let test = expr(parts)?;
    let body = stmt(parts)?;
    Ok(StmtKind::While(test, Boxed::new(alloc, body)?))
}

fn for_kind(alloc: Global, parts: &mut IntoIter<Value>) -> Result<StmtKind, Fault>
    ensures { Gives result (option_map roll-StmtKind (spec.stmt_made stmt_part.For (into_iter_items parts.old))) }
{
    let first = start(parts)?;
    let test = optional(parts)?;
    let step = optional(parts)?;
    let body = stmt(parts)?;
    Ok(StmtKind::For(first, test, step, Boxed::new(alloc, body)?))
}

fn try_kind(alloc: Global, parts: &mut IntoIter<Value>) -> Result<StmtKind, Fault>
    ensures { Gives result (option_map roll-StmtKind (spec.stmt_made stmt_part.Try (into_iter_items parts.old))) }
{
    let body = stmt(parts)?;
    let name = word(parts)?;
    let handler = stmt(parts)?;
    let body = Boxed::new(alloc, body)?;
    Ok(StmtKind::Try(body, name, Boxed::new(alloc, handler)?))
}

pub(crate) fn stmt_kind(
    alloc: Global,
    part: &StmtPart,
    parts: IntoIter<Value>,
) -> Result<StmtKind, Fault>
    ensures { Gives result (option_map roll-StmtKind (spec.stmt_made part.now (into_iter_items parts))) }
{
    let mut parts = parts;
    match part {
        StmtPart::Expression => Ok(StmtKind::Expr(expr(&mut parts)?)),
        StmtPart::Var(kind, count) => Ok(StmtKind::Var(*kind, row(alloc, *count, &mut parts)?)),
        StmtPart::Declare(heading, parameters, statements) => {
            let function = function(alloc, *heading, *parameters, *statements, &mut parts)?;
            Ok(declared_kind(*heading, function))
        }
        StmtPart::If => if_kind(alloc, &mut parts),
        StmtPart::IfElse => if_else_kind(alloc, &mut parts),
        StmtPart::While => while_kind(alloc, &mut parts),
        StmtPart::For => for_kind(alloc, &mut parts),
        StmtPart::Return => Ok(StmtKind::Return(optional(&mut parts)?)),
        StmtPart::Jump(jump) => Ok(jump_kind(*jump)),
        StmtPart::Throw => Ok(StmtKind::Throw(expr(&mut parts)?)),
        StmtPart::Try => try_kind(alloc, &mut parts),
        StmtPart::Block(count) => Ok(StmtKind::Block(row(alloc, *count, &mut parts)?)),
        StmtPart::Empty => Ok(StmtKind::Empty),
    }
}

fn shared(mark: &Mark) -> Result<Mark, Fault>
    ensures { Gives result (Some mark.now) }
{
    Ok(Mark {
        place: mark.place,
        name: mark.name.share()?,
    })
}

fn no_characters(alloc: Global) -> Result<Text, NoMemory>
    ensures { IfOk result (λ text. text ≡ []) }
{
    Text::from_str(alloc, "")
}

pub(crate) fn piece(alloc: Global, part: &Piece, parts: IntoIter<Value>) -> Result<Value, Fault>
    ensures { Gives result (spec.piece_made part.now (into_iter_items parts)) }
{
    let mut parts = parts;
    match part {
        Piece::Word(mark) => Ok(Value::Word(shared(mark)?)),
        Piece::QuotedKey(text) => Ok(Value::Key(text.share()?)),
        Piece::AttributeName(mark) => {
            let name = shared(mark)?;
            let empty = no_characters(alloc)?;
            Ok(Value::Attribute(name, MarkupValue::Quoted(empty)))
        }
        Piece::AttributeQuoted(text) => {
            let name = attribute_name(&mut parts)?;
            Ok(Value::Attribute(name, MarkupValue::Quoted(text.share()?)))
        }
        Piece::AttributeTilde => {
            let name = attribute_name(&mut parts)?;
            Ok(Value::Attribute(name, MarkupValue::Tilde(expr(&mut parts)?)))
        }
        Piece::AttributeDollar => {
            let name = attribute_name(&mut parts)?;
            Ok(Value::Attribute(name, MarkupValue::Dollar(expr(&mut parts)?)))
        }
        Piece::ChildText(text) => Ok(Value::Child(MarkupChild::Text(text.share()?))),
        Piece::ChildDirect => Ok(Value::Child(MarkupChild::Direct(expr(&mut parts)?))),
        Piece::ChildDollar => Ok(Value::Child(MarkupChild::Dollar(expr(&mut parts)?))),
        Piece::DeclName(mark) => Ok(Value::Decl(shared(mark)?, None)),
        Piece::DeclValue => {
            let name = decl_name(&mut parts)?;
            Ok(Value::Decl(name, Some(expr(&mut parts)?)))
        }
        Piece::Absent => Ok(Value::Optional(None)),
        Piece::Present => Ok(Value::Optional(Some(expr(&mut parts)?))),
        Piece::StartOptional => Ok(Value::Start(start_of(optional(&mut parts)?))),
        Piece::StartVars(count) => {
            Ok(Value::Start(ForStart::Var(row(alloc, *count, &mut parts)?)))
        }
    }
}

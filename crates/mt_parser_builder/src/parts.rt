//! The values in a node, taken from their front.

ghost use Rattle.std.specs.Vec.Iter.{into_iter_items};
ghost use Rattle.mt_parser_builder.specs.Answer.{GivesWith};
ghost use Rattle.mt_parser_builder.specs.Parts as spec;

use crate::fault::Fault;
use crate::value::Value;
use mt_grammar::Heading;
use mt_syntax::{Decl, Expr, ForStart, Mark, MarkupAttribute, MarkupChild, Prop, Stmt};
use mt_tree::Text;
use std::vec::IntoIter;

pub(crate) fn expr(parts: &mut IntoIter<Value>) -> Result<Expr, Fault>
    ensures { GivesWith result (into_iter_items parts.new) (spec.expr_first (into_iter_items parts.old)) }
{
    match parts.next() {
        Some(Value::Expr(expr)) => Ok(expr),
        _ => Err(Fault::Malformed),
    }
}

pub(crate) fn stmt(parts: &mut IntoIter<Value>) -> Result<Stmt, Fault>
    ensures { GivesWith result (into_iter_items parts.new) (spec.stmt_first (into_iter_items parts.old)) }
{
    match parts.next() {
        Some(Value::Stmt(stmt)) => Ok(stmt),
        _ => Err(Fault::Malformed),
    }
}

pub(crate) fn word(parts: &mut IntoIter<Value>) -> Result<Mark, Fault>
    ensures { GivesWith result (into_iter_items parts.new) (spec.word_first (into_iter_items parts.old)) }
{
    match parts.next() {
        Some(Value::Word(mark)) => Ok(mark),
        _ => Err(Fault::Malformed),
    }
}

pub(crate) fn optional(parts: &mut IntoIter<Value>) -> Result<Option<Expr>, Fault>
    ensures { GivesWith result (into_iter_items parts.new) (spec.optional_first (into_iter_items parts.old)) }
{
    match parts.next() {
        Some(Value::Optional(optional)) => Ok(optional),
        _ => Err(Fault::Malformed),
    }
}

pub(crate) fn start(parts: &mut IntoIter<Value>) -> Result<ForStart, Fault>
    ensures { GivesWith result (into_iter_items parts.new) (spec.start_first (into_iter_items parts.old)) }
{
    match parts.next() {
        Some(Value::Start(start)) => Ok(start),
        _ => Err(Fault::Malformed),
    }
}

pub(crate) fn attribute_name(parts: &mut IntoIter<Value>) -> Result<Mark, Fault>
    ensures { GivesWith result (into_iter_items parts.new) (spec.attribute_name_first (into_iter_items parts.old)) }
{
    match parts.next() {
        Some(Value::Attribute(name, _)) => Ok(name),
        _ => Err(Fault::Malformed),
    }
}

pub(crate) fn decl_name(parts: &mut IntoIter<Value>) -> Result<Mark, Fault>
    ensures { GivesWith result (into_iter_items parts.new) (spec.decl_name_first (into_iter_items parts.old)) }
{
    match parts.next() {
        Some(Value::Decl(name, _)) => Ok(name),
        _ => Err(Fault::Malformed),
    }
}

pub(crate) fn attribute(parts: &mut IntoIter<Value>) -> Result<MarkupAttribute, Fault>
    ensures { GivesWith result (into_iter_items parts.new) (spec.attribute_first (into_iter_items parts.old)) }
{
    match parts.next() {
        Some(Value::Attribute(name, value)) => Ok(MarkupAttribute { name, value }),
        _ => Err(Fault::Malformed),
    }
}

// The name of a function.
pub(crate) fn title(heading: Heading, parts: &mut IntoIter<Value>) -> Result<Option<Mark>, Fault>
    ensures { GivesWith result (into_iter_items parts.new) (spec.title_first heading (into_iter_items parts.old)) }
{
    match heading {
        Heading::Expression => Ok(None),
        _ => Ok(Some(word(parts)?)),
    }
}

fn key(parts: &mut IntoIter<Value>) -> Result<Text, Fault>
    ensures { GivesWith result (into_iter_items parts.new) (spec.key_first (into_iter_items parts.old)) }
{
    match parts.next() {
        Some(Value::Key(text)) => Ok(text),
        Some(Value::Word(mark)) => Ok(mark.name),
        _ => Err(Fault::Malformed),
    }
}

pub(crate) fn prop(parts: &mut IntoIter<Value>) -> Result<Prop, Fault>
    ensures { GivesWith result (into_iter_items parts.new) (spec.prop_first (into_iter_items parts.old)) }
{
    let name = key(parts)?;
    let value = expr(parts)?;
    Ok(Prop { name, value })
}

pub(crate) fn child(parts: &mut IntoIter<Value>) -> Result<MarkupChild, Fault>
    ensures { GivesWith result (into_iter_items parts.new) (spec.child_first (into_iter_items parts.old)) }
{
    match parts.next() {
        Some(Value::Child(child)) => Ok(child),
        _ => Err(Fault::Malformed),
    }
}

pub(crate) fn decl(parts: &mut IntoIter<Value>) -> Result<Decl, Fault>
    ensures { GivesWith result (into_iter_items parts.new) (spec.decl_first (into_iter_items parts.old)) }
{
    match parts.next() {
        Some(Value::Decl(name, value)) => Ok(Decl { name, value }),
        _ => Err(Fault::Malformed),
    }
}

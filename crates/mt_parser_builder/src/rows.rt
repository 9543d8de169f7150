//! Rows of values of one kind.

ghost use Rattle.std.specs.Prelude.{List, Option};
ghost use Rattle.std.specs.Vec.Iter.{into_iter_items};
ghost use Rattle.mt_parser_builder.specs.declared.value.Value.{Value};
ghost use Rattle.mt_parser_builder.specs.Answer.{GivesWith};
ghost use Rattle.mt_parser_builder.specs.Parts as spec;

use crate::fault::Fault;
use crate::parts::{attribute, child, decl, expr, prop, stmt, word};
use crate::value::Value;
use mt_syntax::{Decl, Expr, Mark, MarkupAttribute, MarkupChild, Prop, Stmt};
use mt_tree::{Row, push};
use std::alloc::Global;
use std::vec::IntoIter;

// What can be taken from the front of the values in a node.
pub(crate) trait Item: Drop {
    ghost taken: { List Value → Option (Self × List Value) };

    fn take_first(parts: &mut IntoIter<Value>) -> Result<Self, Fault>
        ensures { GivesWith result (into_iter_items parts.new) (taken (into_iter_items parts.old)) };
}

impl Item for Expr {
    ghost taken = { spec.expr_first };

    fn take_first(parts: &mut IntoIter<Value>) -> Result<Expr, Fault> {
        expr(parts)
    }
}

impl Item for Stmt {
    ghost taken = { spec.stmt_first };

    fn take_first(parts: &mut IntoIter<Value>) -> Result<Stmt, Fault> {
        stmt(parts)
    }
}

impl Item for Mark {
    ghost taken = { spec.word_first };

    fn take_first(parts: &mut IntoIter<Value>) -> Result<Mark, Fault> {
        word(parts)
    }
}

impl Item for Prop {
    ghost taken = { spec.prop_first };

    fn take_first(parts: &mut IntoIter<Value>) -> Result<Prop, Fault> {
        prop(parts)
    }
}

impl Item for Decl {
    ghost taken = { spec.decl_first };

    fn take_first(parts: &mut IntoIter<Value>) -> Result<Decl, Fault> {
        decl(parts)
    }
}

impl Item for MarkupAttribute {
    ghost taken = { spec.attribute_first };

    fn take_first(parts: &mut IntoIter<Value>) -> Result<MarkupAttribute, Fault> {
        attribute(parts)
    }
}

impl Item for MarkupChild {
    ghost taken = { spec.child_first };

    fn take_first(parts: &mut IntoIter<Value>) -> Result<MarkupChild, Fault> {
        child(parts)
    }
}

// `count` items from the front.
pub(crate) fn row<T: Item>(
    alloc: Global,
    count: usize,
    parts: &mut IntoIter<Value>,
) -> Result<Row<T>, Fault>
    ensures { GivesWith result (into_iter_items parts.new) (spec.firsts T.taken count (into_iter_items parts.old)) }
{
    let mut made = Vec::new(alloc);
    for _ in 0..count {
        push(&mut made, T::take_first(parts)?)?;
    }
    Ok(Row::from_vec(alloc, made)?)
}

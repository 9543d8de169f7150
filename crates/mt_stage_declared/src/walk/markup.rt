ghost use Rattle.std.specs.Prelude.{◌≡◌, map, None, IfOk};
ghost use Rattle.mt_syntax.specs.First.{earlier_of};
ghost use Rattle.mt_syntax.specs.Fold.{on_markup, on_markup_attribute, on_markup_child, on_markup_value};
ghost use Rattle.mt_stage_declared.specs.Parts.{found_in};
ghost use Rattle.mt_stage_declared.specs.Twice.{first_twice};

use crate::search::Search;
use crate::walk::expressions::expr;
use mt_syntax::{Broken, Markup, MarkupAttribute, MarkupChild, MarkupValue, earlier};
use mt_tree::Row;

#[cycle(walk)]
pub(crate) fn markup<S: Search>(search: &S, from: &Markup) -> Result<Option<Broken>, S::Refusal>
    ensures { IfOk result (λ found. found ≡ (on_markup first_twice from.now).found) }
{
    let first = attributes(search, &from.attributes)?;
    let second = children(search, &from.children)?;
    Ok(earlier(first, second))
}

#[cycle(walk)]
fn attribute<S: Search>(search: &S, from: &MarkupAttribute) -> Result<Option<Broken>, S::Refusal>
    ensures { IfOk result (λ found. found ≡ (on_markup_attribute first_twice from.now).found) }
{
    attribute_value(search, &from.value)
}

#[cycle(walk)]
fn attributes<S: Search>(
    search: &S,
    items: &Row<MarkupAttribute>,
) -> Result<Option<Broken>, S::Refusal>
    ensures { IfOk result (λ found. found ≡ found_in None earlier_of (map (on_markup_attribute first_twice) items.now)) }
{
    let mut found = None;
    for item in items.items() {
        found = earlier(found, attribute(search, item)?);
    }
    Ok(found)
}

#[cycle(walk)]
fn attribute_value<S: Search>(search: &S, from: &MarkupValue) -> Result<Option<Broken>, S::Refusal>
    ensures { IfOk result (λ found. found ≡ (on_markup_value first_twice from.now).found) }
{
    match from {
        MarkupValue::Quoted(_text) => Ok(None),
        MarkupValue::Tilde(a) => expr(search, a),
        MarkupValue::Dollar(a) => expr(search, a),
    }
}

#[cycle(walk)]
fn child<S: Search>(search: &S, from: &MarkupChild) -> Result<Option<Broken>, S::Refusal>
    ensures { IfOk result (λ found. found ≡ (on_markup_child first_twice from.now).found) }
{
    match from {
        MarkupChild::Text(_text) => Ok(None),
        MarkupChild::Direct(a) => expr(search, a),
        MarkupChild::Dollar(a) => expr(search, a),
    }
}

#[cycle(walk)]
fn children<S: Search>(search: &S, items: &Row<MarkupChild>) -> Result<Option<Broken>, S::Refusal>
    ensures { IfOk result (λ found. found ≡ found_in None earlier_of (map (on_markup_child first_twice) items.now)) }
{
    let mut found = None;
    for item in items.items() {
        found = earlier(found, child(search, item)?);
    }
    Ok(found)
}

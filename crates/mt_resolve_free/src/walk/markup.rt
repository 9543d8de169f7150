ghost use Rattle.std.specs.Prelude.{◌≡◌, map, IfOk};
ghost use Rattle.mt_eval_meaning.specs.Free as spec;
ghost use Rattle.mt_eval_meaning.specs.Free.{finding};
ghost use Rattle.mt_resolve_free.specs.Tildes.{names_at};
ghost use Rattle.mt_syntax.specs.Fold.{on_markup, on_markup_attribute, on_markup_child, on_markup_value};
ghost use Rattle.mt_syntax.specs.Gathering.{all_of};

use crate::used::Used;
use crate::walk::expressions::expr;
use mt_syntax::{Markup, MarkupAttribute, MarkupChild, MarkupValue};
use mt_tree::{NoMemory, Row, Text, push};
use std::alloc::Global;

#[cycle(walk)]
pub(crate) fn markup(alloc: Global, tildes: &[Row<Text>], from: &Markup) -> Result<Used, NoMemory>
    ensures { IfOk result (λ used. used ≡ on_markup (finding (names_at tildes.now)) from.now) }
{
    let attributes = attributes(alloc, tildes, from.attributes.items())?;
    let children = children(alloc, tildes, from.children.items())?;
    attributes.joined(children)
}

#[cycle(walk)]
fn attribute(alloc: Global, tildes: &[Row<Text>], from: &MarkupAttribute) -> Result<Used, NoMemory>
    ensures { IfOk result (λ used. used ≡ on_markup_attribute (finding (names_at tildes.now)) from.now) }
{
    attribute_value(alloc, tildes, &from.value)
}

#[cycle(walk)]
fn attributes(
    alloc: Global,
    tildes: &[Row<Text>],
    items: &[MarkupAttribute],
) -> Result<Used, NoMemory>
    ensures { IfOk result (λ used. used ≡ all_of spec.none spec.joined (map (on_markup_attribute (finding (names_at tildes.now))) items.now)) }
{
    let mut each = Vec::new(alloc);
    for item in items {
        push(&mut each, attribute(alloc, tildes, item)?)?;
    }
    Used::all(alloc, each)
}

#[cycle(walk)]
fn attribute_value(
    alloc: Global,
    tildes: &[Row<Text>],
    from: &MarkupValue,
) -> Result<Used, NoMemory>
    ensures { IfOk result (λ used. used ≡ on_markup_value (finding (names_at tildes.now)) from.now) }
{
    match from {
        MarkupValue::Quoted(_text) => Ok(Used::none(alloc)),
        MarkupValue::Tilde(a) | MarkupValue::Dollar(a) => expr(alloc, tildes, a),
    }
}

#[cycle(walk)]
fn child(alloc: Global, tildes: &[Row<Text>], from: &MarkupChild) -> Result<Used, NoMemory>
    ensures { IfOk result (λ used. used ≡ on_markup_child (finding (names_at tildes.now)) from.now) }
{
    match from {
        MarkupChild::Text(_text) => Ok(Used::none(alloc)),
        MarkupChild::Direct(a) | MarkupChild::Dollar(a) => expr(alloc, tildes, a),
    }
}

#[cycle(walk)]
fn children(alloc: Global, tildes: &[Row<Text>], items: &[MarkupChild]) -> Result<Used, NoMemory>
    ensures { IfOk result (λ used. used ≡ all_of spec.none spec.joined (map (on_markup_child (finding (names_at tildes.now))) items.now)) }
{
    let mut each = Vec::new(alloc);
    for item in items {
        push(&mut each, child(alloc, tildes, item)?)?;
    }
    Used::all(alloc, each)
}

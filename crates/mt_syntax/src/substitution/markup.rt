ghost use Rattle.std.specs.Prelude.{◌≡◌, map, IfOk};
ghost use Rattle.mt_syntax.specs.Substitution.{subst_markup, subst_markup_attribute, subst_markup_child, subst_markup_value};

use crate::substitution::expressions::expr;
use crate::substitution::marks::mark;
use crate::substitution::values::push;
use crate::tree::{Markup, MarkupAttribute, MarkupChild, MarkupValue};
use mt_tree::{Data, NoMemory, Row};
use std::alloc::Global;

#[cycle(substitution)]
pub(crate) fn markup(alloc: Global, from: &Markup, values: &[Data]) -> Result<Markup, NoMemory>
    ensures { IfOk result (λ m. m ≡ subst_markup values.now from.now) }
{
    let tag = from.tag.share()?;
    let attributes = attributes(alloc, &from.attributes, values)?;
    Ok(Markup {
        tag,
        attributes,
        children: children(alloc, &from.children, values)?,
    })
}

#[cycle(substitution)]
pub(crate) fn attribute(
    alloc: Global,
    from: &MarkupAttribute,
    values: &[Data],
) -> Result<MarkupAttribute, NoMemory>
    ensures { IfOk result (λ a. a ≡ subst_markup_attribute values.now from.now) }
{
    let name = mark(&from.name)?;
    Ok(MarkupAttribute {
        name,
        value: attribute_value(alloc, &from.value, values)?,
    })
}

#[cycle(substitution)]
pub(crate) fn attributes(
    alloc: Global,
    items: &Row<MarkupAttribute>,
    values: &[Data],
) -> Result<Row<MarkupAttribute>, NoMemory>
    ensures { IfOk result (λ row. row ≡ map (subst_markup_attribute values.now) items.now) }
{
    let mut made = Vec::new(alloc);
    for item in items.items() {
        push(&mut made, attribute(alloc, item, values)?)?;
    }
    Row::from_vec(alloc, made)
}

#[cycle(substitution)]
pub(crate) fn attribute_value(
    alloc: Global,
    from: &MarkupValue,
    values: &[Data],
) -> Result<MarkupValue, NoMemory>
    ensures { IfOk result (λ v. v ≡ subst_markup_value values.now from.now) }
{
    match from {
        MarkupValue::Quoted(text) => Ok(MarkupValue::Quoted(text.share()?)),
        MarkupValue::Tilde(a) => Ok(MarkupValue::Tilde(expr(alloc, a, values)?)),
        MarkupValue::Dollar(a) => Ok(MarkupValue::Dollar(expr(alloc, a, values)?)),
    }
}

#[cycle(substitution)]
pub(crate) fn child(
    alloc: Global,
    from: &MarkupChild,
    values: &[Data],
) -> Result<MarkupChild, NoMemory>
    ensures { IfOk result (λ c. c ≡ subst_markup_child values.now from.now) }
{
    match from {
        MarkupChild::Text(text) => Ok(MarkupChild::Text(text.share()?)),
        MarkupChild::Direct(a) => Ok(MarkupChild::Direct(expr(alloc, a, values)?)),
        MarkupChild::Dollar(a) => Ok(MarkupChild::Dollar(expr(alloc, a, values)?)),
    }
}

#[cycle(substitution)]
pub(crate) fn children(
    alloc: Global,
    items: &Row<MarkupChild>,
    values: &[Data],
) -> Result<Row<MarkupChild>, NoMemory>
    ensures { IfOk result (λ row. row ≡ map (subst_markup_child values.now) items.now) }
{
    let mut made = Vec::new(alloc);
    for item in items.items() {
        push(&mut made, child(alloc, item, values)?)?;
    }
    Row::from_vec(alloc, made)
}

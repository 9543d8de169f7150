ghost use Rattle.std.specs.Prelude.{◌≡◌, ◌++◌, map, OnOk};
ghost use Rattle.mt_syntax.specs.Fold.{on_markup, on_markup_attribute, on_markup_child, on_markup_value};
ghost use Rattle.mt_stage_scopes.specs.Sites.{sites, sites_in};

use crate::around::Around;
use crate::site::Site;
use crate::sites::expressions::expr;
use mt_syntax::{Markup, MarkupAttribute, MarkupChild, MarkupValue};
use mt_tree::{NoMemory, Row};
use std::alloc::Global;

#[cycle(sites)]
pub(crate) fn markup(
    alloc: Global,
    from: &Markup,
    around: &Around,
    into: &mut Vec<Site>,
) -> Result<(), NoMemory>
    ensures { OnOk result (into.new.items ≡ into.old.items ++ (on_markup sites from.now).found.sites around.now) }
{
    attributes(alloc, &from.attributes, around, into)?;
    children(alloc, &from.children, around, into)
}

#[cycle(sites)]
fn attribute(
    alloc: Global,
    from: &MarkupAttribute,
    around: &Around,
    into: &mut Vec<Site>,
) -> Result<(), NoMemory>
    ensures { OnOk result (into.new.items ≡ into.old.items ++ (on_markup_attribute sites from.now).found.sites around.now) }
{
    attribute_value(alloc, &from.value, around, into)
}

#[cycle(sites)]
fn attributes(
    alloc: Global,
    items: &Row<MarkupAttribute>,
    around: &Around,
    into: &mut Vec<Site>,
) -> Result<(), NoMemory>
    ensures { OnOk result (into.new.items ≡ into.old.items ++ sites_in (map (on_markup_attribute sites) items.now) around.now) }
{
    for item in items.items() {
        attribute(alloc, item, around, into)?;
    }
    Ok(())
}

#[cycle(sites)]
fn attribute_value(
    alloc: Global,
    from: &MarkupValue,
    around: &Around,
    into: &mut Vec<Site>,
) -> Result<(), NoMemory>
    ensures { OnOk result (into.new.items ≡ into.old.items ++ (on_markup_value sites from.now).found.sites around.now) }
{
    match from {
        MarkupValue::Quoted(_text) => Ok(()),
        MarkupValue::Tilde(a) => expr(alloc, a, around, into),
        MarkupValue::Dollar(a) => expr(alloc, a, &around.in_dollar()?, into),
    }
}

#[cycle(sites)]
fn child(
    alloc: Global,
    from: &MarkupChild,
    around: &Around,
    into: &mut Vec<Site>,
) -> Result<(), NoMemory>
    ensures { OnOk result (into.new.items ≡ into.old.items ++ (on_markup_child sites from.now).found.sites around.now) }
{
    match from {
        MarkupChild::Text(_text) => Ok(()),
        MarkupChild::Direct(a) => expr(alloc, a, around, into),
        MarkupChild::Dollar(a) => expr(alloc, a, &around.in_dollar()?, into),
    }
}

#[cycle(sites)]
fn children(
    alloc: Global,
    items: &Row<MarkupChild>,
    around: &Around,
    into: &mut Vec<Site>,
) -> Result<(), NoMemory>
    ensures { OnOk result (into.new.items ≡ into.old.items ++ sites_in (map (on_markup_child sites) items.now) around.now) }
{
    for item in items.items() {
        child(alloc, item, around, into)?;
    }
    Ok(())
}

ghost use Rattle.std.specs.Prelude.{◌≡◌, IfOk};
ghost use Rattle.mt_syntax.specs.Joining.{first};
ghost use Rattle.mt_syntax.specs.Fold.{on_markup, on_markup_attribute, on_markup_child, on_markup_value};
ghost use Rattle.mt_stage_placement.specs.Forms.{finding_forms, in_each};

use crate::forms::expressions::expr;
use crate::forms::repeats::repeated;
use crate::forms::site::{Site, broken_if};
use mt_syntax::{Broken, Markup, MarkupAttribute, MarkupChild, MarkupValue, Rule, earlier};
use mt_tree::{NoMemory, Row, attribute_fits, tag_known};
use std::alloc::Global;

#[cycle(forms)]
pub(crate) fn markup(alloc: Global, from: &Markup, site: Site) -> Result<Option<Broken>, NoMemory>
    ensures { IfOk result (λ found. found ≡ (on_markup (finding_forms first) from.now).found site) }
{
    let here = broken_if(!tag_known(from.tag.as_bytes()), Rule::S12, site.place);
    let attributes = attributes(alloc, &from.attributes, site)?;
    let repeated = repeated(alloc, from.attributes.items())?;
    let children = children(alloc, &from.children, site)?;
    let parts = earlier(attributes, earlier(repeated, children));
    Ok(earlier(here, parts))
}

#[cycle(forms)]
pub(crate) fn attribute(
    alloc: Global,
    from: &MarkupAttribute,
    site: Site,
) -> Result<Option<Broken>, NoMemory>
    ensures { IfOk result (λ found. found ≡ (on_markup_attribute (finding_forms first) from.now).found site) }
{
    let fails = !attribute_fits(from.name.name.as_bytes());
    let here = broken_if(fails, Rule::S12, from.name.place);
    let value = attribute_value(alloc, &from.value, site.at_attribute(&from.name))?;
    Ok(earlier(here, value))
}

#[cycle(forms)]
pub(crate) fn attributes(
    alloc: Global,
    items: &Row<MarkupAttribute>,
    site: Site,
) -> Result<Option<Broken>, NoMemory>
    ensures { IfOk result (λ found. found ≡ in_each first (on_markup_attribute (finding_forms first)) items.now site) }
{
    let mut found = None;
    for item in items.items() {
        found = earlier(found, attribute(alloc, item, site)?);
    }
    Ok(found)
}

#[cycle(forms)]
pub(crate) fn attribute_value(
    alloc: Global,
    from: &MarkupValue,
    site: Site,
) -> Result<Option<Broken>, NoMemory>
    ensures { IfOk result (λ found. found ≡ (on_markup_value (finding_forms first) from.now).found site) }
{
    match from {
        MarkupValue::Quoted(_) => Ok(broken_if(site.handler, Rule::S10, site.place)),
        MarkupValue::Tilde(a) => {
            let here = broken_if(!site.handler, Rule::S11, site.place);
            Ok(earlier(here, expr(alloc, a, site)?))
        }
        MarkupValue::Dollar(a) => expr(alloc, a, site.in_dollar()),
    }
}

#[cycle(forms)]
pub(crate) fn child(
    alloc: Global,
    from: &MarkupChild,
    site: Site,
) -> Result<Option<Broken>, NoMemory>
    ensures { IfOk result (λ found. found ≡ (on_markup_child (finding_forms first) from.now).found site) }
{
    match from {
        MarkupChild::Text(_) => Ok(None),
        MarkupChild::Direct(a) => expr(alloc, a, site),
        MarkupChild::Dollar(a) => expr(alloc, a, site.in_dollar()),
    }
}

#[cycle(forms)]
pub(crate) fn children(
    alloc: Global,
    items: &Row<MarkupChild>,
    site: Site,
) -> Result<Option<Broken>, NoMemory>
    ensures { IfOk result (λ found. found ≡ in_each first (on_markup_child (finding_forms first)) items.now site) }
{
    let mut found = None;
    for item in items.items() {
        found = earlier(found, child(alloc, item, site)?);
    }
    Ok(found)
}

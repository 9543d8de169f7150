ghost use Rattle.std.specs.Prelude.{◌≡◌};
ghost use Rattle.mt_syntax.specs.Joining.{first};
ghost use Rattle.mt_syntax.specs.Fold.{on_markup, on_markup_attribute, on_markup_child, on_markup_value};
ghost use Rattle.mt_stage_placement.specs.Jumps.{finding_jumps, in_each};

use crate::jumps::around::Around;
use crate::jumps::expressions::expr;
use mt_syntax::{Broken, Markup, MarkupAttribute, MarkupChild, MarkupValue, earlier};
use mt_tree::Row;

#[cycle(jumps)]
pub(crate) fn markup(from: &Markup, around: Around) -> Option<Broken>
    ensures { result ≡ on_markup (finding_jumps first) from.now around }
{
    earlier(
        attributes(&from.attributes, around),
        children(&from.children, around),
    )
}

#[cycle(jumps)]
pub(crate) fn attribute(from: &MarkupAttribute, around: Around) -> Option<Broken>
    ensures { result ≡ on_markup_attribute (finding_jumps first) from.now around }
{
    attribute_value(&from.value, around)
}

#[cycle(jumps)]
pub(crate) fn attributes(items: &Row<MarkupAttribute>, around: Around) -> Option<Broken>
    ensures { result ≡ in_each first (on_markup_attribute (finding_jumps first)) items.now around }
{
    let mut found = None;
    for item in items.items() {
        found = earlier(found, attribute(item, around));
    }
    found
}

#[cycle(jumps)]
pub(crate) fn attribute_value(from: &MarkupValue, around: Around) -> Option<Broken>
    ensures { result ≡ on_markup_value (finding_jumps first) from.now around }
{
    match from {
        MarkupValue::Quoted(_) => None,
        MarkupValue::Tilde(a) => expr(a, around),
        MarkupValue::Dollar(a) => expr(a, around),
    }
}

#[cycle(jumps)]
pub(crate) fn child(from: &MarkupChild, around: Around) -> Option<Broken>
    ensures { result ≡ on_markup_child (finding_jumps first) from.now around }
{
    match from {
        MarkupChild::Text(_) => None,
        MarkupChild::Direct(a) => expr(a, around),
        MarkupChild::Dollar(a) => expr(a, around),
    }
}

#[cycle(jumps)]
pub(crate) fn children(items: &Row<MarkupChild>, around: Around) -> Option<Broken>
    ensures { result ≡ in_each first (on_markup_child (finding_jumps first)) items.now around }
{
    let mut found = None;
    for item in items.items() {
        found = earlier(found, child(item, around));
    }
    found
}

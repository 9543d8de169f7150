ghost use Rattle.std.specs.Prelude.{◌≡◌, ◌≤◌, ◌↔◌, true, false, IfOk, OnOk, Err};
ghost use Rattle.mt_tree.specs.Limits.{nesting_limit};
ghost use Rattle.mt_html.specs.Nesting.{nesting};
ghost use Rattle.mt_html.specs.Normal.{element_of};
ghost use Rattle.mt_html.specs.Refusals as spec;

use crate::joining::joined;
use crate::nul::holds_nul;
use crate::refusal::HtmlRefusal;
use crate::size::is_too_large;
use mt_tree::{Attribute, Closure, Element, Html, Row, Text};
use std::alloc::Global;

/// The element with this tag and these attributes, and with the children in normal form: those that are texts and stand beside each
/// other are one text, those that are empty are left out, and all else stays in order. What isn't joined is shared.
///
/// An element nests one level more than its deepest child, and one without elements in it nests 1 deep.
///
/// # Errors
/// `TooLarge` exactly where the element would nest to depth 61, or a joined text would have more than 1,048,576 units of UTF-16. Else `Nul`
/// exactly where a text among the children or the value of a plain attribute of this element holds U+0000. `NoMemory`.
#[tactic(auto, using(crate::proofs::Depths::small_nests))]
pub fn element(
    alloc: Global,
    tag: &Text,
    attributes: Row<Attribute<Closure>>,
    children: Row<Html<Closure>>,
) -> Result<Html<Closure>, HtmlRefusal>
    ensures made { IfOk result (λ html. html ≡ element_of tag.now attributes children) }
    ensures nests { IfOk result (λ html. nesting html ≤ 60) }

    // What is made is neither too large nor holds U+0000.
    ensures small { OnOk result (spec.is_too_large children ≡ false) }
    ensures clean { OnOk result (spec.holds_nul attributes children ≡ false) }

    // Neither refusal waits for memory.
    ensures too_large { (result ≡ Err HtmlRefusal.TooLarge) ↔ (spec.is_too_large children ≡ true) }
    ensures nul { (result ≡ Err HtmlRefusal.Nul) ↔ ((spec.is_too_large children ≡ false) × (spec.holds_nul attributes children ≡ true)) }
{
    if is_too_large(children.items()) {
        return Err(HtmlRefusal::TooLarge);
    }
    if holds_nul(attributes.items(), children.items()) {
        return Err(HtmlRefusal::Nul);
    }
    let children = joined(alloc, children.items())?;
    let tag = tag.share()?;
    Ok(Html::Element(Element {
        tag,
        attributes,
        children,
    }))
}

ghost use Rattle.std.specs.Prelude.{◌≡◌};
ghost use Rattle.std.specs.List.{list_any};
ghost use Rattle.mt_html.specs.Normal.{text_of};
ghost use Rattle.mt_html.specs.Refusals as spec;

use crate::joining::text_in;
use mt_tree::{Attribute, AttributeValue, Closure, Html, Text};

/// Whether the text holds U+0000. Takes no memory.
#[tactic(auto, using(crate::proofs::Characters::nul_by_bytes))]
pub fn has_nul(text: &Text) -> bool
    ensures { result ≡ spec.has_nul text.now }
{
    text.as_bytes().contains(&0)
}

fn value_has_nul(attribute: &Attribute<Closure>) -> bool
    ensures { result ≡ spec.value_has_nul attribute.now.value }
{
    match &attribute.value {
        AttributeValue::Plain(text) => has_nul(text),
        AttributeValue::Handler(_) => false,
    }
}

fn child_has_nul(child: &Html<Closure>) -> bool
    ensures { result ≡ spec.text_passes spec.has_nul (text_of child.now) }
{
    match text_in(child) {
        Some(text) => has_nul(text),
        None => false,
    }
}

fn any_value(attributes: &[Attribute<Closure>]) -> bool
    ensures { result ≡ list_any (λ a. spec.value_has_nul a.value) attributes.now }
{
    attributes.iter().any(value_has_nul)
}

fn any_child(children: &[Html<Closure>]) -> bool
    ensures { result ≡ spec.any_text spec.has_nul children.now }
{
    children.iter().any(child_has_nul)
}

/// Whether a plain attribute or a text among the children holds U+0000. Takes no memory.
#[tactic(auto, unfolding(crate::specs::Refusals::holds_nul))]
pub(crate) fn holds_nul(attributes: &[Attribute<Closure>], children: &[Html<Closure>]) -> bool
    ensures { result ≡ spec.holds_nul attributes.now children.now }
{
    any_value(attributes) || any_child(children)
}

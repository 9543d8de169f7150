ghost use Rattle.std.specs.Prelude.{◌≡◌, nat_lt, map};
ghost use Rattle.mt_html.specs.Nesting.{greatest, nesting};

use mt_tree::{Closure, Html};

/// Whether the elements of a tree nest deeper than so many levels. Takes one call more than there are levels, at most, whatever
/// the tree is.
#[cycle(nesting)]
#[tactic(auto, using(crate::proofs::Levels::deeper_at_none, crate::proofs::Levels::deeper_below), unfolding(crate::specs::Nesting::nesting))]
fn is_deeper(html: &Html<Closure>, levels: u32) -> bool
    ensures { result ≡ nat_lt levels (nesting html.now) }
{
    match html {
        Html::Element(element) => levels == 0 || any_deeper(element.children.items(), levels - 1),
        Html::Text(_) | Html::Script(_) => false,
    }
}

/// Whether the elements of any of the trees do.
#[cycle(nesting)]
#[tactic(auto, using(crate::proofs::Levels::deep_here, crate::proofs::Levels::deep_next, crate::proofs::Levels::deep_none))]
pub(crate) fn any_deeper(items: &[Html<Closure>], levels: u32) -> bool
    ensures { result ≡ nat_lt levels (greatest (map nesting items.now)) }
{
    for item in items {
        if is_deeper(item, levels) {
            return true;
        }
    }
    false
}

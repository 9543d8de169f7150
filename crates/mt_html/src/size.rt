ghost use Rattle.std.specs.Prelude.{◌≡◌};
ghost use Rattle.mt_html.specs.Normal.{normal, text_of};
ghost use Rattle.mt_html.specs.Refusals as spec;
ghost use Rattle.mt_html.specs.Refusals.{any_text, is_long, units_with};

use crate::joining::text_in;
use crate::nesting::any_deeper;
use mt_tree::{Closure, Html, NESTING_LIMIT, TEXT_LIMIT};

/// The units of the texts that stand together up to this child, where those before it have so many; 0 where it is no text. They stay at
/// the last value of their type.
fn run_units(units: u64, child: &Html<Closure>) -> u64
    ensures { result ≡ units_with units (text_of child.now) }
{
    match text_in(child) {
        Some(text) => units.saturating_add(text.units()),
        None => 0,
    }
}

/// Whether a text that is joined of the children has more than 1,048,576 units. Joins none.
fn any_long(children: &[Html<Closure>]) -> bool
    ensures { result ≡ any_text is_long (normal children.now) }
{
    let mut units = 0;
    for child in children {
        units = run_units(units, child);
        if units > TEXT_LIMIT {
            return true;
        }
    }
    false
}

/// Whether an element of these children would nest to depth 61, or a joined text would have more than 1,048,576 units. Takes no memory.
#[tactic(auto, using(crate::proofs::Levels::deeper_below), unfolding(crate::specs::Refusals::is_too_large))]
pub(crate) fn is_too_large(children: &[Html<Closure>]) -> bool
    ensures { result ≡ spec.is_too_large children.now }
{
    any_deeper(children, NESTING_LIMIT - 1) || any_long(children)
}

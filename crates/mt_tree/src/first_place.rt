ghost use Rattle.std.specs.Prelude.{◌≡◌, ◌^◌, ◌<◌, IfSome};
ghost use Rattle.std.specs.Str.{chars};
ghost use Rattle.mt_tree.specs.Text.{units_of};
ghost use Rattle.mt_tree.specs.Units as spec;

use crate::text::Text;
use crate::units::units;

/// The first place at which the sought text stands in the text, counted in units of UTF-16 from 0; `None` exactly where it
/// stands nowhere. The empty text stands at each place. Takes no memory, and time linear in both texts.
pub fn find(text: &Text, sought: &Text) -> Option<usize>
    ensures place { result ≡ spec.find sought.now text.now }
    ensures small { IfSome result (λ n. n < 2 ^ 63) }
{
    let whole = text.as_str();
    let at = whole.find(sought.as_str())?;
    let (front, _rest) = whole.split_at(at);
    Some(units(front))
}

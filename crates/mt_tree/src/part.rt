ghost use Rattle.std.specs.Prelude.{◌≡◌, IfOk, IfSome};
ghost use Rattle.std.specs.Option.{option_map};
ghost use Rattle.std.specs.Str.{chars, IsUtf8};
ghost use Rattle.mt_tree.specs.Units as spec;

use crate::fault::NoMemory;
use crate::text::Text;
use std::alloc::Global;

/// What stands behind the first `units` units.
fn behind(text: &str, units: usize) -> Option<&str>
    ensures rest { option_map (λ rest. chars rest.now) result ≡ spec.behind (chars text.now) units }
    ensures text { IfSome result (λ rest. IsUtf8 rest.now) }
{
    let mut rest = text.chars();
    let mut left = units;
    while left > 0 {
        let c = rest.next()?;
        let taken = c.len_utf16();
        if left < taken {
            return None;
        }
        left -= taken;
    }
    Some(rest.as_str())
}

/// The first `units` units.
fn before(text: &str, units: usize) -> Option<&str>
    ensures { option_map (λ front. chars front.now) result ≡ spec.before (chars text.now) units }
{
    match behind(text, units) {
        None => None,
        Some(rest) => {
            let (front, _rest) = text.split_at(text.len() - rest.len());
            Some(front)
        }
    }
}

/// The part of a text from the place `from` to the place `to`, both counted in units of UTF-16 from 0. `None` exactly
/// where no characters stand between them: a place lies inside a surrogate pair, even where both are the same, or `to` is
/// past the end, or it is below `from`. Takes time linear in the text.
///
/// # Errors
/// `NoMemory`.
#[tactic(auto, unfolding(crate::specs::Units::cut))]
pub fn cut(alloc: Global, text: &Text, from: usize, to: usize) -> Result<Option<Text>, NoMemory>
    ensures { IfOk result (λ part. part ≡ spec.cut text.now from to) }
{
    if to < from {
        return Ok(None);
    }
    match behind(text.as_str(), from) {
        None => Ok(None),
        Some(rest) => match before(rest, to - from) {
            None => Ok(None),
            Some(part) => Ok(Some(Text::from_str(alloc, part)?)),
        },
    }
}

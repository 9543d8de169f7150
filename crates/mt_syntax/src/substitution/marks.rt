ghost use Rattle.std.specs.Prelude.{◌≡◌, map, option_map, IfOk};
ghost use Rattle.mt_syntax.specs.Substitution.{unplaced};

use crate::substitution::values::push;
use crate::tree::Mark;
use mt_tree::{NoMemory, Place, Row};
use std::alloc::Global;

// The place of what stands nowhere in a source.
pub(crate) const NOWHERE: Place = Place { line: 0, column: 0 };

pub(crate) fn mark(from: &Mark) -> Result<Mark, NoMemory>
    ensures { IfOk result (λ made. made ≡ unplaced from.now) }
{
    Ok(Mark {
        place: NOWHERE,
        name: from.name.share()?,
    })
}

pub(crate) fn marks(alloc: Global, items: &[Mark]) -> Result<Row<Mark>, NoMemory>
    ensures { IfOk result (λ made. made ≡ map unplaced items.now) }
{
    let mut made = Vec::new(alloc);
    for item in items {
        push(&mut made, mark(item)?)?;
    }
    Row::from_vec(alloc, made)
}

pub(crate) fn optional_mark(from: &Option<Mark>) -> Result<Option<Mark>, NoMemory>
    ensures { IfOk result (λ made. made ≡ option_map unplaced from.now) }
{
    match from {
        None => Ok(None),
        Some(from) => Ok(Some(mark(from)?)),
    }
}

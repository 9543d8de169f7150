ghost use Rattle.std.specs.Prelude.{◌≡◌, [], ◌∷◌, ◌++◌, slice_get, Option, None, Some, IfOk, OnOk};
ghost use Rattle.std.specs.Option.{option_copied};
ghost use Rattle.mt_syntax.specs.Substitution.{value_of_dollar};

use crate::tree::ExprKind;
use mt_tree::{Data, NoMemory};

pub(crate) fn push<T: Drop>(list: &mut Vec<T>, item: T) -> Result<(), NoMemory>
    ensures { OnOk result (list.new.items ≡ list.old.items ++ item ∷ []) }
{
    match list.push(item) {
        Ok(()) => Ok(()),
        Err(_refused) => Err(NoMemory),
    }
}

fn item_at<T>(items: &[T], at: usize) -> Option<&T>
    ensures { option_copied result ≡ slice_get items.now at }
{
    items.get(at)
}

// The node that replaces the dollar.
pub(crate) fn value_at(values: &[Data], at: u32) -> Result<ExprKind, NoMemory>
    ensures { IfOk result (λ made. made ≡ value_of_dollar values.now at) }
{
    match item_at(values, at as usize) {
        None => Ok(ExprKind::Dollar(at)),
        Some(value) => Ok(ExprKind::Val(value.share()?)),
    }
}

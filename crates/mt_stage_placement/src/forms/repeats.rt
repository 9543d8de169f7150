ghost use Rattle.std.specs.Prelude.{◌≡◌, [], map, IfOk};
ghost use Rattle.mt_syntax.specs.Joining.{first};
ghost use Rattle.mt_syntax.specs.Fold.{on_markup_attribute};
ghost use Rattle.mt_stage_placement.specs.Forms.{finding_forms, names_of, repeated_behind};

use crate::forms::site::broken_if;
use indexmap::IndexSet;
use mt_syntax::{Broken, Mark, MarkupAttribute, Rule, earlier};
use mt_tree::NoMemory;
use std::alloc::Global;

/// The first attribute of a tag that stands behind one of the same name.
pub(crate) fn repeated(alloc: Global, items: &[MarkupAttribute]) -> Result<Option<Broken>, NoMemory>
    ensures { IfOk result (λ found. found ≡ repeated_behind first [] (names_of first (map (on_markup_attribute (finding_forms first)) items.now))) }
{
    let mut names = IndexSet::new(alloc);
    let mut found = None;
    for item in items {
        let name = name_of(item);
        let again = match names.insert(name.name.as_str()) {
            Ok(new) => !new,
            Err(_refused) => return Err(NoMemory),
        };
        found = earlier(found, broken_if(again, Rule::S12, name.place));
    }
    Ok(found)
}

fn name_of(item: &MarkupAttribute) -> &Mark
    ensures { result.now ≡ (on_markup_attribute (finding_forms first) item.now).name }
{
    &item.name
}

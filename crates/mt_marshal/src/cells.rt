ghost use Rattle.std.specs.Prelude.{◌≡◌, slice_get};
ghost use Rattle.mt_marshal.specs.Rules.{items_in, properties_in};

use mt_value::{Address, Cell, Property, Store, Value};

/// The items of the array at an address; none where no array stands there.
pub(crate) fn items_at(store: &Store, at: Address) -> &[Value]
    ensures { result.now ≡ items_in (slice_get store.now at) }
{
    match store.get(at) {
        Some(Cell::Arr(items)) => items.items(),
        _ => &[],
    }
}

/// The properties of the object at an address; none where no object stands there.
pub(crate) fn properties_at(store: &Store, at: Address) -> &[Property]
    ensures { result.now ≡ properties_in (slice_get store.now at) }
{
    match store.get(at) {
        Some(Cell::Obj(properties)) => properties.items(),
        _ => &[],
    }
}

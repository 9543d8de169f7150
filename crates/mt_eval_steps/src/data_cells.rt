ghost use Rattle.std.specs.Prelude.{◌≡◌, map, IfOk};
ghost use Rattle.mt_eval_steps.specs.Entries as parts;
ghost use Rattle.mt_eval_meaning.specs.Building as spec;
ghost use Rattle.mt_eval_meaning.specs.Building.{built_all};

use mt_tree::{Buffer, Data, Entry, NoMemory};
use mt_value::{Cell, Property, Store, Value};
use std::alloc::Global;

/// The value of a datum, with fresh cells for its arrays and objects. The cell of an array or an object stands behind those of its
/// items and values.
///
/// # Errors
/// `NoMemory`.
#[cycle(build)]
#[tactic(auto, unfolding(mt_eval_meaning::specs::Building::build, crate::specs::Entries::build_entry))]
pub fn build(alloc: Global, datum: &Data, store: &mut Store) -> Result<Value, NoMemory>
    ensures { IfOk result (λ value. (value, store.new) ≡ spec.build datum.now store.old) }
{
    match datum {
        Data::Undefined => Ok(Value::Undefined),
        Data::Null => Ok(Value::Null),
        Data::Bool(b) => Ok(Value::Bool(*b)),
        Data::Num(n) => Ok(Value::Num(*n)),
        Data::Text(text) => Ok(Value::Text(text.share()?)),
        Data::Arr(items) => {
            let values = build_items(alloc, items.items(), store)?;
            let at = store.add(Cell::Arr(values))?;
            Ok(Value::Arr(at))
        }
        Data::Obj(entries) => {
            let properties = build_entries(alloc, entries.items(), store)?;
            let at = store.add(Cell::Obj(properties))?;
            Ok(Value::Obj(at))
        }
        Data::Svc(name) => Ok(Value::Svc(name.share()?)),
    }
}

#[cycle(build)]
#[tactic(auto, using(crate::proofs::Building::built_next, crate::proofs::Building::built_last))]
fn build_items(alloc: Global, items: &[Data], store: &mut Store) -> Result<Buffer<Value>, NoMemory>
    ensures { IfOk result (λ made. (made, store.new) ≡ built_all (map spec.build items.now) store.old) }
{
    let mut made = Buffer::new(alloc);
    for item in items {
        made.push(build(alloc, item, store)?)?;
    }
    Ok(made)
}

#[cycle(build)]
#[tactic(auto, using(crate::proofs::Parts::built_entry))]
fn build_entry(alloc: Global, entry: &Entry, store: &mut Store) -> Result<Property, NoMemory>
    ensures { IfOk result (λ made. (made, store.new) ≡ parts.build_entry entry.now store.old) }
{
    let value = build(alloc, &entry.value, store)?;
    Ok(Property {
        name: entry.name.share()?,
        value,
    })
}

#[cycle(build)]
#[tactic(auto, using(crate::proofs::Building::built_next, crate::proofs::Building::built_last))]
fn build_entries(
    alloc: Global,
    entries: &[Entry],
    store: &mut Store,
) -> Result<Buffer<Property>, NoMemory>
    ensures { IfOk result (λ made. (made, store.new) ≡ built_all (map parts.build_entry entries.now) store.old) }
{
    let mut made = Buffer::new(alloc);
    for entry in entries {
        made.push(build_entry(alloc, entry, store)?)?;
    }
    Ok(made)
}

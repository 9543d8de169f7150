ghost use Rattle.std.specs.Prelude.{◌≡◌, ◌≢◌, map, All, IsTrue, true, IfOk, IfErr, OnOk, Ok, Err};
ghost use Rattle.std.specs.List.{list_all};
ghost use Rattle.std.specs.Str.{all_scalars};
ghost use Rattle.mt_marshal.specs.Characters.{entry_has_characters, has_characters};
ghost use Rattle.mt_marshal.specs.Snapshot as spec;
ghost use Rattle.mt_marshal.specs.Snapshot.{snap};
ghost use Rattle.mt_marshal.specs.Walks.{Does, all};
ghost use Rattle.mt_marshal.specs.declared.refusal.Refused.TheVariants as refused;
ghost use Rattle.mt_syntax.specs.DataLimits.{AreWithinLimits};
ghost use Rattle.mt_value.specs.Lawful.{Lawful, LawfulValue};
ghost use Rattle.mt_value.specs.Limits.{data_fits};

use crate::cells::{items_at, properties_at};
use crate::counts::Counts;
use crate::node::enter;
use crate::refusal::Refused;
use crate::rule::MarshalRule;
use mt_tree::{DATA_DEPTH_LIMIT, Data, Entry, NoMemory, Row, Text};
use mt_value::{Address, Property, Store, Value};
use std::alloc::Global;

/// How many arrays and objects may stand in one another.
pub(crate) const LEVELS: u32 = DATA_DEPTH_LIMIT;

/// A text that shares the contents, with the fact that it holds characters.
fn shared(text: &Text) -> Result<Text, NoMemory>
    ensures same { IfOk result (λ made. made ≡ text.now) }
    ensures characters { all_scalars text.now ≡ true }
{
    let _characters = text.as_str();
    text.share()
}

/// A value that has no parts; the rules refuse what isn't data.
#[tactic(auto, unfolding(crate::specs::Characters::has_characters))]
fn plain(value: &Value) -> Result<Data, NoMemory>
    ensures same { IfOk result (λ datum. datum ≡ spec.plain value.now) }
    ensures characters { IfOk result (λ datum. has_characters datum ≡ true) }
{
    match value {
        Value::Null => Ok(Data::Null),
        Value::Bool(b) => Ok(Data::Bool(*b)),
        Value::Num(n) => Ok(Data::Num(*n)),
        Value::Text(text) => Ok(Data::Text(shared(text)?)),
        Value::Svc(name) => Ok(Data::Svc(shared(name)?)),
        _ => Ok(Data::Undefined),
    }
}

#[cycle(walk)]
#[tactic(auto, using(crate::proofs::Levels::datum_is), unfolding(crate::specs::Snapshot::node))]
fn datum(
    alloc: Global,
    store: &Store,
    levels: u32,
    value: &Value,
    path: &mut Vec<Address>,
    counts: &mut Counts,
) -> Result<Data, Refused>
    ensures meant { Does (spec.datum store.now levels path.old.items value.now counts.old) result counts.new }
    ensures path { OnOk result (path.new.items ≡ path.old.items) }
    ensures characters { IfOk result (λ datum. has_characters datum ≡ true) }
{
    enter(store, levels, path.as_slice(), value, counts)?;
    match value {
        Value::Arr(at) => array(alloc, store, levels, *at, path, counts),
        Value::Obj(at) => object(alloc, store, levels, *at, path, counts),
        _ => Ok(plain(value)?),
    }
}

/// The data of the array at an address, which isn't one of the path.
#[cycle(walk)]
#[tactic(auto, using(crate::proofs::Levels::array_too_deep, crate::proofs::Levels::array_below, crate::proofs::Parts::characters_of_items), unfolding(crate::specs::Snapshot::array))]
fn array(
    alloc: Global,
    store: &Store,
    levels: u32,
    at: Address,
    path: &mut Vec<Address>,
    counts: &mut Counts,
) -> Result<Data, Refused>
    ensures meant { Does (spec.array_at store.now levels path.old.items at counts.old) result counts.new }
    ensures path { OnOk result (path.new.items ≡ path.old.items) }
    ensures characters { IfOk result (λ datum. has_characters datum ≡ true) }
{
    if levels == 0 {
        return Err(counts.refused(MarshalRule::M5));
    }
    let depth = path.len();
    path.push(at)?;
    let row = items(alloc, store, levels - 1, items_at(store, at), path, counts)?;
    path.truncate(depth);
    Ok(Data::Arr(row))
}

#[cycle(walk)]
#[tactic(auto, using(crate::proofs::Parts::all_and_one))]
pub(crate) fn items(
    alloc: Global,
    store: &Store,
    levels: u32,
    mut items: &[Value],
    path: &mut Vec<Address>,
    counts: &mut Counts,
) -> Result<Row<Data>, Refused>
    ensures meant { Does (all (map (spec.datum store.now levels path.old.items) items.entry.now) counts.old) result counts.new }
    ensures path { OnOk result (path.new.items ≡ path.old.items) }
    ensures characters { IfOk result (λ row. list_all has_characters row ≡ true) }
{
    let mut made = Vec::new(alloc);
    while let [item, rest @ ..] = items {
        made.push(datum(alloc, store, levels, item, path, counts)?)?;
        items = rest;
    }
    Ok(Row::from_vec(alloc, made)?)
}

/// The data of the object at an address, which isn't one of the path.
#[cycle(walk)]
#[tactic(auto, using(crate::proofs::Levels::object_too_deep, crate::proofs::Levels::object_below, crate::proofs::Parts::characters_of_entries), unfolding(crate::specs::Snapshot::object))]
fn object(
    alloc: Global,
    store: &Store,
    levels: u32,
    at: Address,
    path: &mut Vec<Address>,
    counts: &mut Counts,
) -> Result<Data, Refused>
    ensures meant { Does (spec.object_at store.now levels path.old.items at counts.old) result counts.new }
    ensures path { OnOk result (path.new.items ≡ path.old.items) }
    ensures characters { IfOk result (λ datum. has_characters datum ≡ true) }
{
    if levels == 0 {
        return Err(counts.refused(MarshalRule::M5));
    }
    let depth = path.len();
    path.push(at)?;
    let row = entries(
        alloc,
        store,
        levels - 1,
        properties_at(store, at),
        path,
        counts,
    )?;
    path.truncate(depth);
    Ok(Data::Obj(row))
}

#[cycle(walk)]
#[tactic(auto, using(crate::proofs::Parts::all_and_one))]
fn entries(
    alloc: Global,
    store: &Store,
    levels: u32,
    mut properties: &[Property],
    path: &mut Vec<Address>,
    counts: &mut Counts,
) -> Result<Row<Entry>, Refused>
    ensures meant { Does (all (map (spec.entry (spec.datum store.now levels path.old.items)) properties.entry.now) counts.old) result counts.new }
    ensures path { OnOk result (path.new.items ≡ path.old.items) }
    ensures characters { IfOk result (λ row. list_all entry_has_characters row ≡ true) }
{
    let mut made = Vec::new(alloc);
    while let [property, rest @ ..] = properties {
        made.push(entry(alloc, store, levels, property, path, counts)?)?;
        properties = rest;
    }
    Ok(Row::from_vec(alloc, made)?)
}

#[cycle(walk)]
#[tactic(auto, using(crate::proofs::Parts::characters_of_entry), unfolding(crate::specs::Snapshot::entry))]
fn entry(
    alloc: Global,
    store: &Store,
    levels: u32,
    property: &Property,
    path: &mut Vec<Address>,
    counts: &mut Counts,
) -> Result<Entry, Refused>
    ensures meant { Does (spec.entry (spec.datum store.now levels path.old.items) property.now counts.old) result counts.new }
    ensures path { OnOk result (path.new.items ≡ path.old.items) }
    ensures characters { IfOk result (λ made. entry_has_characters made ≡ true) }
{
    let value = datum(alloc, store, levels, &property.value, path, counts)?;
    Ok(Entry {
        name: shared(&property.name)?,
        value,
    })
}

/// The data of the values, in order, with one count of nodes and bytes. An array or object that is met twice is copied twice. The
/// data hold no address. Takes at most 40 levels of recursion, whatever the values are.
///
/// # Errors
/// `Rule` exactly where a node breaks a rule: the first such node, the lowest rule that it breaks, and the nodes and bytes up to this
/// node and with it. `NoMemory`.
#[tactic(auto, unfolding(crate::specs::Snapshot::snap))]
pub fn snapshot(alloc: Global, store: &Store, values: &[Value]) -> Result<Row<Data>, Refused>
    ensures given { IfOk result (λ row. snap store.now values.now ≡ Ok row) }
    ensures limits { Lawful store.now → All (LawfulValue store.now) values.now → IfOk result (λ row. AreWithinLimits row) }
    ensures fits { Lawful store.now → All (LawfulValue store.now) values.now → IfOk result (λ row. All (λ d. IsTrue (data_fits d)) row) }
    ensures refused { IfErr result (λ refusal. refusal ≢ refused.NoMemory → snap store.now values.now ≡ Err refusal) }
{
    let mut path = Vec::new(alloc);
    let mut counts = Counts { nodes: 0, bytes: 0 };
    items(alloc, store, LEVELS, values, &mut path, &mut counts)
}

ghost use Rattle.std.specs.Prelude.{◌≡◌, map, sum};
ghost use Rattle.mt_ops_methods.specs.Costs.{counted};
ghost use Rattle.mt_syntax.specs.DataLimits.{nodes_of_data, nodes_of_entry};

use mt_tree::{Data, Entry};

/// The number of nodes of a datum, a part that is met twice counted twice. It stays at the last value of its type. Takes no memory.
#[cycle(count)]
pub fn nodes(datum: &Data) -> u64
    ensures { result ≡ counted (nodes_of_data datum.now) }
{
    match datum {
        Data::Arr(items) => nodes_of_items(items.items()).saturating_add(1),
        Data::Obj(entries) => nodes_of_entries(entries.items()).saturating_add(1),
        _ => 1,
    }
}

#[cycle(count)]
fn nodes_of_items(items: &[Data]) -> u64
    ensures { result ≡ counted (sum (map nodes_of_data items.now)) }
{
    let mut count: u64 = 0;
    for item in items {
        count = count.saturating_add(nodes(item));
    }
    count
}

#[cycle(count)]
#[tactic(auto, using(crate::proofs::Parts::nodes_in_entry))]
fn nodes_of_entries(entries: &[Entry]) -> u64
    ensures { result ≡ counted (sum (map nodes_of_entry entries.now)) }
{
    let mut count: u64 = 0;
    for entry in entries {
        count = count.saturating_add(nodes(&entry.value));
    }
    count
}

ghost use Rattle.std.specs.Prelude.{◌≡◌, map, IfOk};
ghost use Rattle.std.specs.List.{list_all, list_any};
ghost use Rattle.mt_syntax.specs.Data.{are_distinct, are_property_names, is_digit as is_decimal, spells_whole_number as spells_number};
ghost use Rattle.mt_json.specs.Names.{name_of};

use crate::digit::is_digit;
use mt_tree::{Entry, NoMemory, Text};
use std::alloc::Global;
use std::collections::BTreeSet;

fn are_digits(bytes: &[u8]) -> bool
    ensures { result ≡ list_all is_decimal bytes.now }
{
    bytes.iter().all(|b| is_digit(*b))
}

fn spell_whole_number(bytes: &[u8]) -> bool
    ensures { result ≡ spells_number bytes.now }
{
    match bytes {
        [] => false,
        [b] => is_digit(*b),
        [first, rest @ ..] => is_digit(*first) && *first != b'0' && are_digits(rest),
    }
}

// A name spells a whole number where its bytes do, since digits are their own bytes.
#[tactic(auto, using(crate::proofs::Spelled::spells_by_bytes))]
fn spells_whole_number(name: &Text) -> bool
    ensures { result ≡ spells_number name.now }
{
    spell_whole_number(name.as_bytes())
}

// Takes time by the names and the logarithm of their number.
fn have_distinct_names(alloc: Global, entries: &[Entry]) -> Result<bool, NoMemory>
    ensures { IfOk result (λ distinct. distinct ≡ are_distinct (map name_of entries.now)) }
{
    let mut names = BTreeSet::new(alloc);
    let mut distinct = true;
    for entry in entries {
        match names.insert(entry.name.as_str()) {
            Ok(new) => distinct &= new,
            Err(_refused) => return Err(NoMemory),
        }
    }
    Ok(distinct)
}

fn has_whole_number(entries: &[Entry]) -> bool
    ensures { result ≡ list_any (λ e. spells_number e.name) entries.now }
{
    entries.iter().any(|entry| spells_whole_number(&entry.name))
}

/// Whether the names of the entries are distinct, and none spells a whole number.
///
/// # Errors
/// `NoMemory`. The memory taken is for a set of the names.
#[tactic(auto, using(crate::proofs::Testing::any_by_map))]
pub(crate) fn have_property_names(alloc: Global, entries: &[Entry]) -> Result<bool, NoMemory>
    ensures { IfOk result (λ fit. fit ≡ are_property_names (map name_of entries.now)) }
{
    let distinct = have_distinct_names(alloc, entries)?;
    Ok(distinct && !has_whole_number(entries))
}

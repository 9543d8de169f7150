ghost use Rattle.std.specs.Prelude.{◌≡◌, IfOk, option_copied, take};
ghost use Rattle.mt_outside.specs.Message.{is_slot};
ghost use Rattle.mt_outside.specs.Arriving.{altered, replacement_of, cut_of, replaced, shortened};

use crate::alteration::{Alteration, Cut, Replacement};
use crate::wire::Slot;
use mt_tree::NoMemory;
use std::alloc::Global;

fn same_slot(a: Slot, b: Slot) -> bool
    ensures { result ≡ is_slot a b }
{
    a.client == b.client && a.message == b.message && a.reply == b.reply
}

// The slot's last replacement.
fn replacement_of(replacements: &[Replacement], slot: Slot) -> Option<&Replacement>
    ensures { option_copied result ≡ replacement_of replacements.now slot }
{
    replacements
        .iter()
        .rev()
        .find(|replacement| same_slot(replacement.slot, slot))
}

/// The bytes of the slot's last replacement, or else these.
pub fn replaced<'a>(replacements: &'a [Replacement], slot: Slot, bytes: &'a [u8]) -> &'a [u8]
    ensures { result.now ≡ replaced (replacement_of replacements.now slot) bytes.now }
{
    match replacement_of(replacements, slot) {
        Some(replacement) => replacement.bytes.items(),
        None => bytes,
    }
}

/// The slot's last cut.
pub fn cut_of(cuts: &[Cut], slot: Slot) -> Option<Cut>
    ensures { result ≡ cut_of cuts.now slot }
{
    cuts.iter()
        .rev()
        .copied()
        .find(|cut| same_slot(cut.slot, slot))
}

// The bytes as they are altered.
fn alter(
    alloc: Global,
    alterations: &[Alteration],
    slot: Slot,
    bytes: &[u8],
) -> Result<Vec<u8>, NoMemory>
    ensures { IfOk result (λ made. made.items ≡ altered alterations.now slot bytes.now) }
{
    let mut made = match Vec::from_slice(alloc, bytes) {
        Ok(made) => made,
        Err(_refused) => return Err(NoMemory),
    };
    for alteration in alterations {
        if same_slot(alteration.slot, slot) && alteration.offset < made.len() as u64 {
            made[alteration.offset as usize] = alteration.byte;
        }
    }
    Ok(made)
}

/// What arrives of these bytes: they are altered, and then cut.
pub fn arrive(
    alloc: Global,
    alterations: &[Alteration],
    cut: Option<Cut>,
    slot: Slot,
    bytes: &[u8],
) -> Result<Vec<u8>, NoMemory>
    ensures { IfOk result (λ made. made.items ≡ shortened cut (altered alterations.now slot bytes.now)) }
{
    let mut made = alter(alloc, alterations, slot, bytes)?;
    if let Some(cut) = cut {
        shorten(&mut made, cut.length);
    }
    Ok(made)
}

// Keeps the first bytes, as many as `length` where there are more.
fn shorten(bytes: &mut Vec<u8>, length: u64)
    ensures { bytes.new.items ≡ take length bytes.old.items }
{
    if length < bytes.len() as u64 {
        bytes.truncate(length as usize);
    }
}

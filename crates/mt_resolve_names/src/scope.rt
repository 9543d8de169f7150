//! Scopes: the slots of the names around a place, the newest first.

ghost use Rattle.std.specs.Prelude.{◌≡◌, ◌++◌, ◌∷◌, [], ◌+◌, length, map, IfOk, OnOk};
ghost use Rattle.std.specs.Option.{option_copied};
ghost use Rattle.mt_eval_meaning.specs.Code.{captured_scope, lexical_of};
ghost use Rattle.mt_eval_meaning.specs.Free.{cut, without};
ghost use Rattle.mt_eval_meaning.specs.Scopes as spec;

use crate::slot::Slot;
use mt_resolve_free::{has, push_name, without};
use mt_tree::{NoMemory, Row, Text, push};
use std::alloc::Global;

/// The slot of the name in a scope: the newest of that name. Takes no memory.
pub fn find<'a>(scope: &'a [Slot], name: &Text) -> Option<&'a Slot>
    ensures { option_copied result ≡ spec.find_slot name.now scope.now }
{
    let mut left = scope;
    while let [slot, rest @ ..] = left {
        if *name == slot.name {
            return Some(slot);
        }
        left = rest;
    }
    None
}

// Puts equal slots behind the others.
pub(crate) fn push_all(into: &mut Vec<Slot>, slots: &[Slot]) -> Result<(), NoMemory>
    ensures { OnOk result (into.new.items ≡ into.old.items ++ slots.now) }
{
    for slot in slots {
        push(into, slot.share()?)?;
    }
    Ok(())
}

/// The part of a scope that has these names alone: the newest slot of each, in order.
///
/// # Errors
/// `NoMemory`.
#[tactic(auto, using(crate::proofs::Rows::cut_skip, crate::proofs::Rows::cut_take, crate::proofs::Rows::nothing_more))]
pub fn cut(alloc: Global, free: Vec<Text>, scope: &[Slot]) -> Result<Vec<Slot>, NoMemory>
    ensures { IfOk result (λ kept. kept.items ≡ cut (λ s. s.name) free.items scope.entry.now) }
{
    let mut left = scope;
    let mut wanted = free;
    let mut kept = Vec::new(alloc);
    while let [slot, rest @ ..] = left {
        left = rest;
        if !has(wanted.as_slice(), &slot.name) {
            continue;
        }
        push(&mut kept, slot.share()?)?;
        wanted = without_one(alloc, &slot.name, wanted.as_slice())?;
    }
    Ok(kept)
}

// Those of the names that differ from that one.
fn without_one(alloc: Global, name: &Text, names: &[Text]) -> Result<Vec<Text>, NoMemory>
    ensures { IfOk result (λ left. left.items ≡ without (name.now ∷ []) names.now) }
{
    let mut one = Vec::new(alloc);
    push_name(&mut one, name)?;
    without(alloc, one.as_slice(), names)
}

/// The scope of what a function captures: its activation begins with the captured addresses.
///
/// # Errors
/// `NoMemory`.
#[tactic(auto, using(crate::proofs::Rows::captured_take, crate::proofs::Rows::nothing_more))]
pub fn captured_scope(alloc: Global, kept: &[Slot]) -> Result<Vec<Slot>, NoMemory>
    ensures { IfOk result (λ scope. scope.items ≡ captured_scope 0 (map lexical_of kept.entry.now)) }
{
    let mut left = kept;
    let mut place = 0;
    let mut scope = Vec::new(alloc);
    while let [slot, rest @ ..] = left {
        left = rest;
        let captured = Slot {
            name: slot.name.share()?,
            slot: place,
            constant: slot.constant,
        };
        push(&mut scope, captured)?;
        place = sum(place, 1)?;
    }
    Ok(scope)
}

/// The places in the activation of the slots of a scope, in order.
///
/// # Errors
/// `NoMemory`.
pub fn slots(alloc: Global, scope: &[Slot]) -> Result<Row<usize>, NoMemory>
    ensures { IfOk result (λ slots. slots ≡ map (λ s. s.slot) scope.now) }
{
    let mut slots = Vec::new(alloc);
    for slot in scope {
        push(&mut slots, slot.slot)?;
    }
    Row::from_vec(alloc, slots)
}

/// The sum of two counts of slots.
///
/// # Errors
/// `NoMemory` where the sum doesn't fit: memory ends before there are that many slots.
pub fn sum(a: usize, b: usize) -> Result<usize, NoMemory>
    ensures { IfOk result (λ n. n ≡ a + b) }
{
    match a.checked_add(b) {
        Some(n) => Ok(n),
        None => Err(NoMemory),
    }
}

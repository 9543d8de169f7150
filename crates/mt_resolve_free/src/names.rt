ghost use Rattle.std.specs.Prelude.{◌≡◌, ◌++◌, ◌∷◌, [], IfOk, OnOk};
ghost use Rattle.mt_eval_meaning.specs.Free as spec;
ghost use Rattle.mt_eval_meaning.specs.Hoisting.{names_of};

use mt_syntax::Mark;
use mt_tree::{NoMemory, Text, push};
use std::alloc::Global;

/// Whether the name is one of the names. Takes no memory.
pub fn has(names: &[Text], name: &Text) -> bool
    ensures { result ≡ spec.has names.now name.now }
{
    names.iter().any(|other| *name == *other)
}

/// Puts an equal name behind the names.
///
/// # Errors
/// `NoMemory`.
pub fn push_name(names: &mut Vec<Text>, name: &Text) -> Result<(), NoMemory>
    ensures { OnOk result (names.new.items ≡ names.old.items ++ name.now ∷ []) }
{
    push(names, name.share()?)
}

/// Those of the names, in order, that aren't among some.
///
/// # Errors
/// `NoMemory`.
#[tactic(auto, using(crate::proofs::Rows::without_skip, crate::proofs::Rows::without_take, crate::proofs::Rows::nothing_more))]
pub fn without(alloc: Global, some: &[Text], names: &[Text]) -> Result<Vec<Text>, NoMemory>
    ensures { IfOk result (λ kept. kept.items ≡ spec.without some.now names.entry.now) }
{
    let mut left = names;
    let mut kept = Vec::new(alloc);
    while let [name, rest @ ..] = left {
        left = rest;
        if has(some, name) {
            continue;
        }
        push_name(&mut kept, name)?;
    }
    Ok(kept)
}

/// The names of the marks, in order.
///
/// # Errors
/// `NoMemory`.
pub fn names_of(alloc: Global, marks: &[Mark]) -> Result<Vec<Text>, NoMemory>
    ensures { IfOk result (λ names. names.items ≡ names_of marks.now) }
{
    let mut names = Vec::new(alloc);
    for mark in marks {
        push_name(&mut names, &mark.name)?;
    }
    Ok(names)
}

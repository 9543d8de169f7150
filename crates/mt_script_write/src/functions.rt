ghost use Rattle.std.specs.Prelude.{◌≡◌, ◌++◌, codes, flat_map, map, OnOk, OnErr};
ghost use Rattle.std.specs.Io.{StartsWith};
ghost use Rattle.mt_syntax.specs.CodeText.{named, name_text};
ghost use Rattle.mt_syntax.specs.DataText.{separated};
ghost use Rattle.mt_script_write.specs.Written.{function_written, stmt_written};

use crate::statements::append_stmt;
use mt_json::append_separator;
use mt_syntax::{Function, Mark, Stmt};
use mt_tree::{Data, NoMemory, append};
use std::alloc::Global;

/// Appends a name.
///
/// # Errors
/// `NoMemory`; the list is then as before.
pub(crate) fn append_name(name: &Mark, into: &mut Vec<u8>) -> Result<(), NoMemory>
    ensures text { OnOk result (into.new.items ≡ into.old.items ++ name_text name.now) }
    ensures kept { OnErr result (into.new.items ≡ into.old.items) }
{
    append(name.name.as_bytes(), into)
}

#[tactic(auto, using(mt_tree::proofs::Fronts::front_of_front, mt_tree::proofs::Fronts::front_of_more))]
fn append_names(names: &[Mark], into: &mut Vec<u8>) -> Result<(), NoMemory>
    ensures text { OnOk result (into.new.items ≡ into.old.items ++ separated (map name_text names.now)) }
    ensures kept { OnErr result (StartsWith into.new.items into.old.items) }
{
    let mut later = false;
    for name in names {
        append_separator(later, into)?;
        later = true;
        append_name(name, into)?;
    }
    Ok(())
}

#[tactic(auto, using(mt_tree::proofs::Fronts::front_of_front, mt_tree::proofs::Fronts::front_of_more))]
fn append_own_name(name: &Option<Mark>, into: &mut Vec<u8>) -> Result<(), NoMemory>
    ensures text { OnOk result (into.new.items ≡ into.old.items ++ named name.now) }
    ensures kept { OnErr result (StartsWith into.new.items into.old.items) }
{
    match name {
        None => Ok(()),
        Some(name) => {
            append(b" ", into)?;
            append_name(name, into)
        }
    }
}

#[tactic(auto, using(mt_tree::proofs::Fronts::front_of_front, mt_tree::proofs::Fronts::front_of_more))]
fn append_parameters(names: &[Mark], into: &mut Vec<u8>) -> Result<(), NoMemory>
    ensures text { OnOk result (into.new.items ≡ into.old.items ++ (codes "(" ++ (separated (map name_text names.now) ++ codes ")"))) }
    ensures kept { OnErr result (StartsWith into.new.items into.old.items) }
{
    append(b"(", into)?;
    append_names(names, into)?;
    append(b")", into)
}

/// Appends what stands behind the word `function`.
#[cycle(code)]
#[tactic(auto, using(mt_tree::proofs::Fronts::front_of_front, mt_tree::proofs::Fronts::front_of_more))]
pub(crate) fn append_function(
    alloc: Global,
    from: &Function,
    values: &[Data],
    into: &mut Vec<u8>,
) -> Result<(), NoMemory>
    ensures text { OnOk result (into.new.items ≡ into.old.items ++ function_written values.now from.now) }
    ensures kept { OnErr result (StartsWith into.new.items into.old.items) }
{
    append_own_name(&from.name, into)?;
    append_parameters(from.parameters.items(), into)?;
    append_block(alloc, from.body.items(), values, into)
}

/// Appends statements between braces.
#[cycle(code)]
#[tactic(auto, using(mt_tree::proofs::Fronts::front_of_front, mt_tree::proofs::Fronts::front_of_more))]
pub(crate) fn append_block(
    alloc: Global,
    items: &[Stmt],
    values: &[Data],
    into: &mut Vec<u8>,
) -> Result<(), NoMemory>
    ensures text { OnOk result (into.new.items ≡ into.old.items ++ (codes "{" ++ (flat_map (stmt_written values.now) items.now ++ codes "}"))) }
    ensures kept { OnErr result (StartsWith into.new.items into.old.items) }
{
    append(b"{", into)?;
    append_stmts(alloc, items, values, into)?;
    append(b"}", into)
}

/// Appends statements, one behind the other.
#[cycle(code)]
#[tactic(auto, using(mt_tree::proofs::Fronts::front_of_front, mt_tree::proofs::Fronts::front_of_more))]
pub(crate) fn append_stmts(
    alloc: Global,
    items: &[Stmt],
    values: &[Data],
    into: &mut Vec<u8>,
) -> Result<(), NoMemory>
    ensures text { OnOk result (into.new.items ≡ into.old.items ++ flat_map (stmt_written values.now) items.now) }
    ensures kept { OnErr result (StartsWith into.new.items into.old.items) }
{
    for item in items {
        append_stmt(alloc, item, values, into)?;
    }
    Ok(())
}

ghost use Rattle.std.specs.Prelude.{◌≡◌, ◌++◌, codes, map, option_map, OnOk, OnErr};
ghost use Rattle.std.specs.Io.{StartsWith};
ghost use Rattle.mt_syntax.specs.CodeText.{name_text, or_nothing, with_else};
ghost use Rattle.mt_syntax.specs.DataText.{separated};
ghost use Rattle.mt_script_write.specs.Written.{decl_written, expr_written, for_start_written, stmt_kind_written, stmt_written};

use crate::expressions::{append_enclosed, append_expr};
use crate::functions::{append_block, append_function, append_name};
use crate::signs::declaration_word;
use mt_json::append_separator;
use mt_syntax::{Decl, Expr, ForStart, Mark, Stmt, StmtKind};
use mt_tree::{Boxed, Data, NoMemory, append};
use std::alloc::Global;

#[cycle(code)]
#[tactic(auto, using(mt_tree::proofs::Fronts::front_of_front, mt_tree::proofs::Fronts::front_of_more))]
pub(crate) fn append_stmt(
    alloc: Global,
    from: &Stmt,
    values: &[Data],
    into: &mut Vec<u8>,
) -> Result<(), NoMemory>
    ensures text { OnOk result (into.new.items ≡ into.old.items ++ stmt_written values.now from.now) }
    ensures kept { OnErr result (StartsWith into.new.items into.old.items) }
{
    append_stmt_kind(alloc, &from.kind, values, into)
}

// A service writes nothing: no code has one.
#[cycle(code)]
#[tactic(auto, using(mt_tree::proofs::Fronts::front_of_front, mt_tree::proofs::Fronts::front_of_more))]
fn append_stmt_kind(
    alloc: Global,
    from: &StmtKind,
    values: &[Data],
    into: &mut Vec<u8>,
) -> Result<(), NoMemory>
    ensures text { OnOk result (into.new.items ≡ into.old.items ++ stmt_kind_written values.now from.now) }
    ensures kept { OnErr result (StartsWith into.new.items into.old.items) }
{
    match from {
        StmtKind::Expr(a) => append_enclosed(alloc, a, b"", b";", values, into),
        StmtKind::Var(kind, decls) => {
            append_decls(alloc, decls.items(), declaration_word(*kind), values, into)?;
            append(b";", into)
        }
        StmtKind::Function(function) => {
            append(b"function", into)?;
            append_function(alloc, function, values, into)
        }
        StmtKind::If(test, body, other) => {
            append_enclosed(alloc, test, b"if(", b")", values, into)?;
            append_stmt(alloc, body.get(), values, into)?;
            append_else(alloc, other, values, into)
        }
        StmtKind::While(test, body) => {
            append_enclosed(alloc, test, b"while(", b")", values, into)?;
            append_stmt(alloc, body.get(), values, into)
        }
        StmtKind::For(start, test, step, body) => {
            append_start(alloc, start, values, into)?;
            append_part(alloc, test, b";", values, into)?;
            append_part(alloc, step, b")", values, into)?;
            append_stmt(alloc, body.get(), values, into)
        }
        StmtKind::Return(None) => append(b"return;", into),
        StmtKind::Return(Some(a)) => append_enclosed(alloc, a, b"return ", b";", values, into),
        StmtKind::Break => append(b"break;", into),
        StmtKind::Continue => append(b"continue;", into),
        StmtKind::Throw(a) => append_enclosed(alloc, a, b"throw ", b";", values, into),
        StmtKind::Try(body, name, handler) => {
            append(b"try", into)?;
            append_stmt(alloc, body.get(), values, into)?;
            append_catch(name, into)?;
            append_stmt(alloc, handler.get(), values, into)
        }
        StmtKind::Block(items) => append_block(alloc, items.items(), values, into),
        StmtKind::Empty => append(b";", into),
        StmtKind::Service(_) => Ok(()),
    }
}

#[tactic(auto, using(mt_tree::proofs::Fronts::front_of_front, mt_tree::proofs::Fronts::front_of_more))]
fn append_catch(name: &Mark, into: &mut Vec<u8>) -> Result<(), NoMemory>
    ensures text { OnOk result (into.new.items ≡ into.old.items ++ (codes "catch(" ++ (name_text name.now ++ codes ")"))) }
    ensures kept { OnErr result (StartsWith into.new.items into.old.items) }
{
    append(b"catch(", into)?;
    append_name(name, into)?;
    append(b")", into)
}

#[cycle(code)]
#[tactic(auto, using(mt_tree::proofs::Fronts::front_of_front, mt_tree::proofs::Fronts::front_of_more))]
fn append_else(
    alloc: Global,
    from: &Option<Boxed<Stmt>>,
    values: &[Data],
    into: &mut Vec<u8>,
) -> Result<(), NoMemory>
    ensures text { OnOk result (into.new.items ≡ into.old.items ++ with_else (option_map (stmt_written values.now) from.now)) }
    ensures kept { OnErr result (StartsWith into.new.items into.old.items) }
{
    match from {
        None => Ok(()),
        Some(other) => {
            append(b"else", into)?;
            append_stmt(alloc, other.get(), values, into)
        }
    }
}

// The head of a `for` up to the first `;`.
#[cycle(code)]
#[tactic(auto, using(mt_tree::proofs::Fronts::front_of_front, mt_tree::proofs::Fronts::front_of_more))]
fn append_start(
    alloc: Global,
    from: &ForStart,
    values: &[Data],
    into: &mut Vec<u8>,
) -> Result<(), NoMemory>
    ensures text { OnOk result (into.new.items ≡ into.old.items ++ (codes "for(" ++ (for_start_written values.now from.now ++ codes ";"))) }
    ensures kept { OnErr result (StartsWith into.new.items into.old.items) }
{
    match from {
        ForStart::Absent => append(b"for(;", into),
        ForStart::Var(decls) => {
            append_decls(alloc, decls.items(), b"for(var ", values, into)?;
            append(b";", into)
        }
        ForStart::Expr(a) => append_enclosed(alloc, a, b"for(", b";", values, into),
    }
}

// An expression that may be absent, and what stands behind it.
#[cycle(code)]
#[tactic(auto, using(mt_tree::proofs::Fronts::front_of_front, mt_tree::proofs::Fronts::front_of_more))]
fn append_part(
    alloc: Global,
    from: &Option<Expr>,
    after: &[u8],
    values: &[Data],
    into: &mut Vec<u8>,
) -> Result<(), NoMemory>
    ensures text { OnOk result (into.new.items ≡ into.old.items ++ (or_nothing (option_map (expr_written values.now) from.now) ++ after.now)) }
    ensures kept { OnErr result (StartsWith into.new.items into.old.items) }
{
    match from {
        None => append(after, into),
        Some(a) => append_enclosed(alloc, a, b"", after, values, into),
    }
}

#[cycle(code)]
#[tactic(auto, using(mt_tree::proofs::Fronts::front_of_front, mt_tree::proofs::Fronts::front_of_more))]
fn append_decl(
    alloc: Global,
    from: &Decl,
    values: &[Data],
    into: &mut Vec<u8>,
) -> Result<(), NoMemory>
    ensures text { OnOk result (into.new.items ≡ into.old.items ++ decl_written values.now from.now) }
    ensures kept { OnErr result (StartsWith into.new.items into.old.items) }
{
    append_name(&from.name, into)?;
    match &from.value {
        None => Ok(()),
        Some(a) => append_enclosed(alloc, a, b"=", b"", values, into),
    }
}

// The declarations with commas, behind their word.
#[cycle(code)]
#[tactic(auto, using(mt_tree::proofs::Fronts::front_of_front, mt_tree::proofs::Fronts::front_of_more))]
fn append_decls(
    alloc: Global,
    items: &[Decl],
    word: &[u8],
    values: &[Data],
    into: &mut Vec<u8>,
) -> Result<(), NoMemory>
    ensures text { OnOk result (into.new.items ≡ into.old.items ++ (word.now ++ separated (map (decl_written values.now) items.now))) }
    ensures kept { OnErr result (StartsWith into.new.items into.old.items) }
{
    append(word, into)?;
    let mut later = false;
    for item in items {
        append_separator(later, into)?;
        later = true;
        append_decl(alloc, item, values, into)?;
    }
    Ok(())
}

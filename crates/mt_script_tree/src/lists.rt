ghost use Rattle.mt_script_words.specs.Outcome.{Gives};
ghost use Rattle.mt_script_tree.specs.Expressions.{prop_at};
ghost use Rattle.mt_script_tree.specs.Lists.{item_step, list_by};
ghost use Rattle.mt_script_tree.specs.Reading.{expr_at, stmt_at};
ghost use Rattle.mt_script_tree.specs.Statements.{decl_at};

use crate::expressions::{expr, prop};
use crate::statements::{decl, stmt};
use mt_json::past_comma;
use mt_script_words::{CodeRefusal, first};
use mt_syntax::{Decl, Expr, Prop, Stmt};
use mt_tree::Row;
use std::alloc::Global;

#[cycle(read)]
fn expr_or_end(
    alloc: Global,
    depth: u32,
    close: u8,
    bytes: &[u8],
) -> Result<(Option<Expr>, &[u8]), CodeRefusal>
    ensures { Gives (λ x. (x.0, x.1.now)) result (item_step close (expr_at depth) bytes.now) }
{
    let (b, rest) = first(bytes)?;
    if b == close {
        return Ok((None, rest));
    }
    let (found, rest) = expr(alloc, depth, past_comma(bytes))?;
    Ok((Some(found), rest))
}

/// The items of an array or the arguments of a call, up to the byte that closes them.
#[cycle(read)]
pub(crate) fn exprs(
    alloc: Global,
    depth: u32,
    close: u8,
    bytes: &[u8],
) -> Result<(Row<Expr>, &[u8]), CodeRefusal>
    ensures { Gives (λ x. (x.0, x.1.now)) result (list_by close (expr_at depth) bytes.now) }
{
    let mut found = Vec::new(alloc);
    let mut rest = bytes;
    for _ in 0..bytes.len() {
        let (next, after) = expr_or_end(alloc, depth, close, rest)?;
        rest = after;
        match next {
            None => return Ok((Row::from_vec(alloc, found)?, rest)),
            Some(item) => found.push(item)?,
        }
    }
    Err(CodeRefusal::NotCode)
}

#[cycle(read)]
fn prop_or_end(
    alloc: Global,
    depth: u32,
    bytes: &[u8],
) -> Result<(Option<Prop>, &[u8]), CodeRefusal>
    ensures { Gives (λ x. (x.0, x.1.now)) result (item_step 125 (prop_at (expr_at depth)) bytes.now) }
{
    let (b, rest) = first(bytes)?;
    if b == b'}' {
        return Ok((None, rest));
    }
    let (found, rest) = prop(alloc, depth, past_comma(bytes))?;
    Ok((Some(found), rest))
}

/// The properties of an object, up to the brace that closes them.
#[cycle(read)]
pub(crate) fn props(
    alloc: Global,
    depth: u32,
    bytes: &[u8],
) -> Result<(Row<Prop>, &[u8]), CodeRefusal>
    ensures { Gives (λ x. (x.0, x.1.now)) result (list_by 125 (prop_at (expr_at depth)) bytes.now) }
{
    let mut found = Vec::new(alloc);
    let mut rest = bytes;
    for _ in 0..bytes.len() {
        let (next, after) = prop_or_end(alloc, depth, rest)?;
        rest = after;
        match next {
            None => return Ok((Row::from_vec(alloc, found)?, rest)),
            Some(item) => found.push(item)?,
        }
    }
    Err(CodeRefusal::NotCode)
}

#[cycle(read)]
fn decl_or_end(
    alloc: Global,
    depth: u32,
    bytes: &[u8],
) -> Result<(Option<Decl>, &[u8]), CodeRefusal>
    ensures { Gives (λ x. (x.0, x.1.now)) result (item_step 59 (decl_at (expr_at depth)) bytes.now) }
{
    let (b, rest) = first(bytes)?;
    if b == b';' {
        return Ok((None, rest));
    }
    let (found, rest) = decl(alloc, depth, past_comma(bytes))?;
    Ok((Some(found), rest))
}

/// The names of a declaration, up to its `;`.
#[cycle(read)]
pub(crate) fn decls(
    alloc: Global,
    depth: u32,
    bytes: &[u8],
) -> Result<(Row<Decl>, &[u8]), CodeRefusal>
    ensures { Gives (λ x. (x.0, x.1.now)) result (list_by 59 (decl_at (expr_at depth)) bytes.now) }
{
    let mut found = Vec::new(alloc);
    let mut rest = bytes;
    for _ in 0..bytes.len() {
        let (next, after) = decl_or_end(alloc, depth, rest)?;
        rest = after;
        match next {
            None => return Ok((Row::from_vec(alloc, found)?, rest)),
            Some(item) => found.push(item)?,
        }
    }
    Err(CodeRefusal::NotCode)
}

#[cycle(read)]
fn stmt_or_end(
    alloc: Global,
    depth: u32,
    bytes: &[u8],
) -> Result<(Option<Stmt>, &[u8]), CodeRefusal>
    ensures { Gives (λ x. (x.0, x.1.now)) result (item_step 125 (stmt_at depth) bytes.now) }
{
    let (b, rest) = first(bytes)?;
    if b == b'}' {
        return Ok((None, rest));
    }
    let (found, rest) = stmt(alloc, depth, past_comma(bytes))?;
    Ok((Some(found), rest))
}

/// The statements of a block or a body, up to the brace that closes it.
#[cycle(read)]
pub(crate) fn stmts(
    alloc: Global,
    depth: u32,
    bytes: &[u8],
) -> Result<(Row<Stmt>, &[u8]), CodeRefusal>
    ensures { Gives (λ x. (x.0, x.1.now)) result (list_by 125 (stmt_at depth) bytes.now) }
{
    let mut found = Vec::new(alloc);
    let mut rest = bytes;
    for _ in 0..bytes.len() {
        let (next, after) = stmt_or_end(alloc, depth, rest)?;
        rest = after;
        match next {
            None => return Ok((Row::from_vec(alloc, found)?, rest)),
            Some(item) => found.push(item)?,
        }
    }
    Err(CodeRefusal::NotCode)
}

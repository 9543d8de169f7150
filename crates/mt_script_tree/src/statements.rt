ghost use Rattle.std.specs.Prelude.{◌≡◌, ◌∷◌, ◌-◌, zero};
ghost use Rattle.std.specs.List.{list_all};
ghost use Rattle.mt_script_words.specs.Outcome.{Gives};
ghost use Rattle.mt_script_tree.specs.Reading.{block_at, expr_at, stmt_at};
ghost use Rattle.mt_script_tree.specs.Statements.{are_declared as are_all_declared, decl_at, declare_at, declared_function_at, decls_at, else_at, expression_at, for_at, has_value as is_valued, if_at, is_plain_statement as is_no_declaration, items_at, kind_at, kind_from, led_at, named_function, part_at, part_from, return_at, return_from, start_at, start_from, throw_at, try_at, value_at, value_from, while_at};

use crate::expressions::expr;
use crate::functions::function;
use crate::lists::{decls, stmts};
use crate::made::{block_of, stmt_of};
use mt_json::skip;
use mt_script_words::{CodeRefusal, Keyword, after_word, find_keyword, first, is_word, mark, word};
use mt_syntax::{Decl, Expr, ForStart, Function, Stmt, StmtKind};
use mt_tree::{Boxed, Row, VarKind};
use std::alloc::Global;

// ---- declarations

#[cycle(read)]
fn value(alloc: Global, depth: u32, bytes: &[u8]) -> Result<(Option<Expr>, &[u8]), CodeRefusal>
    ensures { Gives (λ x. (x.0, x.1.now)) result (value_at (expr_at depth) bytes.now) }
{
    let (b, rest) = first(bytes)?;
    if b == b'=' {
        let (value, rest) = expr(alloc, depth, rest)?;
        Ok((Some(value), rest))
    } else {
        Ok((None, bytes))
    }
}

/// A name, and the value behind it where there is one.
#[cycle(read)]
pub(crate) fn decl(alloc: Global, depth: u32, bytes: &[u8]) -> Result<(Decl, &[u8]), CodeRefusal>
    ensures { Gives (λ x. (x.0, x.1.now)) result (decl_at (expr_at depth) bytes.now) }
{
    let (name, rest) = mark(alloc, bytes)?;
    let (value, rest) = value(alloc, depth, rest)?;
    Ok((Decl { name, value }, rest))
}

fn has_value(decl: &Decl) -> bool
    ensures { result ≡ is_valued decl.now }
{
    match &decl.value {
        None => false,
        Some(_) => true,
    }
}

fn have_values(decls: &[Decl]) -> bool
    ensures { result ≡ list_all is_valued decls.now }
{
    decls.iter().all(|decl| has_value(decl))
}

fn are_declared(kind: VarKind, decls: &[Decl]) -> bool
    ensures { result ≡ are_all_declared kind decls.now }
{
    match kind {
        VarKind::Const => !decls.is_empty() && have_values(decls),
        VarKind::Var | VarKind::Let => !decls.is_empty(),
    }
}

#[cycle(read)]
fn declared(
    alloc: Global,
    depth: u32,
    kind: VarKind,
    bytes: &[u8],
) -> Result<(Row<Decl>, &[u8]), CodeRefusal>
    ensures { Gives (λ x. (x.0, x.1.now)) result (decls_at (expr_at depth) kind bytes.now) }
{
    let (found, rest) = decls(alloc, depth, bytes)?;
    if are_declared(kind, found.items()) {
        Ok((found, rest))
    } else {
        Err(CodeRefusal::NotCode)
    }
}

#[cycle(read)]
fn declare(
    alloc: Global,
    depth: u32,
    kind: VarKind,
    bytes: &[u8],
) -> Result<(StmtKind, &[u8]), CodeRefusal>
    ensures { Gives (λ x. (x.0, x.1.now)) result (declare_at (expr_at depth) kind bytes.now) }
{
    let (found, rest) = declared(alloc, depth, kind, skip(bytes, 1))?;
    Ok((StmtKind::Var(kind, found), rest))
}

fn named_function(function: Function, rest: &[u8]) -> Result<(StmtKind, &[u8]), CodeRefusal>
    ensures { Gives (λ x. (x.0, x.1.now)) result (named_function function rest.now) }
{
    match &function.name {
        None => Err(CodeRefusal::NotCode),
        Some(_) => Ok((StmtKind::Function(function), rest)),
    }
}

#[cycle(read)]
fn declared_function(
    alloc: Global,
    depth: u32,
    bytes: &[u8],
) -> Result<(StmtKind, &[u8]), CodeRefusal>
    ensures { Gives (λ x. (x.0, x.1.now)) result (declared_function_at (stmt_at depth) bytes.now) }
{
    let (found, rest) = function(alloc, depth, bytes)?;
    named_function(found, rest)
}

// ---- choices and loops

#[cycle(read)]
fn other(
    alloc: Global,
    depth: u32,
    bytes: &[u8],
) -> Result<(Option<Boxed<Stmt>>, &[u8]), CodeRefusal>
    ensures { Gives (λ x. (x.0, x.1.now)) result (else_at (block_at depth) bytes.now) }
{
    if is_word(b"else", word(bytes)) {
        let (body, rest) = block(alloc, depth, skip(bytes, 4))?;
        Ok((Some(Boxed::new(alloc, body)?), rest))
    } else {
        Ok((None, bytes))
    }
}

#[cycle(read)]
fn choice(alloc: Global, depth: u32, bytes: &[u8]) -> Result<(StmtKind, &[u8]), CodeRefusal>
    ensures { Gives (λ x. (x.0, x.1.now)) result (if_at (expr_at depth) (block_at depth) bytes.now) }
{
    let (test, rest) = expr(alloc, depth, skip(bytes, 1))?;
    let (body, rest) = block(alloc, depth, skip(rest, 1))?;
    let (other, rest) = other(alloc, depth, rest)?;
    Ok((StmtKind::If(test, Boxed::new(alloc, body)?, other), rest))
}

#[cycle(read)]
fn while_loop(alloc: Global, depth: u32, bytes: &[u8]) -> Result<(StmtKind, &[u8]), CodeRefusal>
    ensures { Gives (λ x. (x.0, x.1.now)) result (while_at (expr_at depth) (block_at depth) bytes.now) }
{
    let (test, rest) = expr(alloc, depth, skip(bytes, 1))?;
    let (body, rest) = block(alloc, depth, skip(rest, 1))?;
    Ok((StmtKind::While(test, Boxed::new(alloc, body)?), rest))
}

#[cycle(read)]
fn start_from<'a>(
    alloc: Global,
    depth: u32,
    b: u8,
    rest: &'a [u8],
    bytes: &'a [u8],
) -> Result<(ForStart, &'a [u8]), CodeRefusal>
    requires { bytes.now ≡ b ∷ rest.now }
    ensures { Gives (λ x. (x.0, x.1.now)) result (start_from (expr_at depth) b rest.now) }
{
    if b == b';' {
        Ok((ForStart::Absent, rest))
    } else if is_word(b"var", word(bytes)) {
        let (found, rest) = declared(alloc, depth, VarKind::Var, skip(bytes, 4))?;
        Ok((ForStart::Var(found), rest))
    } else {
        let (found, rest) = expr(alloc, depth, bytes)?;
        Ok((ForStart::Expr(found), skip(rest, 1)))
    }
}

#[cycle(read)]
fn start(alloc: Global, depth: u32, bytes: &[u8]) -> Result<(ForStart, &[u8]), CodeRefusal>
    ensures { Gives (λ x. (x.0, x.1.now)) result (start_at (expr_at depth) bytes.now) }
{
    let (b, rest) = first(bytes)?;
    start_from(alloc, depth, b, rest, bytes)
}

// An expression that may be absent, up to the byte that closes it.
#[cycle(read)]
fn part(
    alloc: Global,
    depth: u32,
    close: u8,
    bytes: &[u8],
) -> Result<(Option<Expr>, &[u8]), CodeRefusal>
    ensures { Gives (λ x. (x.0, x.1.now)) result (part_at (expr_at depth) close bytes.now) }
{
    let (b, rest) = first(bytes)?;
    if b == close {
        Ok((None, rest))
    } else {
        let (found, rest) = expr(alloc, depth, bytes)?;
        Ok((Some(found), skip(rest, 1)))
    }
}

#[cycle(read)]
fn for_loop(alloc: Global, depth: u32, bytes: &[u8]) -> Result<(StmtKind, &[u8]), CodeRefusal>
    ensures { Gives (λ x. (x.0, x.1.now)) result (for_at (expr_at depth) (block_at depth) bytes.now) }
{
    let (start, rest) = start(alloc, depth, skip(bytes, 1))?;
    let (test, rest) = part(alloc, depth, b';', rest)?;
    let (step, rest) = part(alloc, depth, b')', rest)?;
    let (body, rest) = block(alloc, depth, rest)?;
    Ok((
        StmtKind::For(start, test, step, Boxed::new(alloc, body)?),
        rest,
    ))
}

// ---- the other statements

#[cycle(read)]
fn give_back(alloc: Global, depth: u32, bytes: &[u8]) -> Result<(StmtKind, &[u8]), CodeRefusal>
    ensures { Gives (λ x. (x.0, x.1.now)) result (return_at (expr_at depth) bytes.now) }
{
    let (b, rest) = first(bytes)?;
    if b == b';' {
        Ok((StmtKind::Return(None), rest))
    } else {
        let (found, rest) = expr(alloc, depth, rest)?;
        Ok((StmtKind::Return(Some(found)), skip(rest, 1)))
    }
}

#[cycle(read)]
fn throw(alloc: Global, depth: u32, bytes: &[u8]) -> Result<(StmtKind, &[u8]), CodeRefusal>
    ensures { Gives (λ x. (x.0, x.1.now)) result (throw_at (expr_at depth) bytes.now) }
{
    let (found, rest) = expr(alloc, depth, skip(bytes, 1))?;
    Ok((StmtKind::Throw(found), skip(rest, 1)))
}

#[cycle(read)]
fn catching(alloc: Global, depth: u32, bytes: &[u8]) -> Result<(StmtKind, &[u8]), CodeRefusal>
    ensures { Gives (λ x. (x.0, x.1.now)) result (try_at (block_at depth) bytes.now) }
{
    let (body, rest) = block(alloc, depth, bytes)?;
    let (name, rest) = mark(alloc, skip(rest, 6))?;
    let (handler, rest) = block(alloc, depth, skip(rest, 1))?;
    let body = Boxed::new(alloc, body)?;
    Ok((StmtKind::Try(body, name, Boxed::new(alloc, handler)?), rest))
}

#[cycle(read)]
fn expression(alloc: Global, depth: u32, bytes: &[u8]) -> Result<(StmtKind, &[u8]), CodeRefusal>
    ensures { Gives (λ x. (x.0, x.1.now)) result (expression_at (expr_at depth) bytes.now) }
{
    let (found, rest) = expr(alloc, depth, bytes)?;
    Ok((StmtKind::Expr(found), skip(rest, 1)))
}

#[cycle(read)]
fn led<'a>(
    alloc: Global,
    depth: u32,
    keyword: Keyword,
    after: &'a [u8],
    bytes: &'a [u8],
) -> Result<(StmtKind, &'a [u8]), CodeRefusal>
    ensures { Gives (λ x. (x.0, x.1.now)) result (led_at (expr_at depth) (stmt_at depth) (block_at depth) keyword after.now bytes.now) }
{
    match keyword {
        Keyword::Declare(kind) => declare(alloc, depth, kind, after),
        Keyword::Function => declared_function(alloc, depth, after),
        Keyword::If => choice(alloc, depth, after),
        Keyword::While => while_loop(alloc, depth, after),
        Keyword::For => for_loop(alloc, depth, after),
        Keyword::Return => give_back(alloc, depth, after),
        Keyword::Throw => throw(alloc, depth, after),
        Keyword::Break => Ok((StmtKind::Break, skip(after, 1))),
        Keyword::Continue => Ok((StmtKind::Continue, skip(after, 1))),
        Keyword::Try => catching(alloc, depth, after),
        Keyword::Other => expression(alloc, depth, bytes),
    }
}

fn is_plain_statement(stmt: &Stmt) -> bool
    ensures { result ≡ is_no_declaration stmt.now }
{
    match &stmt.kind {
        StmtKind::Function(_) | StmtKind::Service(_) => false,
        StmtKind::Expr(_)
        | StmtKind::Var(_, _)
        | StmtKind::If(_, _, _)
        | StmtKind::While(_, _)
        | StmtKind::For(_, _, _, _)
        | StmtKind::Return(_)
        | StmtKind::Break
        | StmtKind::Continue
        | StmtKind::Throw(_)
        | StmtKind::Try(_, _, _)
        | StmtKind::Block(_)
        | StmtKind::Empty => true,
    }
}

fn are_statements(stmts: &[Stmt]) -> bool
    ensures { result ≡ list_all is_no_declaration stmts.now }
{
    stmts.iter().all(|stmt| is_plain_statement(stmt))
}

// The statements of a block, up to the brace that closes it.
#[cycle(read)]
fn items(alloc: Global, depth: u32, bytes: &[u8]) -> Result<(Row<Stmt>, &[u8]), CodeRefusal>
    ensures { Gives (λ x. (x.0, x.1.now)) result (items_at (stmt_at depth) bytes.now) }
{
    let (found, rest) = stmts(alloc, depth, bytes)?;
    if are_statements(found.items()) {
        Ok((found, rest))
    } else {
        Err(CodeRefusal::NotCode)
    }
}

#[cycle(read)]
fn kind_from<'a>(
    alloc: Global,
    depth: u32,
    b: u8,
    rest: &'a [u8],
    bytes: &'a [u8],
) -> Result<(StmtKind, &'a [u8]), CodeRefusal>
    requires { bytes.now ≡ b ∷ rest.now }
    ensures { Gives (λ x. (x.0, x.1.now)) result (kind_from (expr_at depth) (stmt_at depth) (block_at depth) b rest.now) }
{
    match b {
        b'{' => {
            let (found, rest) = items(alloc, depth, rest)?;
            Ok((StmtKind::Block(found), rest))
        }
        b';' => Ok((StmtKind::Empty, rest)),
        _ => led(
            alloc,
            depth,
            find_keyword(word(bytes)),
            after_word(bytes),
            bytes,
        ),
    }
}

#[cycle(read)]
fn kind(alloc: Global, depth: u32, bytes: &[u8]) -> Result<(StmtKind, &[u8]), CodeRefusal>
    ensures { Gives (λ x. (x.0, x.1.now)) result (kind_at (expr_at depth) (stmt_at depth) (block_at depth) bytes.now) }
{
    let (b, rest) = first(bytes)?;
    kind_from(alloc, depth, b, rest, bytes)
}

/// A statement.
#[cycle(read)]
#[tactic(auto, using(crate::proofs::Depths::no_stmt, crate::proofs::Depths::stmt_below))]
pub(crate) fn stmt(alloc: Global, depth: u32, bytes: &[u8]) -> Result<(Stmt, &[u8]), CodeRefusal>
    ensures { Gives (λ x. (x.0, x.1.now)) result (stmt_at depth bytes.now) }
{
    if depth == 0 {
        return Err(CodeRefusal::NotCode);
    }
    let (kind, rest) = kind(alloc, depth - 1, bytes)?;
    Ok((stmt_of(kind), rest))
}

// The block of another statement.
#[cycle(read)]
#[tactic(auto, using(crate::proofs::Depths::no_block, crate::proofs::Depths::block_below))]
fn block(alloc: Global, depth: u32, bytes: &[u8]) -> Result<(Stmt, &[u8]), CodeRefusal>
    ensures { Gives (λ x. (x.0, x.1.now)) result (block_at depth bytes.now) }
{
    if depth == 0 {
        return Err(CodeRefusal::NotCode);
    }
    let (found, rest) = items(alloc, depth - 1, skip(bytes, 1))?;
    Ok((block_of(found), rest))
}

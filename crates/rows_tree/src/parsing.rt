//! Trees: how deep they are, how their tildes and dollars are numbered, and what a tilde becomes by its values.

ghost use Rattle.std.specs.Prelude.{◌≤◌, length};

use anyhow::{Context, Result, bail, ensure};
use mt_parser::first_too_deep;
use mt_parser_machine::read;
use mt_parser_marks::tokens_of;
use mt_syntax::{Expr, ExprKind, Program, Stmt, StmtKind};
use mt_tree::{Data, Place, Row, SOURCE_LIMIT, TOKEN_LIMIT, Text, push};
use rows::{Line, add, made, quoted};
use serde_json::Value;
use std::alloc::Global;

/// The first statement or expression of a source that is deeper than a limit.
pub fn depth(alloc: Global, line: &Line) -> Result<String> {
    let source = line.bytes(alloc, 0)?;
    let limit = u16::try_from(line.number(1)?)?;
    ensure!(source.len() <= SOURCE_LIMIT, "too long");
    let found = too_deep(alloc, &source, limit)?;
    Ok(format!(in alloc; "{found:?}")?)
}

fn too_deep(alloc: Global, source: &[u8], limit: u16) -> Result<Option<Place>>
    requires { length source.now ≤ SOURCE_LIMIT }
{
    let Ok(tokens) = mt_lexer::lex(alloc, source) else {
        bail!("no tokens");
    };
    let list = tokens_of(alloc, &tokens)?;
    ensure!(list.len() <= TOKEN_LIMIT, "too many tokens");
    let nodes = made(read(alloc, &list))?;
    Ok(first_too_deep(alloc, &nodes, limit)?)
}

/// The statements of a source, and those of each of its tildes with its dollars: which of them are tildes, dollars of a tilde, and
/// dollars of none.
pub fn parse(alloc: Global, line: &Line) -> Result<String> {
    let source = line.bytes(alloc, 0)?;
    ensure!(source.len() <= SOURCE_LIMIT, "too long");
    let program = program_of(alloc, &source)?;
    let mut all = statements(alloc, &program.items)?;
    for tilde in program.tildes.items() {
        let id = tilde.id;
        let body = statements(alloc, &tilde.body)?;
        let mut dollars = String::new(alloc);
        for dollar in tilde.dollars.items() {
            add(&mut dollars, &described(alloc, dollar)?)?;
        }
        add(&mut all, &format!(in alloc; "| {id}: {body} ({dollars})")?)?;
    }
    Ok(all)
}

/// The statements of the first tilde of a source, with values in place of its dollars.
pub fn substitute(alloc: Global, line: &Line) -> Result<String> {
    let source = line.bytes(alloc, 0)?;
    ensure!(source.len() <= SOURCE_LIMIT, "too long");
    let program = program_of(alloc, &source)?;
    let tilde = program.tildes.items().first().context("no tilde")?;
    let mut values = Vec::new(alloc);
    for value in line.arguments().iter().skip(1) {
        made(push(&mut values, data_of(alloc, value)?))?;
    }
    let values = made(Row::from_vec(alloc, values))?;
    let code = made(mt_syntax::substitute(alloc, tilde, &values))?;
    statements(alloc, &code.body)
}

fn program_of(alloc: Global, source: &[u8]) -> Result<Program>
    requires { length source.now ≤ SOURCE_LIMIT }
{
    let Ok(tokens) = mt_lexer::lex(alloc, source) else {
        bail!("no tokens");
    };
    made(mt_parser::parse(alloc, &tokens))
}

fn statements(alloc: Global, statements: &Row<Stmt>) -> Result<String> {
    let mut all = String::new(alloc);
    for statement in statements.items() {
        match &statement.kind {
            StmtKind::Expr(expr) => add(&mut all, &described(alloc, expr)?)?,
            _ => add(&mut all, "statement")?,
        }
    }
    Ok(all)
}

// What an expression is, as far as the rows speak of it.
fn described(alloc: Global, expr: &Expr) -> Result<String> {
    let text = match expr.kind.get() {
        ExprKind::Tilde(number) => format!(in alloc; "tilde-{number}")?,
        ExprKind::Dollar(number) => format!(in alloc; "dollar-{number}")?,
        ExprKind::Stray(_) => String::from_str(alloc, "stray")?,
        ExprKind::Name(name) => String::from_str(alloc, name.as_str())?,
        ExprKind::Val(value) => valued(alloc, value)?,
        _ => String::from_str(alloc, "expression")?,
    };
    Ok(text)
}

fn valued(alloc: Global, value: &Data) -> Result<String> {
    let text = match value {
        Data::Null => String::from_str(alloc, "null")?,
        Data::Bool(is_true) => format!(in alloc; "{is_true}")?,
        Data::Num(number) => format!(in alloc; "{number}")?,
        Data::Text(text) => quoted(alloc, text.as_str())?,
        _ => String::from_str(alloc, "value")?,
    };
    Ok(text)
}

fn data_of(alloc: Global, value: &Value) -> Result<Data> {
    match value {
        Value::Null => Ok(Data::Null),
        Value::Bool(is_true) => Ok(Data::Bool(*is_true)),
        Value::String(text) => Ok(Data::Text(made(Text::from_str(alloc, text.as_str()))?)),
        other => Ok(Data::Num(other.as_i64().context("no value")?)),
    }
}

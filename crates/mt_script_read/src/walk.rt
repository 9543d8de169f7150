ghost use Rattle.std.specs.Prelude.{◌∷◌, ◌++◌, ◌-◌, ◌==◌, [], map, option_map};
ghost use Rattle.mt_syntax.specs.Fold.{on_decl, on_expr, on_expr_kind, on_for_start, on_function, on_markup, on_markup_attribute, on_markup_child, on_markup_value, on_prop, on_stmt, on_stmt_kind};
ghost use Rattle.mt_syntax.specs.Gathering.{or_none};
ghost use Rattle.mt_script_words.specs.Outcome.{Gives};
ghost use Rattle.mt_script_read.specs.Walking.{all_walks, nothing_met, then_walk, walking};

use mt_script_words::CodeRefusal;
use mt_syntax::{
    Decl, Expr, ExprKind, ForStart, Function, Markup, MarkupAttribute, MarkupChild, MarkupValue,
    Prop, Stmt, StmtKind,
};
use mt_tree::{Boxed, Data};

fn meet(datum: &Data, met: &mut Vec<Data>) -> Result<(), CodeRefusal>
    ensures { Gives (λ u. met.new.items) result (Some (met.old.items ++ datum.now ∷ [])) }
{
    met.push(datum.share()?)?;
    Ok(())
}

#[cycle(walk)]
fn expr(from: &Expr, levels: u32, met: &mut Vec<Data>) -> Result<(), CodeRefusal>
    ensures { Gives (λ u. met.new.items) result (on_expr walking from.now levels met.old.items) }
{
    if levels == 0 {
        return Err(CodeRefusal::NotCode);
    }
    expr_kind(from.kind.get(), levels - 1, met)
}

#[cycle(walk)]
fn expr_kind(from: &ExprKind, levels: u32, met: &mut Vec<Data>) -> Result<(), CodeRefusal>
    ensures { Gives (λ u. met.new.items) result (on_expr_kind walking from.now levels met.old.items) }
{
    match from {
        ExprKind::Name(_)
        | ExprKind::Num(_)
        | ExprKind::Text(_)
        | ExprKind::Bool(_)
        | ExprKind::Null
        | ExprKind::Undefined
        | ExprKind::Tilde(_)
        | ExprKind::Dollar(_) => Ok(()),
        ExprKind::Arr(items) => exprs(items.items(), levels, met),
        ExprKind::Obj(items) => props(items.items(), levels, met),
        ExprKind::Fun(f) => function(f, levels, met),
        ExprKind::Unary(_, a) | ExprKind::Step(_, a) | ExprKind::Stray(a) => expr(a, levels, met),
        ExprKind::Binary(_, a, b)
        | ExprKind::Assign(_, a, b)
        | ExprKind::And(a, b)
        | ExprKind::Or(a, b)
        | ExprKind::Index(a, b) => {
            expr(a, levels, met)?;
            expr(b, levels, met)
        }
        ExprKind::Cond(a, b, c) => {
            expr(a, levels, met)?;
            expr(b, levels, met)?;
            expr(c, levels, met)
        }
        ExprKind::Call(a, arguments) => {
            expr(a, levels, met)?;
            exprs(arguments.items(), levels, met)
        }
        ExprKind::Markup(m) => markup(m, levels, met),
        ExprKind::Val(datum) => meet(datum, met),
    }
}

#[cycle(walk)]
fn exprs(items: &[Expr], levels: u32, met: &mut Vec<Data>) -> Result<(), CodeRefusal>
    ensures { Gives (λ u. met.new.items) result (all_walks (map (on_expr walking) items.now) levels met.old.items) }
{
    for item in items {
        expr(item, levels, met)?;
    }
    Ok(())
}

#[cycle(walk)]
fn prop(from: &Prop, levels: u32, met: &mut Vec<Data>) -> Result<(), CodeRefusal>
    ensures { Gives (λ u. met.new.items) result (on_prop walking from.now levels met.old.items) }
{
    expr(&from.value, levels, met)
}

#[cycle(walk)]
fn props(items: &[Prop], levels: u32, met: &mut Vec<Data>) -> Result<(), CodeRefusal>
    ensures { Gives (λ u. met.new.items) result (all_walks (map (on_prop walking) items.now) levels met.old.items) }
{
    for item in items {
        prop(item, levels, met)?;
    }
    Ok(())
}

#[cycle(walk)]
fn function(from: &Function, levels: u32, met: &mut Vec<Data>) -> Result<(), CodeRefusal>
    ensures { Gives (λ u. met.new.items) result (on_function walking from.now levels met.old.items) }
{
    stmts(from.body.items(), levels, met)
}

#[cycle(walk)]
fn markup(from: &Markup, levels: u32, met: &mut Vec<Data>) -> Result<(), CodeRefusal>
    ensures { Gives (λ u. met.new.items) result (on_markup walking from.now levels met.old.items) }
{
    attributes(from.attributes.items(), levels, met)?;
    children(from.children.items(), levels, met)
}

#[cycle(walk)]
fn attribute_value(from: &MarkupValue, levels: u32, met: &mut Vec<Data>) -> Result<(), CodeRefusal>
    ensures { Gives (λ u. met.new.items) result (on_markup_value walking from.now levels met.old.items) }
{
    match from {
        MarkupValue::Quoted(_) => Ok(()),
        MarkupValue::Tilde(a) => expr(a, levels, met),
        MarkupValue::Dollar(a) => expr(a, levels, met),
    }
}

#[cycle(walk)]
fn attribute(from: &MarkupAttribute, levels: u32, met: &mut Vec<Data>) -> Result<(), CodeRefusal>
    ensures { Gives (λ u. met.new.items) result (on_markup_attribute walking from.now levels met.old.items) }
{
    attribute_value(&from.value, levels, met)
}

#[cycle(walk)]
fn attributes(
    items: &[MarkupAttribute],
    levels: u32,
    met: &mut Vec<Data>,
) -> Result<(), CodeRefusal>
    ensures { Gives (λ u. met.new.items) result (all_walks (map (on_markup_attribute walking) items.now) levels met.old.items) }
{
    for item in items {
        attribute(item, levels, met)?;
    }
    Ok(())
}

#[cycle(walk)]
fn child(from: &MarkupChild, levels: u32, met: &mut Vec<Data>) -> Result<(), CodeRefusal>
    ensures { Gives (λ u. met.new.items) result (on_markup_child walking from.now levels met.old.items) }
{
    match from {
        MarkupChild::Text(_) => Ok(()),
        MarkupChild::Direct(a) => expr(a, levels, met),
        MarkupChild::Dollar(a) => expr(a, levels, met),
    }
}

#[cycle(walk)]
fn children(items: &[MarkupChild], levels: u32, met: &mut Vec<Data>) -> Result<(), CodeRefusal>
    ensures { Gives (λ u. met.new.items) result (all_walks (map (on_markup_child walking) items.now) levels met.old.items) }
{
    for item in items {
        child(item, levels, met)?;
    }
    Ok(())
}

#[cycle(walk)]
fn stmt(from: &Stmt, levels: u32, met: &mut Vec<Data>) -> Result<(), CodeRefusal>
    ensures { Gives (λ u. met.new.items) result (on_stmt walking from.now levels met.old.items) }
{
    if levels == 0 {
        return Err(CodeRefusal::NotCode);
    }
    stmt_kind(&from.kind, levels - 1, met)
}

#[cycle(walk)]
fn stmt_kind(from: &StmtKind, levels: u32, met: &mut Vec<Data>) -> Result<(), CodeRefusal>
    ensures { Gives (λ u. met.new.items) result (on_stmt_kind walking from.now levels met.old.items) }
{
    match from {
        StmtKind::Expr(a) => expr(a, levels, met),
        StmtKind::Var(_, items) => decls(items.items(), levels, met),
        StmtKind::Function(f) => function(f, levels, met),
        StmtKind::Service(f) => function(f, levels, met),
        StmtKind::If(test, body, other) => {
            expr(test, levels, met)?;
            stmt(body.get(), levels, met)?;
            branch(other, levels, met)
        }
        StmtKind::While(test, body) => {
            expr(test, levels, met)?;
            stmt(body.get(), levels, met)
        }
        StmtKind::For(first, test, step, body) => {
            start(first, levels, met)?;
            part(test, levels, met)?;
            part(step, levels, met)?;
            stmt(body.get(), levels, met)
        }
        StmtKind::Return(a) => part(a, levels, met),
        StmtKind::Throw(a) => expr(a, levels, met),
        StmtKind::Try(body, _, handler) => {
            stmt(body.get(), levels, met)?;
            stmt(handler.get(), levels, met)
        }
        StmtKind::Block(items) => stmts(items.items(), levels, met),
        StmtKind::Break | StmtKind::Continue | StmtKind::Empty => Ok(()),
    }
}

#[cycle(walk)]
fn branch(from: &Option<Boxed<Stmt>>, levels: u32, met: &mut Vec<Data>) -> Result<(), CodeRefusal>
    ensures { Gives (λ u. met.new.items) result (or_none nothing_met then_walk (option_map (on_stmt walking) from.now) levels met.old.items) }
{
    match from {
        None => Ok(()),
        Some(s) => stmt(s.get(), levels, met),
    }
}

#[cycle(walk)]
fn part(from: &Option<Expr>, levels: u32, met: &mut Vec<Data>) -> Result<(), CodeRefusal>
    ensures { Gives (λ u. met.new.items) result (or_none nothing_met then_walk (option_map (on_expr walking) from.now) levels met.old.items) }
{
    match from {
        None => Ok(()),
        Some(a) => expr(a, levels, met),
    }
}

#[cycle(walk)]
fn start(from: &ForStart, levels: u32, met: &mut Vec<Data>) -> Result<(), CodeRefusal>
    ensures { Gives (λ u. met.new.items) result (on_for_start walking from.now levels met.old.items) }
{
    match from {
        ForStart::Absent => Ok(()),
        ForStart::Var(items) => decls(items.items(), levels, met),
        ForStart::Expr(a) => expr(a, levels, met),
    }
}

#[cycle(walk)]
fn decl(from: &Decl, levels: u32, met: &mut Vec<Data>) -> Result<(), CodeRefusal>
    ensures { Gives (λ u. met.new.items) result (on_decl walking from.now levels met.old.items) }
{
    part(&from.value, levels, met)
}

#[cycle(walk)]
fn decls(items: &[Decl], levels: u32, met: &mut Vec<Data>) -> Result<(), CodeRefusal>
    ensures { Gives (λ u. met.new.items) result (all_walks (map (on_decl walking) items.now) levels met.old.items) }
{
    for item in items {
        decl(item, levels, met)?;
    }
    Ok(())
}

/// Appends the values of the statements, in text order.
///
/// # Errors
/// `NotCode` where they are deeper than the levels, and then some of the values may have been appended; `NoMemory`. Takes no
/// more levels of recursion than these.
#[cycle(walk)]
pub(crate) fn stmts(items: &[Stmt], levels: u32, met: &mut Vec<Data>) -> Result<(), CodeRefusal>
    ensures { Gives (λ u. met.new.items) result (all_walks (map (on_stmt walking) items.now) levels met.old.items) }
{
    for item in items {
        stmt(item, levels, met)?;
    }
    Ok(())
}

ghost use Rattle.std.specs.Prelude.{◌≡◌, ◌++◌, ◌∷◌, [], filter, map, not, IfOk, OnOk};
ghost use Rattle.mt_syntax.specs.Fold.{on_function, on_stmt};
ghost use Rattle.mt_stage_declared.specs.Declarations.{declarations, declared, here_in};
ghost use Rattle.mt_stage_scopes.specs.Sites.{block_scope, body_scope, catch_scope, is_lexical, own_scope, sites};

use mt_stage_declared::{Declaration, DeclarationKind, Scope, declare, declare_all, declared_here};
use mt_syntax::{Function, Mark, Stmt};
use mt_tree::{NoMemory, Row};
use std::alloc::Global;

fn push_lexical(declaration: &Declaration, into: &mut Vec<Declaration>) -> Result<(), NoMemory>
    ensures { OnOk result (into.new.items ≡ into.old.items ++ filter is_lexical (declaration.now ∷ [])) }
{
    match declaration.kind {
        DeclarationKind::Lexical => declare(DeclarationKind::Lexical, &declaration.name, into),
        DeclarationKind::Parameter
        | DeclarationKind::Variable
        | DeclarationKind::Nested
        | DeclarationKind::Function
        | DeclarationKind::Service
        | DeclarationKind::Catch => Ok(()),
    }
}

fn lexical(from: &[Declaration], into: &mut Vec<Declaration>) -> Result<(), NoMemory>
    ensures { OnOk result (into.new.items ≡ into.old.items ++ filter is_lexical from.now) }
{
    for declaration in from {
        push_lexical(declaration, into)?;
    }
    Ok(())
}

fn lexical_in(alloc: Global, items: &Row<Stmt>) -> Result<Scope, NoMemory>
    ensures { IfOk result (λ scope. scope ≡ filter is_lexical (here_in (λ d. d) (map declared items.now))) }
{
    let mut all = Vec::new(alloc);
    declared_here(items, &mut all)?;
    let mut own = Vec::new(alloc);
    lexical(all.as_slice(), &mut own)?;
    Scope::new(alloc, own)
}

// The scope of a block.
pub(crate) fn block_scope(alloc: Global, items: &Row<Stmt>) -> Result<Scope, NoMemory>
    ensures { IfOk result (λ scope. scope ≡ block_scope (map (on_stmt sites) items.now)) }
{
    lexical_in(alloc, items)
}

fn declared_in_body(
    alloc: Global,
    body: &Row<Stmt>,
    parameters: &Row<Mark>,
) -> Result<Scope, NoMemory>
    ensures { IfOk result (λ scope. scope ≡ declarations DeclarationKind.Parameter parameters.now ++ here_in (λ d. d) (map declared body.now)) }
{
    let mut all = Vec::new(alloc);
    declare_all(DeclarationKind::Parameter, parameters.items(), &mut all)?;
    declared_here(body, &mut all)?;
    Scope::new(alloc, all)
}

// The scope of the body of a function.
pub(crate) fn body_scope(
    alloc: Global,
    body: &Row<Stmt>,
    parameters: &Row<Mark>,
) -> Result<Scope, NoMemory>
    ensures { IfOk result (λ scope. scope ≡ body_scope parameters.now (map (on_stmt sites) body.now)) }
{
    declared_in_body(alloc, body, parameters)
}

pub(crate) fn catch_scope(alloc: Global, name: &Mark) -> Result<Scope, NoMemory>
    ensures { IfOk result (λ scope. scope ≡ catch_scope name.now) }
{
    let mut all = Vec::new(alloc);
    declare(DeclarationKind::Catch, name, &mut all)?;
    Scope::new(alloc, all)
}

// The scope of a function expression's own name, which it may not have.
pub(crate) fn own_scope(alloc: Global, function: &Function) -> Result<Scope, NoMemory>
    ensures { IfOk result (λ scope. scope ≡ own_scope (on_function sites function.now).declared) }
{
    let mut all = Vec::new(alloc);
    if let Some(name) = &function.name {
        declare(DeclarationKind::Function, name, &mut all)?;
    }
    Scope::new(alloc, all)
}

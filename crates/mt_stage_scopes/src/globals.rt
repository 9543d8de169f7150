ghost use Rattle.std.specs.Prelude.{◌≡◌, ◌++◌, ◌∷◌, [], filter, not, IfOk, OnOk};
ghost use Rattle.mt_stage_scopes.specs.Misused.{client_globals, globals_of_tilde, is_global};

use mt_stage_declared::{Declaration, DeclarationKind, Scope, declare, declared_here};
use mt_syntax::Tilde;
use mt_tree::NoMemory;
use std::alloc::Global;

fn push_global(declaration: &Declaration, into: &mut Vec<Declaration>) -> Result<(), NoMemory>
    ensures { OnOk result (into.new.items ≡ into.old.items ++ filter is_global (declaration.now ∷ [])) }
{
    match declaration.kind {
        DeclarationKind::Lexical => Ok(()),
        DeclarationKind::Parameter
        | DeclarationKind::Variable
        | DeclarationKind::Nested
        | DeclarationKind::Function
        | DeclarationKind::Service
        | DeclarationKind::Catch => declare(declaration.kind, &declaration.name, into),
    }
}

fn push_globals(from: &[Declaration], into: &mut Vec<Declaration>) -> Result<(), NoMemory>
    ensures { OnOk result (into.new.items ≡ into.old.items ++ filter is_global from.now) }
{
    for declaration in from {
        push_global(declaration, into)?;
    }
    Ok(())
}

fn of_tilde(alloc: Global, tilde: &Tilde, into: &mut Vec<Declaration>) -> Result<(), NoMemory>
    ensures { OnOk result (into.new.items ≡ into.old.items ++ globals_of_tilde tilde.now) }
{
    let mut all = Vec::new(alloc);
    declared_here(&tilde.body, &mut all)?;
    push_globals(all.as_slice(), into)
}

fn of_tildes(alloc: Global, tildes: &[Tilde], into: &mut Vec<Declaration>) -> Result<(), NoMemory>
    ensures { OnOk result (into.new.items ≡ into.old.items ++ client_globals tildes.now) }
{
    for tilde in tildes {
        of_tilde(alloc, tilde, into)?;
    }
    Ok(())
}

// The client globals that the tildes declare.
pub(crate) fn client_globals(alloc: Global, tildes: &[Tilde]) -> Result<Scope, NoMemory>
    ensures { IfOk result (λ scope. scope ≡ client_globals tildes.now) }
{
    let mut all = Vec::new(alloc);
    of_tildes(alloc, tildes, &mut all)?;
    Scope::new(alloc, all)
}

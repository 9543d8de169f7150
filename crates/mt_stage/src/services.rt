ghost use Rattle.std.specs.Prelude.{◌≡◌, ◌++◌, ◌∷◌, [], IfOk, OnOk};
ghost use Rattle.mt_stage.specs.Services.{is_service, names_of_services, services_of};

use mt_stage_declared::{Declaration, DeclarationKind, declared_in_file};
use mt_syntax::Stmt;
use mt_tree::{NoMemory, Row, Text};
use std::alloc::Global;

/// The names of the services that the items of a file declare, in text order.
pub(crate) fn services(alloc: Global, items: &Row<Stmt>) -> Result<Row<Text>, NoMemory>
    ensures { IfOk result (λ names. names ≡ services_of items.now) }
{
    let mut declared = Vec::new(alloc);
    declared_in_file(items, &mut declared)?;
    names_of_services(alloc, declared.as_slice())
}

fn names_of_services(alloc: Global, declared: &[Declaration]) -> Result<Row<Text>, NoMemory>
    ensures { IfOk result (λ names. names ≡ names_of_services declared.now) }
{
    let mut names = Vec::new(alloc);
    for item in declared {
        if !is_service(item.kind) {
            continue;
        }
        push(&mut names, item.name.name.share()?)?;
    }
    Row::from_vec(alloc, names)
}

fn is_service(kind: DeclarationKind) -> bool
    ensures { result ≡ is_service kind }
{
    kind == DeclarationKind::Service
}

fn push(names: &mut Vec<Text>, name: Text) -> Result<(), NoMemory>
    ensures { OnOk result (names.new.items ≡ names.old.items ++ name ∷ []) }
{
    match names.push(name) {
        Ok(()) => Ok(()),
        Err(_refused) => Err(NoMemory),
    }
}

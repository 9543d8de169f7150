ghost use Rattle.std.specs.Prelude.{◌≡◌, map, option_map};
ghost use Rattle.mt_syntax.specs.First.{first_of};
ghost use Rattle.mt_syntax.specs.Fold.{on_decl, on_stmt_kind};
ghost use Rattle.mt_stage_declared.specs.Declarations.{declarations, declared, declaring, names_in};
ghost use Rattle.mt_stage_declared.specs.Repeated.{repeated, repeated_behind, twice_at};
ghost use Rattle.mt_stage_declared.specs.Scopes.{scope_of};

use crate::declaration::DeclarationKind;
use crate::first;
use crate::kinds::Kinds;
use crate::predicate::Predicate;
use crate::repeated::twice_at;
use crate::search::Search;
use mt_syntax::{Broken, Decl, Mark, Stmt, StmtKind, earlier};
use mt_tree::{Row, VarKind};
use std::convert::Infallible;

// Compares each declaration with those before it: takes no memory, and time in proportion to the square of the size of the scope.
pub(crate) struct ByComparison;

impl Search for ByComparison {
    type Refusal = Infallible;

    fn in_scope(
        &self,
        kind: DeclarationKind,
        names: &[Mark],
        items: &Row<Stmt>,
    ) -> Result<Option<Broken>, Infallible> {
        Ok(repeated_in_scope(kind, names, items.items()))
    }
}

// That a declaration clashes with this one.
#[derive(Clone, Copy)]
struct Rival<'a> {
    kind: DeclarationKind,
    name: &'a Mark,
}

impl Predicate for Rival<'_> {
    ghost use Rattle.mt_stage_declared.specs.Declarations.{declaration};
    ghost use Rattle.mt_stage_declared.specs.Repeated.{clash};

    ghost holds = { λ rival d. clash (declaration rival.kind rival.name.now) d };

    fn holds(&self, kind: DeclarationKind, name: &Mark) -> bool {
        self.name.name == name.name && Kinds::none().with(kind).clash_with(self.kind)
    }
}

impl Rival<'_> {
    // The place of this declaration, where another that it clashes with was found.
    fn where_found(self, other: Option<Broken>) -> Option<Broken>
        ensures { result ≡ option_map (λ _. twice_at self.entry.name.now) other }
    {
        match other {
            None => None,
            Some(_) => Some(twice_at(self.name)),
        }
    }
}

// That a declaration clashes with one of these: of the names, all declared in one way, and of what the statements declare.
#[derive(Clone, Copy)]
struct Before<'a> {
    kind: DeclarationKind,
    names: &'a [Mark],
    items: &'a [Stmt],
}

impl Predicate for Before<'_> {
    ghost use Rattle.std.specs.List.{list_any};
    ghost use Rattle.mt_stage_declared.specs.Repeated.{clash};
    ghost use Rattle.mt_stage_declared.specs.Scopes.{scope_of};

    ghost holds = { λ before d. list_any (clash d) (scope_of before.kind before.names.now before.items.now) };

    fn holds(&self, kind: DeclarationKind, name: &Mark) -> bool {
        let rival = Rival { kind, name };
        first::in_marks(&rival, self.kind, self.names).is_some()
            || first::in_statements(&rival, self.items).is_some()
    }
}

// Each of these gives the first declaration of its list that clashes with one before it.

// Of names that are all declared in one way.
fn repeated_in_names(kind: DeclarationKind, names: &[Mark]) -> Option<Broken>
    ensures { result ≡ first_of (repeated (declarations kind names.now)) }
{
    let mut found = None;
    for (at, name) in names.iter().enumerate() {
        let rival = Rival { kind, name };
        let other = first::in_marks(&rival, kind, &names[..at]);
        found = earlier(found, rival.where_found(other));
    }
    found
}

// Of the names of one statement.
fn repeated_in_decls(kind: DeclarationKind, decls: &[Decl]) -> Option<Broken>
    ensures { result ≡ first_of (repeated (declarations kind (names_in (λ d. d) (map (on_decl declaring) decls.now)))) }
{
    let mut found = None;
    for (at, decl) in decls.iter().enumerate() {
        let rival = Rival {
            kind,
            name: &decl.name,
        };
        let other = first::in_decls(&rival, kind, &decls[..at]);
        found = earlier(found, rival.where_found(other));
    }
    found
}

// Of what a statement declares, alone.
fn repeated_in_statement(from: &Stmt) -> Option<Broken>
    ensures { result ≡ first_of (repeated (declared from.now).here) }
{
    repeated_in_kind(&from.kind)
}

fn repeated_in_kind(from: &StmtKind) -> Option<Broken>
    ensures { result ≡ first_of (repeated (on_stmt_kind declaring from.now).here) }
{
    match from {
        StmtKind::Var(VarKind::Var, items) => repeated_in_decls(
            DeclarationKind::Variable,
            items.items(),
        ),
        StmtKind::Var(_, items) => repeated_in_decls(DeclarationKind::Lexical, items.items()),
        StmtKind::If(_, _, _)
        | StmtKind::While(_, _)
        | StmtKind::For(_, _, _, _)
        | StmtKind::Try(_, _, _)
        | StmtKind::Block(_) => repeated_in_variables(from),
        StmtKind::Expr(_)
        | StmtKind::Function(_)
        | StmtKind::Service(_)
        | StmtKind::Return(_)
        | StmtKind::Break
        | StmtKind::Continue
        | StmtKind::Throw(_)
        | StmtKind::Empty => None,
    }
}

// Of the variables deeper in a statement there is none, since a `var` goes together with each other `var`.
fn repeated_in_variables(_from: &StmtKind) -> Option<Broken>
    ensures { result ≡ first_of (repeated (on_stmt_kind declaring _from.now).variables) }
{
    None
}

// Of what a statement declares behind others.
fn repeated_behind(before: &Before<'_>, from: &Stmt) -> Option<Broken>
    ensures { result ≡ first_of (repeated_behind (scope_of before.now.kind before.now.names.now before.now.items.now) (declared from.now).here) }
{
    earlier(
        first::in_statement(before, from),
        repeated_in_statement(from),
    )
}

// Of names that are all declared in one way, and of what the statements behind them declare.
fn repeated_in_scope(kind: DeclarationKind, names: &[Mark], items: &[Stmt]) -> Option<Broken>
    ensures { result ≡ first_of (repeated (scope_of kind names.now items.now)) }
{
    let mut found = repeated_in_names(kind, names);
    for (at, item) in items.iter().enumerate() {
        let before = Before {
            kind,
            names,
            items: &items[..at],
        };
        found = earlier(found, repeated_behind(&before, item));
    }
    found
}

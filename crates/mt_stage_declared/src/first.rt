//! The first of the declarations in parts of a program for which a predicate holds. Takes no memory, since no list of them
//! is made.

ghost use Rattle.std.specs.Prelude.{◌≡◌, ◌∷◌, [], map, option_map};
ghost use Rattle.mt_syntax.specs.First.{first_of};
ghost use Rattle.mt_syntax.specs.Fold.{on_decl, on_for_start, on_function, on_stmt_kind};
ghost use Rattle.mt_stage_declared.specs.Declarations.{declaration, declarations, declared, declaring, here_in, names_in, optional_variables, variables_in};
ghost use Rattle.mt_stage_declared.specs.Repeated.{where_holding};

use crate::declaration::{Declaration, DeclarationKind};
use crate::predicate::Predicate;
use crate::repeated::twice_at;
use mt_syntax::{Broken, Decl, ForStart, Function, Mark, Stmt, StmtKind, earlier};
use mt_tree::{Boxed, Row, VarKind};

// Each of these looks at the declarations that its contract names.

fn in_mark<P: Predicate>(predicate: &P, kind: DeclarationKind, name: &Mark) -> Option<Broken>
    ensures { result ≡ first_of (where_holding (P.holds predicate.now) (declaration kind name.now ∷ [])) }
{
    if predicate.holds(kind, name) {
        Some(twice_at(name))
    } else {
        None
    }
}

// Names that are all declared in one way.
pub(crate) fn in_marks<P: Predicate>(
    predicate: &P,
    kind: DeclarationKind,
    from: &[Mark],
) -> Option<Broken>
    ensures { result ≡ first_of (where_holding (P.holds predicate.now) (declarations kind from.now)) }
{
    let mut found = None;
    for name in from {
        found = earlier(found, in_mark(predicate, kind, name));
    }
    found
}

fn in_decl<P: Predicate>(predicate: &P, kind: DeclarationKind, from: &Decl) -> Option<Broken>
    ensures { result ≡ first_of (where_holding (P.holds predicate.now) (declarations kind (on_decl declaring from.now).names)) }
{
    in_mark(predicate, kind, &from.name)
}

// The names of one statement, or of the start of a `for`.
pub(crate) fn in_decls<P: Predicate>(
    predicate: &P,
    kind: DeclarationKind,
    from: &[Decl],
) -> Option<Broken>
    ensures { result ≡ first_of (where_holding (P.holds predicate.now) (declarations kind (names_in (λ d. d) (map (on_decl declaring) from.now)))) }
{
    let mut found = None;
    for item in from {
        found = earlier(found, in_decl(predicate, kind, item));
    }
    found
}

fn in_start<P: Predicate>(predicate: &P, from: &ForStart) -> Option<Broken>
    ensures { result ≡ first_of (where_holding (P.holds predicate.now) (declarations DeclarationKind.Nested (on_for_start declaring from.now).names)) }
{
    match from {
        ForStart::Absent => None,
        ForStart::Var(items) => in_decls(predicate, DeclarationKind::Nested, items.items()),
        ForStart::Expr(_a) => None,
    }
}

fn in_function<P: Predicate>(
    predicate: &P,
    kind: DeclarationKind,
    from: &Function,
) -> Option<Broken>
    ensures { result ≡ first_of (where_holding (P.holds predicate.now) (declarations kind (on_function declaring from.now).names)) }
{
    match &from.name {
        None => None,
        Some(name) => in_mark(predicate, kind, name),
    }
}

#[cycle(variables)]
fn in_variables<P: Predicate>(predicate: &P, from: &Stmt) -> Option<Broken>
    ensures { result ≡ first_of (where_holding (P.holds predicate.now) (declared from.now).variables) }
{
    in_variables_of_kind(predicate, &from.kind)
}

#[cycle(variables)]
fn in_variables_of_kind<P: Predicate>(predicate: &P, from: &StmtKind) -> Option<Broken>
    ensures { result ≡ first_of (where_holding (P.holds predicate.now) (on_stmt_kind declaring from.now).variables) }
{
    match from {
        StmtKind::Var(VarKind::Var, items) => {
            in_decls(predicate, DeclarationKind::Nested, items.items())
        }
        StmtKind::If(_test, body, other) => earlier(
            in_variables(predicate, body.get()),
            in_other_variables(predicate, other),
        ),
        StmtKind::While(_test, body) => in_variables(predicate, body.get()),
        StmtKind::For(start, _test, _step, body) => earlier(
            in_start(predicate, start),
            in_variables(predicate, body.get()),
        ),
        StmtKind::Try(body, _name, handler) => earlier(
            in_variables(predicate, body.get()),
            in_variables(predicate, handler.get()),
        ),
        StmtKind::Block(items) => in_row_variables(predicate, items),
        StmtKind::Expr(_)
        | StmtKind::Var(_, _)
        | StmtKind::Function(_)
        | StmtKind::Service(_)
        | StmtKind::Return(_)
        | StmtKind::Break
        | StmtKind::Continue
        | StmtKind::Throw(_)
        | StmtKind::Empty => None,
    }
}

#[cycle(variables)]
fn in_other_variables<P: Predicate>(predicate: &P, from: &Option<Boxed<Stmt>>) -> Option<Broken>
    ensures { result ≡ first_of (where_holding (P.holds predicate.now) (optional_variables (λ d. d) (option_map declared from.now))) }
{
    match from {
        None => None,
        Some(body) => in_variables(predicate, body.get()),
    }
}

#[cycle(variables)]
fn in_row_variables<P: Predicate>(predicate: &P, from: &Row<Stmt>) -> Option<Broken>
    ensures { result ≡ first_of (where_holding (P.holds predicate.now) (variables_in (λ d. d) (map declared from.now))) }
{
    let mut found = None;
    for item in from.items() {
        found = earlier(found, in_variables(predicate, item));
    }
    found
}

// A list of declarations.
pub(crate) fn in_list<P: Predicate>(predicate: &P, from: &[Declaration]) -> Option<Broken>
    ensures { result ≡ first_of (where_holding (P.holds predicate.now) from.now) }
{
    let mut found = None;
    for declaration in from {
        found = earlier(
            found,
            in_mark(predicate, declaration.kind, &declaration.name),
        );
    }
    found
}

// What a statement declares where it stands, but for a service.
pub(crate) fn in_statement<P: Predicate>(predicate: &P, from: &Stmt) -> Option<Broken>
    ensures { result ≡ first_of (where_holding (P.holds predicate.now) (declared from.now).here) }
{
    in_statement_of_kind(predicate, &from.kind)
}

fn in_statement_of_kind<P: Predicate>(predicate: &P, from: &StmtKind) -> Option<Broken>
    ensures { result ≡ first_of (where_holding (P.holds predicate.now) (on_stmt_kind declaring from.now).here) }
{
    match from {
        StmtKind::Var(VarKind::Var, items) => {
            in_decls(predicate, DeclarationKind::Variable, items.items())
        }
        StmtKind::Var(_, items) => in_decls(predicate, DeclarationKind::Lexical, items.items()),
        StmtKind::Function(f) => in_function(predicate, DeclarationKind::Function, f),
        StmtKind::If(_, _, _)
        | StmtKind::While(_, _)
        | StmtKind::For(_, _, _, _)
        | StmtKind::Try(_, _, _)
        | StmtKind::Block(_) => in_variables_of_kind(predicate, from),
        StmtKind::Expr(_)
        | StmtKind::Service(_)
        | StmtKind::Return(_)
        | StmtKind::Break
        | StmtKind::Continue
        | StmtKind::Throw(_)
        | StmtKind::Empty => None,
    }
}

// What the statements of a body or block declare in it, services aside.
pub(crate) fn in_statements<P: Predicate>(predicate: &P, from: &[Stmt]) -> Option<Broken>
    ensures { result ≡ first_of (where_holding (P.holds predicate.now) (here_in (λ d. d) (map declared from.now))) }
{
    let mut found = None;
    for item in from {
        found = earlier(found, in_statement(predicate, item));
    }
    found
}

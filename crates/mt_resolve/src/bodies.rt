ghost use Rattle.std.specs.Prelude.{◌≡◌, IfOk};
ghost use Rattle.mt_eval_meaning.specs.Evaluation as evaluation;
ghost use Rattle.mt_eval_meaning.specs.Hoisting.{kind_of, names_of};
ghost use Rattle.mt_eval_meaning.specs.Runs.{Evals};
ghost use Rattle.mt_resolve.specs.Resolving as spec;
ghost use Rattle.mt_resolve_names.specs.Around.{surroundings_of};
ghost use Rattle.mt_resolve.specs.Resolving.{EvalsInto};
ghost use Rattle.mt_syntax.specs.declared.tree.Function.{out-Function};

use crate::resolver::{Resolver, add};
use crate::statements::stmts;
use mt_eval_meaning::{Body, Exit, Function, Hoisted, Stop};
use mt_resolve_names::{Slot, captured_scope, enter, own_given, slots, sum};
use mt_syntax as syntax;
use mt_syntax::{Mark, Stmt, StmtKind};
use mt_tree::{NoMemory, Row, Text, push};

// The name that a function expression has inside.
pub fn own_name(function: &syntax::Function) -> Result<Option<Text>, NoMemory>
    ensures { IfOk result (λ own. own ≡ evaluation.own_name (out-Function function.now).name) }
{
    match &function.name {
        None => Ok(None),
        Some(name) => Ok(Some(name.name.share()?)),
    }
}

/// A function that a body declares: its code is put behind the other functions, and its number is given.
///
/// # Errors
/// `Stop::Depth` where the function is deeper than `depth`, and `NoMemory`.
#[cycle(resolving)]
pub fn declared_function(
    r: &Resolver,
    depth: usize,
    functions: &mut Vec<Function>,
    scope: &[Slot],
    from: &syntax::Function,
) -> Result<usize, Exit>
    ensures { Evals ((spec.at (surroundings_of r.now.around) r.now.first depth).function scope.now from.now functions.old.items) result functions.new.items }
{
    if depth == 0 {
        return Err(Exit::Stop(Stop::Depth));
    }
    let own = None;
    function(r, depth - 1, functions, scope, &own, from)
}

// A function that captures what is free in it.
#[cycle(resolving)]
#[tactic(auto, unfolding(crate::specs::Resolving::function))]
pub fn function(
    r: &Resolver,
    depth: usize,
    functions: &mut Vec<Function>,
    scope: &[Slot],
    own: &Option<Text>,
    from: &syntax::Function,
) -> Result<usize, Exit>
    ensures { Evals (spec.function (surroundings_of r.now.around) r.now.first (spec.at (surroundings_of r.now.around) r.now.first depth) scope.now own.now from.now functions.old.items) result functions.new.items }
{
    let kept = r.around.captured(scope, own, from)?;
    with_captured(r, depth, functions, kept.as_slice(), own, from)
}

#[cycle(resolving)]
#[tactic(auto, unfolding(crate::specs::Resolving::with_captured))]
fn with_captured(
    r: &Resolver,
    depth: usize,
    functions: &mut Vec<Function>,
    kept: &[Slot],
    own: &Option<Text>,
    from: &syntax::Function,
) -> Result<usize, Exit>
    ensures { Evals (spec.with_captured (surroundings_of r.now.around) r.now.first (spec.at (surroundings_of r.now.around) r.now.first depth) kept.now own.now from.now functions.old.items) result functions.new.items }
{
    let outer = captured_scope(r.alloc, kept)?;
    let captures = slots(r.alloc, kept)?;
    let parameters = from.parameters.items();
    let given = own_given(r.alloc, own, parameters, &from.body)?;
    let body = body(
        r,
        depth,
        functions,
        kept.len(),
        own,
        parameters,
        outer.as_slice(),
        &from.body,
    )?;
    add(
        r.first,
        functions,
        Function {
            captures,
            own: given,
            parameters: parameters.len(),
            body,
        },
    )
}

/// The body of a function, over the scope `outer` of what it captures: its entry stands behind an activation of that size. `own` is the name
/// of a function expression.
///
/// # Errors
/// `Stop::Depth` where the body is deeper than `depth`, and `NoMemory`.
#[cycle(resolving)]
#[tactic(auto, unfolding(crate::specs::Resolving::body))]
pub fn body(
    r: &Resolver,
    depth: usize,
    functions: &mut Vec<Function>,
    size: usize,
    own: &Option<Text>,
    parameters: &[Mark],
    outer: &[Slot],
    from: &Row<Stmt>,
) -> Result<Body, Exit>
    ensures { Evals (spec.body (surroundings_of r.now.around) r.now.first (spec.at (surroundings_of r.now.around) r.now.first depth) size own.now (names_of parameters.now) outer.now from.now functions.old.items) result functions.new.items }
{
    let entered = enter(r.alloc, size, own, parameters, from)?;
    let more = sum(size, entered.entry.len())?;
    let inner = entered.entry.inside(r.alloc, outer)?;
    let hoisted = all_hoisted(r, depth, functions, inner.as_slice(), from.items())?;
    let statements = stmts(r, depth, functions, inner.as_slice(), more, from.items())?;
    Ok(Body {
        variables: entered.variables,
        undeclared: entered.undeclared,
        hoisted,
        statements,
    })
}

/// The functions that the statements declare, with their names and their numbers, in text order.
///
/// # Errors
/// `Stop::Depth` where one of them is deeper than `depth`, and `NoMemory`.
#[cycle(resolving)]
#[tactic(auto, unfolding(crate::specs::Resolving::all_hoisted))]
pub fn all_hoisted(
    r: &Resolver,
    depth: usize,
    functions: &mut Vec<Function>,
    scope: &[Slot],
    from: &[Stmt],
) -> Result<Row<Hoisted>, Exit>
    ensures { Evals (spec.all_hoisted (surroundings_of r.now.around) r.now.first (spec.at (surroundings_of r.now.around) r.now.first depth) scope.now from.entry.now functions.old.items) result functions.new.items }
{
    let mut left = from;
    let mut done = Vec::new(r.alloc);
    while let [t, rest @ ..] = left {
        hoisted_one(r, depth, functions, scope, &mut done, t)?;
        left = rest;
    }
    Ok(Row::from_vec(r.alloc, done)?)
}

// Adds the function that the statement declares, if it declares one.
#[cycle(resolving)]
fn hoisted_one(
    r: &Resolver,
    depth: usize,
    functions: &mut Vec<Function>,
    scope: &[Slot],
    done: &mut Vec<Hoisted>,
    from: &Stmt,
) -> Result<(), Exit>
    ensures { EvalsInto (spec.hoisted_one (surroundings_of r.now.around) r.now.first (spec.at (surroundings_of r.now.around) r.now.first depth) scope.now done.old.items (kind_of from.now) functions.old.items) result done.new.items functions.new.items }
{
    match &from.kind {
        StmtKind::Function(f) => hoisted_named(r, depth, functions, scope, done, f),
        _ => Ok(()),
    }
}

#[cycle(resolving)]
fn hoisted_named(
    r: &Resolver,
    depth: usize,
    functions: &mut Vec<Function>,
    scope: &[Slot],
    done: &mut Vec<Hoisted>,
    from: &syntax::Function,
) -> Result<(), Exit>
    ensures { EvalsInto (spec.hoisted_named (surroundings_of r.now.around) r.now.first (spec.at (surroundings_of r.now.around) r.now.first depth) scope.now done.old.items (out-Function from.now).name from.now functions.old.items) result done.new.items functions.new.items }
{
    match &from.name {
        None => Ok(()),
        Some(mark) => {
            let function = declared_function(r, depth, functions, scope, from)?;
            let name = r.around.name(scope, &mark.name)?;
            push(done, Hoisted { name, function })?;
            Ok(())
        }
    }
}

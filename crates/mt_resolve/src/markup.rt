ghost use Rattle.mt_eval_meaning.specs.Runs.{Evals};
ghost use Rattle.mt_resolve.specs.Resolving as spec;
ghost use Rattle.mt_resolve_names.specs.Around.{surroundings_of};
ghost use Rattle.mt_syntax.specs.declared.tree.MarkupValue.{out-MarkupValue};

use crate::expressions::expr;
use crate::resolver::Resolver;
use mt_eval_meaning::{Attribute, Exit, Function, Piece};
use mt_resolve_names::Slot;
use mt_syntax::{MarkupAttribute, MarkupChild, MarkupValue};
use mt_tree::{Row, push};

#[cycle(resolving)]
fn piece_of_value(
    r: &Resolver,
    depth: usize,
    functions: &mut Vec<Function>,
    scope: &[Slot],
    from: &MarkupValue,
) -> Result<Piece, Exit>
    ensures { Evals (spec.piece_of_value (surroundings_of r.now.around) r.now.first (spec.at (surroundings_of r.now.around) r.now.first depth) scope.now (out-MarkupValue from.now) functions.old.items) result functions.new.items }
{
    match from {
        MarkupValue::Quoted(text) => Ok(Piece::Text(text.share()?)),
        MarkupValue::Tilde(e) | MarkupValue::Dollar(e) => {
            Ok(Piece::Expr(expr(r, depth, functions, scope, e)?))
        }
    }
}

#[cycle(resolving)]
#[tactic(auto, unfolding(crate::specs::Resolving::attribute))]
fn attribute(
    r: &Resolver,
    depth: usize,
    functions: &mut Vec<Function>,
    scope: &[Slot],
    from: &MarkupAttribute,
) -> Result<Attribute, Exit>
    ensures { Evals (spec.attribute (surroundings_of r.now.around) r.now.first (spec.at (surroundings_of r.now.around) r.now.first depth) scope.now from.now functions.old.items) result functions.new.items }
{
    let value = piece_of_value(r, depth, functions, scope, &from.value)?;
    Ok(Attribute {
        name: from.name.name.share()?,
        value,
    })
}

#[cycle(resolving)]
#[tactic(auto, unfolding(crate::specs::Resolving::attributes))]
pub fn attributes(
    r: &Resolver,
    depth: usize,
    functions: &mut Vec<Function>,
    scope: &[Slot],
    from: &[MarkupAttribute],
) -> Result<Row<Attribute>, Exit>
    ensures { Evals (spec.attributes (surroundings_of r.now.around) r.now.first (spec.at (surroundings_of r.now.around) r.now.first depth) scope.now from.entry.now functions.old.items) result functions.new.items }
{
    let mut left = from;
    let mut done = Vec::new(r.alloc);
    while let [a, rest @ ..] = left {
        push(&mut done, attribute(r, depth, functions, scope, a)?)?;
        left = rest;
    }
    Ok(Row::from_vec(r.alloc, done)?)
}

#[cycle(resolving)]
#[tactic(auto, unfolding(crate::specs::Resolving::child))]
fn child(
    r: &Resolver,
    depth: usize,
    functions: &mut Vec<Function>,
    scope: &[Slot],
    from: &MarkupChild,
) -> Result<Piece, Exit>
    ensures { Evals (spec.child (surroundings_of r.now.around) r.now.first (spec.at (surroundings_of r.now.around) r.now.first depth) scope.now from.now functions.old.items) result functions.new.items }
{
    match from {
        MarkupChild::Text(text) => Ok(Piece::Text(text.share()?)),
        MarkupChild::Direct(e) | MarkupChild::Dollar(e) => {
            Ok(Piece::Expr(expr(r, depth, functions, scope, e)?))
        }
    }
}

#[cycle(resolving)]
#[tactic(auto, unfolding(crate::specs::Resolving::children))]
pub fn children(
    r: &Resolver,
    depth: usize,
    functions: &mut Vec<Function>,
    scope: &[Slot],
    from: &[MarkupChild],
) -> Result<Row<Piece>, Exit>
    ensures { Evals (spec.children (surroundings_of r.now.around) r.now.first (spec.at (surroundings_of r.now.around) r.now.first depth) scope.now from.entry.now functions.old.items) result functions.new.items }
{
    let mut left = from;
    let mut done = Vec::new(r.alloc);
    while let [c, rest @ ..] = left {
        push(&mut done, child(r, depth, functions, scope, c)?)?;
        left = rest;
    }
    Ok(Row::from_vec(r.alloc, done)?)
}

//! What a node makes with all that stands in it.

ghost use Rattle.std.specs.Prelude.{◌≡◌, ◌++◌, map, IfOk, OnOk};
ghost use Rattle.std.specs.Vec.Iter.{into_iter_items};
ghost use Rattle.mt_syntax.specs.declared.tree.Expr.{roll-Expr};
ghost use Rattle.mt_syntax.specs.declared.tree.Stmt.{roll-Stmt};
ghost use Rattle.mt_parser_builder.specs.Answer.{GivesWith, GivesItems};
ghost use Rattle.mt_parser_builder.specs.Making.{dollar_value, finished, tilde_value, all_made};
ghost use Rattle.mt_parser_builder.specs.ParseTrees.{made_by};
ghost use Rattle.mt_parser_builder.specs.State.{found_of};
ghost use Rattle.mt_parser_builder.specs.Found.{next_tilde};

use crate::fault::Fault;
use crate::found::{Found, nothing_after};
use crate::kinds::{expr_kind, piece, stmt_kind};
use crate::parse_tree::ParseTree;
use crate::part::Part;
use crate::parts::expr;
use crate::rows::row;
use crate::tier::Tier;
use crate::value::Value;
use mt_syntax::{Expr, ExprKind, Stmt, StmtKind, Tilde};
use mt_tree::{Boxed, NoMemory, Place, Row, push};
use std::alloc::Global;
use std::vec::IntoIter;

fn placed(alloc: Global, place: Place, kind: ExprKind) -> Result<Expr, NoMemory>
    ensures { IfOk result (λ e. e ≡ roll-Expr (record { place = place; kind = kind })) }
{
    Ok(Expr {
        place,
        kind: Boxed::new(alloc, kind)?,
    })
}

fn dollar(
    alloc: Global,
    place: Place,
    tier: Tier,
    parts: IntoIter<Value>,
    found: &mut Found,
) -> Result<Value, Fault>
    ensures { GivesWith result (found_of found.new) (dollar_value tier place (into_iter_items parts) (found_of found.old)) }
{
    let mut parts = parts;
    let inner = expr(&mut parts)?;
    match tier {
        Tier::Server => Ok(Value::Expr(placed(alloc, place, ExprKind::Stray(inner))?)),
        Tier::Client => {
            let number = found.next_dollar()?;
            push(&mut found.dollars, inner)?;
            Ok(Value::Expr(placed(alloc, place, ExprKind::Dollar(number))?))
        }
    }
}

// What a node makes that is no tilde.
fn finish(
    alloc: Global,
    part: &Part,
    tier: Tier,
    parts: IntoIter<Value>,
    found: &mut Found,
) -> Result<Value, Fault>
    ensures { GivesWith result (found_of found.new) (finished part.now tier (into_iter_items parts) (found_of found.old)) }
{
    match part {
        Part::Expr(place, kind) => {
            let kind = expr_kind(alloc, kind, parts)?;
            Ok(Value::Expr(placed(alloc, *place, kind)?))
        }
        Part::Tilde(_, _) => Err(Fault::Malformed),
        Part::Dollar(place) => dollar(alloc, *place, tier, parts, found),
        Part::Stmt(place, kind) => {
            let kind = stmt_kind(alloc, kind, parts)?;
            Ok(Value::Stmt(Stmt {
                place: *place,
                kind,
            }))
        }
        Part::Piece(kind) => piece(alloc, kind, parts),
    }
}

// The tilde with this number, with what was found in it.
fn tilde(
    alloc: Global,
    place: Place,
    count: usize,
    number: u32,
    parts: IntoIter<Value>,
    within: Found,
    found: &mut Found,
) -> Result<Value, Fault>
    requires { number ≡ next_tilde (found_of found.old) }
    ensures { GivesWith result (found_of found.new) (tilde_value place count (found_of found.old) (into_iter_items parts, found_of within)) }
{
    let mut parts = parts;
    let body = row(alloc, count, &mut parts)?;
    let Found {
        before: _,
        tildes,
        dollars,
    } = within;
    let mut tildes = tildes;
    let dollars = Row::from_vec(alloc, dollars)?;
    push(
        &mut found.tildes,
        Tilde {
            id: number,
            body,
            dollars,
        },
    )?;
    append(&mut found.tildes, &mut tildes)?;
    Ok(Value::Expr(placed(alloc, place, ExprKind::Tilde(number))?))
}

fn append<T: Drop>(list: &mut Vec<T>, more: &mut Vec<T>) -> Result<(), NoMemory>
    ensures { OnOk result (list.new.items ≡ list.old.items ++ more.old.items) }
{
    match list.append(more) {
        Ok(()) => Ok(()),
        Err(_refused) => Err(NoMemory),
    }
}

#[cycle(trees)]
pub(crate) fn value(
    alloc: Global,
    tree: &ParseTree,
    tier: Tier,
    found: &mut Found,
) -> Result<Value, Fault>
    ensures { GivesWith result (found_of found.new) (made_by tree.now tier (found_of found.old)) }
{
    match &tree.part {
        Part::Tilde(place, count) => {
            let number = found.next_tilde()?;
            let mut within = nothing_after(alloc, number + 1);
            let body = values(alloc, &tree.children, Tier::Client, &mut within)?;
            tilde(
                alloc,
                *place,
                *count,
                number,
                body.into_iter(),
                within,
                found,
            )
        }
        part => {
            let parts = values(alloc, &tree.children, part.tier_within(tier), found)?;
            finish(alloc, part, tier, parts.into_iter(), found)
        }
    }
}

#[cycle(trees)]
#[tactic(auto, using(crate::proofs::Walking::regroup))]
pub(crate) fn values(
    alloc: Global,
    trees: &Row<ParseTree>,
    tier: Tier,
    found: &mut Found,
) -> Result<Vec<Value>, Fault>
    ensures { GivesItems result (found_of found.new) (all_made (map made_by trees.now) tier (found_of found.old)) }
{
    let mut made = Vec::new(alloc);
    for tree in trees.items() {
        push(&mut made, value(alloc, tree, tier, found)?)?;
    }
    Ok(made)
}

ghost use Rattle.std.specs.Prelude.{◌≡◌, flat_map, true, IfOk};
ghost use Rattle.mt_eval_meaning.specs.Free.{finding, free_of};
ghost use Rattle.mt_resolve_free.specs.Tildes.{NamesTildes, names_at, next_names};
ghost use Rattle.mt_syntax.specs.Fold.{on_expr};

use crate::names::{push_name, without};
use crate::walk::{exprs, function};
use mt_syntax::{Expr, Function, Tilde};
use mt_tree::{NoMemory, Row, Text, push};
use std::alloc::Global;
use std::marker::Model;

/// The names of tildes, from which those that are free in functions come. Contracts see the tildes.
#[derive(Drop)]
pub struct FreeNames {
    tildes: Row<Tilde>,
    // The names in the dollars of each tilde, by its number.
    names: Row<Row<Text>>,
}

impl Model for FreeNames {
    ghost use Rattle.std.specs.Prelude.{List};
    ghost use Rattle.std.specs.Coded.{codes};
    ghost use Rattle.mt_resolve_free.specs.Tildes.{NamesTildes};
    ghost use Rattle.mt_syntax.specs.contracts.tree.Expr as expr;
    ghost use Rattle.mt_syntax.specs.contracts.tree.Stmt as stmt;
    ghost use Rattle.mt_syntax.specs.declared.program.Tilde.{Tilde};

    ghost Value = { List Tilde };

    ghost coded = { Prim.hlevel (codes, expr.the_row.coded, stmt.the_row.coded) };

    ghost view = { λ free. free.tildes };

    ghost invariant = { λ free. NamesTildes free.names free.tildes };
}

impl FreeNames {
    /// The names in the dollars of these tildes, whose numbers are their places. Takes time in proportion to their size, as often as
    /// they nest.
    ///
    /// # Errors
    /// `NoMemory`.
    pub fn new(alloc: Global, tildes: &Row<Tilde>) -> Result<FreeNames, NoMemory>
        ensures { IfOk result (λ free. free ≡ tildes.now) }
    {
        let names = names_of_tildes(alloc, tildes.items())?;
        Ok(FreeNames {
            tildes: tildes.share()?,
            names,
        })
    }

    /// Lends the tildes. Takes no memory.
    pub fn tildes(&self) -> &[Tilde]
        ensures { result.now ≡ self.now }
    {
        self.tildes.items()
    }

    /// The names that are free in the function, which has its own name inside where one is given. A name may stand in the list more than
    /// once.
    ///
    /// # Errors
    /// `NoMemory`.
    pub fn of(
        &self,
        alloc: Global,
        own: &Option<Text>,
        from: &Function,
    ) -> Result<Vec<Text>, NoMemory>
        ensures { IfOk result (λ names. names.items ≡ free_of self.now own.now from.now) }
    {
        let used = function(alloc, self.names.items(), from)?.into_free();
        let mut bound = Vec::new(alloc);
        match own {
            None => without(alloc, bound.as_slice(), used.as_slice()),
            Some(name) => {
                push_name(&mut bound, name)?;
                without(alloc, bound.as_slice(), used.as_slice())
            }
        }
    }
}

// The names of all tildes: those of tildes that nest more and more often, until there are no more.
fn names_of_tildes(alloc: Global, tildes: &[Tilde]) -> Result<Row<Row<Text>>, NoMemory>
    ensures { IfOk result (λ names. NamesTildes names tildes.now) }
{
    let mut names = Vec::new(alloc);
    for _level in 0..tildes.len() + 1 {
        let next = next_names(alloc, names.as_slice(), tildes)?;
        if are_same(names.as_slice(), next.as_slice()) {
            return Row::from_vec(alloc, next);
        }
        names = next;
    }
    Row::from_vec(alloc, names)
}

fn are_same(names: &[Row<Text>], others: &[Row<Text>]) -> bool
    ensures { result ≡ true → names.now ≡ others.now }
{
    names == others
}

fn next_names(
    alloc: Global,
    names: &[Row<Text>],
    tildes: &[Tilde],
) -> Result<Vec<Row<Text>>, NoMemory>
    ensures { IfOk result (λ next. next.items ≡ next_names tildes.now names.now) }
{
    let mut next = Vec::new(alloc);
    for tilde in tildes {
        let in_dollars = names_of_dollars(alloc, names, tilde.dollars.items())?;
        push(&mut next, Row::from_vec(alloc, in_dollars)?)?;
    }
    Ok(next)
}

fn names_of_dollars(
    alloc: Global,
    names: &[Row<Text>],
    dollars: &[Expr],
) -> Result<Vec<Text>, NoMemory>
    ensures { IfOk result (λ all. all.items ≡ flat_map (λ e. (on_expr (finding (names_at names.now)) e).free) dollars.now) }
{
    Ok(exprs(alloc, names, dollars)?.into_free())
}

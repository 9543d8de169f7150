ghost use Rattle.std.specs.Prelude.{◌≡◌, IfOk};
ghost use Rattle.mt_syntax.specs.Substitution.{subst};

mod expressions;
mod marks;
mod markup;
mod statements;
mod values;

use crate::program::{Code, Tilde};
use crate::substitution::statements::stmts;
use mt_tree::{Data, NoMemory, Row};
use std::alloc::Global;

/// The body of the tilde, with `Val` of the i-th value in the place of its i-th dollar, and each place 0:0. A dollar that has
/// no value stays as it is.
///
/// # Errors
/// `NoMemory`.
pub fn substitute(alloc: Global, tilde: &Tilde, values: &Row<Data>) -> Result<Code, NoMemory>
    ensures { IfOk result (λ code. code.body ≡ subst values.now tilde.now.body) }
{
    let body = stmts(alloc, &tilde.body, values.items())?;
    Ok(Code { body })
}

ghost use Rattle.std.specs.Prelude.{◌≡◌, ◌∷◌};
ghost use Rattle.mt_script_words.specs.Outcome.{Gives};
ghost use Rattle.mt_script_words.specs.Words.{mark_at};
ghost use Rattle.mt_script_tree.specs.Expressions.{function_at, own_name_at, own_name_from};
ghost use Rattle.mt_script_tree.specs.Lists.{item_step, list_by};
ghost use Rattle.mt_script_tree.specs.Reading.{stmt_at};

use crate::lists::stmts;
use mt_json::{past_comma, skip};
use mt_script_words::{CodeRefusal, first, mark};
use mt_syntax::{Function, Mark};
use mt_tree::Row;
use std::alloc::Global;

fn own_name_from<'a>(
    alloc: Global,
    b: u8,
    rest: &'a [u8],
    bytes: &'a [u8],
) -> Result<(Option<Mark>, &'a [u8]), CodeRefusal>
    requires { bytes.now ≡ b ∷ rest.now }
    ensures { Gives (λ x. (x.0, x.1.now)) result (own_name_from b rest.now) }
{
    if b == b' ' {
        let (name, rest) = mark(alloc, rest)?;
        Ok((Some(name), rest))
    } else {
        Ok((None, bytes))
    }
}

fn own_name(alloc: Global, bytes: &[u8]) -> Result<(Option<Mark>, &[u8]), CodeRefusal>
    ensures { Gives (λ x. (x.0, x.1.now)) result (own_name_at bytes.now) }
{
    let (b, rest) = first(bytes)?;
    own_name_from(alloc, b, rest, bytes)
}

fn mark_or_end(alloc: Global, bytes: &[u8]) -> Result<(Option<Mark>, &[u8]), CodeRefusal>
    ensures { Gives (λ x. (x.0, x.1.now)) result (item_step 41 mark_at bytes.now) }
{
    let (b, rest) = first(bytes)?;
    if b == b')' {
        return Ok((None, rest));
    }
    let (found, rest) = mark(alloc, past_comma(bytes))?;
    Ok((Some(found), rest))
}

fn parameters(alloc: Global, bytes: &[u8]) -> Result<(Row<Mark>, &[u8]), CodeRefusal>
    ensures { Gives (λ x. (x.0, x.1.now)) result (list_by 41 mark_at bytes.now) }
{
    let mut found = Vec::new(alloc);
    let mut rest = bytes;
    for _ in 0..bytes.len() {
        let (next, after) = mark_or_end(alloc, rest)?;
        rest = after;
        match next {
            None => return Ok((Row::from_vec(alloc, found)?, rest)),
            Some(name) => found.push(name)?,
        }
    }
    Err(CodeRefusal::NotCode)
}

/// A function behind its word.
#[cycle(read)]
pub(crate) fn function(
    alloc: Global,
    depth: u32,
    bytes: &[u8],
) -> Result<(Function, &[u8]), CodeRefusal>
    ensures { Gives (λ x. (x.0, x.1.now)) result (function_at (stmt_at depth) bytes.now) }
{
    let (name, rest) = own_name(alloc, bytes)?;
    let (parameters, rest) = parameters(alloc, skip(rest, 1))?;
    let (body, rest) = stmts(alloc, depth, skip(rest, 1))?;
    let function = Function {
        name,
        parameters,
        body,
    };
    Ok((function, rest))
}

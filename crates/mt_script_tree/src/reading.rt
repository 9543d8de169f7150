ghost use Rattle.std.specs.Prelude.{◌≡◌};
ghost use Rattle.mt_script_words.specs.Outcome.{Gives};
ghost use Rattle.mt_script_tree.specs.Reading.{stmt_at, stmt_step, stmts_at};

use crate::statements::stmt;
use mt_script_words::CodeRefusal;
use mt_syntax::Stmt;
use mt_tree::Row;
use std::alloc::Global;

fn stmt_or_end(
    alloc: Global,
    depth: u32,
    bytes: &[u8],
) -> Result<(Option<Stmt>, &[u8]), CodeRefusal>
    ensures { Gives (λ x. (x.0, x.1.now)) result (stmt_step (stmt_at depth) bytes.now) }
{
    match bytes {
        [] => Ok((None, bytes)),
        _ => {
            let (found, rest) = stmt(alloc, depth, bytes)?;
            Ok((Some(found), rest))
        }
    }
}

/// The statements that the bytes are the text of, where they are the text of code that is at most so deep; and else some
/// statements or none. Those found stand nowhere in a source, and have the form of code. A chain of keys and arguments is
/// followed over at most `depth` of them, and the recursion goes no deeper than `depth` levels.
///
/// # Errors
/// `NotCode` where nothing is found; `NoMemory`.
pub fn read_statements(alloc: Global, depth: u32, bytes: &[u8]) -> Result<Row<Stmt>, CodeRefusal>
    ensures { Gives (λ x. x) result (stmts_at depth bytes.now) }
{
    let mut found = Vec::new(alloc);
    let mut rest = bytes;
    for _ in 0..bytes.len() + 1 {
        let (next, after) = stmt_or_end(alloc, depth, rest)?;
        rest = after;
        match next {
            None => return Ok(Row::from_vec(alloc, found)?),
            Some(item) => found.push(item)?,
        }
    }
    Err(CodeRefusal::NotCode)
}

ghost use Rattle.std.specs.Prelude.{◌≡◌, ◌↔◌, [], List, IsTrue, IfOk};
ghost use Rattle.mt_tree.specs.declared.data.Data.{Data};
ghost use Rattle.mt_syntax.specs.DataLimits.{AreWithinLimits};
ghost use Rattle.mt_syntax.specs.declared.tree.Stmt.{Stmt};
ghost use Rattle.mt_stage_placement.specs.Placement.{misplaced_jumps};
ghost use Rattle.mt_stage_declared.specs.Twice.{twice_in_client};
ghost use Rattle.mt_script_words.specs.Outcome.{Gives};
ghost use Rattle.mt_script_words.specs.declared.refusal.CodeRefusal.TheVariants as refusal;
ghost use Rattle.mt_script_read.specs.CodeAt.{code_at};
ghost use Rattle.mt_script_read.specs.Reads.{Reads};

use crate::walk::stmts;
use mt_json::are_within_limits;
use mt_script_tree::read_statements;
use mt_script_words::CodeRefusal;
use mt_script_write::code_text;
use mt_stage_declared::declares_once_by_table;
use mt_stage_placement::jumps_fit;
use mt_syntax::Code;
use mt_tree::{DEPTH_LIMIT, Data, Row};
use std::alloc::Global;

// How deep code nests.
const DEPTH: u32 = DEPTH_LIMIT as u32;

// Whether code with these values keeps the limits that what finds the code doesn't keep.
fn is_within_limits(alloc: Global, code: &Code, values: &Row<Data>) -> Result<bool, CodeRefusal>
    ensures fits { IfOk result (λ fit. IsTrue fit ↔ (AreWithinLimits values.now × ((misplaced_jumps code.now.body ≡ []) × (twice_in_client code.now.body ≡ [])))) }
    ensures refused { result ≡ Err refusal.NotCode → ⊥ }
{
    let small = are_within_limits(alloc, values.items())?;
    if !small || !jumps_fit(&code.body) {
        return Ok(false);
    }
    Ok(declares_once_by_table(alloc, &code.body)?)
}

fn is_same(a: &[u8], b: &[u8]) -> bool
    ensures { IsTrue result ↔ (a.now ≡ b.now) }
{
    a == b
}

/// The code whose text the bytes are. It is at most 60 deep, no name is declared twice in one scope and each jump stands where
/// it may, no text of it has more than 1,048,576 units of UTF-16, and its values are within the limits of one list of data: 40 deep
/// each, 20,000 nodes and 262,144 bytes together. Takes time in proportion to the number of bytes, and no more than 60 levels of
/// recursion to read, whatever the bytes are; a tree that is found and is too deep has less than 2,000 levels when it is let go.
///
/// # Errors
/// `NotCode` exactly where no code within these limits has this text; `NoMemory`.
pub fn read_code(alloc: Global, bytes: &[u8]) -> Result<Code, CodeRefusal>
    ensures read { IfOk result (λ code. Reads bytes.now code.body) }
    ensures refused { result ≡ Err refusal.NotCode → (body : List Stmt) → ¬ Reads bytes.now body }
    ensures function { Gives (λ code. code.body) result (code_at bytes.now) }
{
    let body = read_statements(alloc, DEPTH, bytes)?;
    let mut values = Vec::new(alloc);
    stmts(body.items(), DEPTH, &mut values)?;
    let code = Code { body };
    let mut text = Vec::new(alloc);
    code_text(alloc, &code, &mut text)?;
    if !is_same(text.as_slice(), bytes) {
        return Err(CodeRefusal::NotCode);
    }
    let values = Row::from_vec(alloc, values)?;
    let within = is_within_limits(alloc, &code, &values)?;
    if !within {
        return Err(CodeRefusal::NotCode);
    }
    Ok(code)
}

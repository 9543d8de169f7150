ghost use Rattle.std.specs.Prelude.{◌≡◌, ◌++◌, OnOk, OnErr};
ghost use Rattle.std.specs.Io.{StartsWith};
ghost use Rattle.mt_syntax.specs.CodeText.{code_text as text_of_code};
ghost use Rattle.mt_syntax.specs.Substitution.{subst};

use crate::functions::append_stmts;
use mt_syntax::{Code, Tilde};
use mt_tree::{Data, NoMemory, Row};
use std::alloc::Global;

/// Appends the text of the code that the tilde is with these values in the place of its dollars, in UTF-8: the text of what
/// `substitute` gives.
///
/// # Errors
/// `NoMemory`; a beginning of the text may then have been appended.
#[tactic(auto, using(mt_syntax_laws::proofs::Texts::text_by_steps))]
pub fn write_code(
    alloc: Global,
    tilde: &Tilde,
    values: &Row<Data>,
    into: &mut Vec<u8>,
) -> Result<(), NoMemory>
    ensures text { OnOk result (into.new.items ≡ into.old.items ++ text_of_code (subst values.now tilde.now.body)) }
    ensures kept { OnErr result (StartsWith into.new.items into.old.items) }
{
    append_stmts(alloc, tilde.body.items(), values.items(), into)
}

/// Appends the text of code, in UTF-8.
///
/// # Errors
/// `NoMemory`; a beginning of the text may then have been appended.
#[tactic(auto, using(crate::proofs::Codes::text_of_itself))]
pub fn code_text(alloc: Global, code: &Code, into: &mut Vec<u8>) -> Result<(), NoMemory>
    ensures text { OnOk result (into.new.items ≡ into.old.items ++ text_of_code code.now.body) }
    ensures kept { OnErr result (StartsWith into.new.items into.old.items) }
{
    append_stmts(alloc, code.body.items(), &[], into)
}

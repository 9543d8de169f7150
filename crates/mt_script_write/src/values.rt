ghost use Rattle.std.specs.Prelude.{◌≡◌, ◌++◌, ℕ, List, slice_get, OnOk, OnErr};
ghost use Rattle.std.specs.Io.{StartsWith};
ghost use Rattle.mt_syntax.specs.CodeText.{expr_kind_code, value_text};
ghost use Rattle.mt_syntax.specs.DataText.{data_text as text_of};
ghost use Rattle.mt_syntax.specs.Fold.{Every};
ghost use Rattle.mt_syntax.specs.Substitution.{chosen};

use crate::literal::append_literal;
use mt_json::data_text;
use mt_tree::{Data, NoMemory, append};
use std::alloc::Global;
use std::str;

/// Appends a value: a call of `$v` with the literal of the value's tagged JSON.
///
/// # Errors
/// `NoMemory`; a beginning of the text may then have been appended.
#[tactic(auto, using(mt_tree::proofs::Fronts::front_of_front, mt_tree::proofs::Fronts::front_of_more))]
pub(crate) fn append_value(alloc: Global, datum: &Data, into: &mut Vec<u8>) -> Result<(), NoMemory>
    ensures text { OnOk result (into.new.items ≡ into.old.items ++ value_text (text_of datum.now)) }
    ensures kept { OnErr result (StartsWith into.new.items into.old.items) }
{
    let mut json = Vec::new(alloc);
    data_text(alloc, datum, &mut json)?;
    match str::from_utf8(json.as_slice()) {
        Ok(json) => {
            append(b"$v(", into)?;
            append_literal(json, into)?;
            append(b")", into)
        }
        // The text of data is UTF-8 (a law of `mt_syntax_laws`), so that this does not come.
        Err(_refused) => Err(NoMemory),
    }
}

/// Appends the value of a dollar, or nothing where it has none.
///
/// # Errors
/// `NoMemory`; a beginning of the text may then have been appended.
pub(crate) fn append_dollar(
    alloc: Global,
    values: &[Data],
    at: u32,
    into: &mut Vec<u8>,
) -> Result<(), NoMemory>
    ensures text { OnOk result (into.new.items ≡ into.old.items ++ expr_kind_code (chosen (Every (List ℕ)) at (slice_get values.now at))) }
    ensures kept { OnErr result (StartsWith into.new.items into.old.items) }
{
    match values.get(at as usize) {
        Some(datum) => append_value(alloc, datum, into),
        None => Ok(()),
    }
}

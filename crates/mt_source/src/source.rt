ghost use Rattle.std.specs.Prelude.{◌≡◌, ◌≤◌, [], IfErr, IfOk, Ok, OnOk, length};
ghost use Rattle.mt_lexer.specs.Verdict.{Reads};
ghost use Rattle.mt_stage.specs.Accepted.{broken_places};
ghost use Rattle.mt_source.specs.Sources.{IsAcceptedText, IsRefusedWith, IsSourceOf};
ghost use Rattle.mt_tree.specs.Limits.{source_limit};

use crate::parsed_is_within_limits;
use crate::refusal::SourceRefusal;
use mt_lexer::{Tokens, lex};
use mt_parser::parse;
use mt_stage::{Checked, check};
use std::alloc::Global;

/// Whether a source is accepted. It has at most 1,048,576 bytes.
///
/// # Errors
/// As [`read_source`].
pub fn check_source(alloc: Global, text: &[u8]) -> Result<(), SourceRefusal>
    requires short { length text.now ≤ source_limit }
    ensures accepted { OnOk result (IsAcceptedText text.now) }
    ensures refused { IfErr result (λ refusal. IsRefusedWith text.now refusal) }
{
    let _checked = read_source(alloc, text)?;
    Ok(())
}

/// The program of a source of at most 1,048,576 bytes, where it is accepted.
///
/// # Errors
/// The first refusal of spelling (`Spelling`), else of the grammar (`Grammar`), else of the stage rules (`Rules`), each with its place; or
/// `NoMemory` of one of them, whether or not the source is accepted.
pub fn read_source(alloc: Global, text: &[u8]) -> Result<Checked, SourceRefusal>
    requires short { length text.now ≤ source_limit }
    ensures accepted { IfOk result (λ program. IsSourceOf text.now program × (broken_places program ≡ [])) }
    ensures refused { IfErr result (λ refusal. IsRefusedWith text.now refusal) }
{
    let tokens = lex(alloc, text)?;
    read_tokens(alloc, &tokens)
}

fn read_tokens(alloc: Global, tokens: &Tokens<'_>) -> Result<Checked, SourceRefusal>
    requires short { length tokens.now.source ≤ source_limit }
    requires read { Reads tokens.now.source (Ok tokens.now) }
    ensures accepted { IfOk result (λ program. IsSourceOf tokens.now.source program × (broken_places program ≡ [])) }
    ensures refused { IfErr result (λ refusal. IsRefusedWith tokens.now.source refusal) }
{
    parsed_is_within_limits();
    let program = parse(alloc, tokens)?;
    let checked = check(alloc, program)?;
    Ok(checked)
}

//! What is true of the definitions: each function here is a law, whose contract states it and whose body is empty.

ghost use Rattle.mt_lexer.specs.Tokens.{Spelled};
ghost use Rattle.mt_lexer.specs.Verdict.{Reads};
ghost use Rattle.mt_parser.specs.Parsing.{Answers};
ghost use Rattle.mt_parser_marks.specs.Tokens.{tokens_in};
ghost use Rattle.mt_syntax.specs.ProgramLimits.{IsWithinLimits};
ghost use Rattle.mt_syntax.specs.Texts.{longest_text};
ghost use Rattle.mt_syntax.specs.declared.program.Program.{Program};
ghost use Rattle.mt_tree.specs.Limits.{source_limit};
ghost use Rattle.mt_tree.specs.declared.place.Place.{Place};
ghost use Rattle.std.specs.Prelude.{◌≤◌, length, Ok};

use mt_parser::{parsed_program_is_derived, parsed_program_is_not_too_deep};

/// The longest text of a program, in units of UTF-16, is no longer than the source of its tokens, in bytes.
pub fn texts_are_no_longer_than_source()
    ensures { (s : Spelled) (end : Place) (program : Program) → Answers (tokens_in s) end (Ok program) → longest_text program ≤ length s.source }
{}

/// The program of a source of at most 1,048,576 bytes is within the limits of the check of the stage rules.
pub fn parsed_is_within_limits()
    ensures { (s : Spelled) (end : Place) (program : Program) → length s.source ≤ source_limit → Reads s.source (Ok s) → Answers (tokens_in s) end (Ok program) → IsWithinLimits program }
{
    parsed_program_is_derived();
    parsed_program_is_not_too_deep();
    texts_are_no_longer_than_source();
}

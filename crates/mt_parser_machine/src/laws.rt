//! What is true of the token that is refused, apart from any code: the contract of each function is
//! a law.

ghost use Rattle.std.specs.Prelude.{ℕ};
ghost use Rattle.mt_grammar.specs.Token.{Tokens};
ghost use Rattle.mt_parser_machine.specs.Refused.{IsOffending, RefusedAt};

use mt_grammar::{derived_is_read, refused_begins_no_program, unrefused_begins_some_program};

/// Where a token is refused the tokens are no program, and it is the first one that no program goes on with. Where the
/// end is refused some program goes on behind all tokens.
pub fn refused_is_offending()
    ensures { (ts : Tokens) (i : ℕ) → RefusedAt ts i → IsOffending ts i }
{
    derived_is_read();
    refused_begins_no_program();
    unrefused_begins_some_program();
}

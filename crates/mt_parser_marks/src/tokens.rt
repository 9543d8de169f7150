//! The tokens of a source with their places and terminals.

ghost use Rattle.std.specs.Prelude.{◌≡◌, ◌≤◌, ℕ, List, length, IfOk, Ok};
ghost use Rattle.std.specs.List.{All};
ghost use Rattle.mt_parser_marks.specs.Views.{tokens_of};
ghost use Rattle.mt_lexer.specs.Verdict.{Reads};
ghost use Rattle.mt_parser_marks.specs.Readable.{IsReadable};
ghost use Rattle.mt_parser_marks.specs.Tokens.{tokens_in, HasTerminal};
ghost use Rattle.mt_tree.specs.Limits.{source_limit};

use crate::mark::Mark;
use crate::place::Cursor;
use crate::table::terminal_of;
use crate::token::Token;
use mt_lexer::Tokens;
use mt_tree::Place;
use std::alloc::{AllocError, Global};

/// The tokens of the source in its order, each with its text, the place of its first character and
/// the terminal that it is. The source has at most 1,048,576 bytes. Where the tokens stand in the
/// order of the source, as the lexer gives them, the source is read once. Of the tokens that the
/// lexer gives, each text is UTF-8, and that of a number is decimal digits which spell at most
/// 9007199254740991.
///
/// # Errors
/// `AllocError`.
pub fn tokens_of<'a>(alloc: Global, tokens: &Tokens<'a>) -> Result<Vec<Token<'a>>, AllocError>
    requires small { length tokens.now.source ≤ source_limit }
    ensures tokens { IfOk result (λ list. tokens_of list.items ≡ tokens_in tokens.now) }
    ensures terminals { IfOk result (λ list. All HasTerminal list.items) }
    ensures readable { IfOk result (λ list. (source : List ℕ) → Reads source (Ok tokens.now) → All IsReadable (tokens_of list.items)) }
{
    let source = tokens.source();
    let mut list = Vec::new(alloc);
    let mut cursor = Cursor {
        at: 0,
        place: Place { line: 1, column: 1 },
    };
    for token in tokens.list() {
        cursor = cursor.moved(source, token.span.start);
        list.push(Token {
            kind: token.kind,
            terminal: terminal_of(token.kind, token.text),
            mark: Mark {
                place: cursor.place,
                text: token.text,
            },
        })?;
    }
    Ok(list)
}

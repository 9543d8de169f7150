ghost use Rattle.std.specs.Prelude.{◌≡◌, ◌≤◌, All, IfOk, Some, length};
ghost use Rattle.mt_grammar.specs.Machine.{parsed};
ghost use Rattle.mt_grammar.specs.Token.{terminal};
ghost use Rattle.mt_parser_marks.specs.Views.{token_of, tokens_of};
ghost use Rattle.mt_parser_marks.specs.NodeViews.{nodes_of};
ghost use Rattle.mt_parser_machine.specs.Refused.{Refuses};

use crate::focus::Focus;
use crate::machine::Machine;
use crate::refusal::ReadRefusal;
use mt_parser_marks::{Node, Token};
use std::alloc::Global;

/// The nodes of the program that the tokens are, each behind those in it.
///
/// Each token has to name the terminal that its kind and text make it, and there may be at most 200,000 of them.
///
/// Tokens that are no program give `At` with the number, from 0, of the first token that no program goes on with, or
/// with the number of all tokens where a program can't end there. `NoMemory` comes where memory runs out, and nothing
/// else is answered.
pub fn read<'a>(alloc: Global, tokens: &[Token<'a>]) -> Result<Vec<Node<'a>>, ReadRefusal>
    requires classified { All (λ t. t.terminal ≡ terminal (token_of t)) tokens.now }
    requires few { length tokens.now ≤ 200000 }
    ensures read { IfOk result (λ nodes. parsed (tokens_of tokens.now) ≡ Some (nodes_of nodes.items)) }
    ensures refused { Refuses (tokens_of tokens.now) result }
{
    let mut machine = Machine::new(alloc)?;
    let mut focus = Focus::Statement;
    for (at, token) in tokens.iter().enumerate() {
        match machine.feed(*token, focus)? {
            Some(next) => focus = next,
            None => return Err(ReadRefusal::At(at)),
        }
    }
    if machine.end(focus)? {
        Ok(machine.nodes.into_nodes())
    } else {
        Err(ReadRefusal::At(tokens.len()))
    }
}

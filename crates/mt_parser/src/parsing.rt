ghost use Rattle.std.specs.Prelude.{◌≡◌, Ok, ◌≤◌, length, drop};
ghost use Rattle.mt_lexer.specs.Verdict.{Reads};
ghost use Rattle.mt_parser_marks.specs.Tokens.{tokens_in};
ghost use Rattle.mt_tree.specs.Place.{place_of};
ghost use Rattle.mt_parser.specs.Parsing.{Answers, place_or};
ghost use Rattle.mt_parser_marks.specs.Views as marks;
ghost use Rattle.mt_tree.specs.Limits.{source_limit};

use crate::first_too_deep;
use crate::refusal::ParseRefusal;
use mt_grammar::read_is_derived;
use mt_lexer::Tokens;
use mt_parser_builder::{build, nodes_are_few};
use mt_parser_machine::{ReadRefusal, read, refused_is_offending};
use mt_parser_marks::{Token, end_place, tokens_of};
use mt_syntax::Program;
use mt_tree::{DEPTH_LIMIT, Place};
use std::alloc::Global;

/// The program that the tokens of a source are. The tokens are those that the lexer gave of a source of at most 1,048,576 bytes.
///
/// # Errors
/// - `Syntax` where the grammar derives no tree from the tokens, with the place of the first token that no program goes on with, or of the
///   end of the source where every token can stand.
/// - `TooDeep` where the tree is deeper than 60, with the place of its first statement or expression at depth 61.
/// - `NoMemory`.
pub fn parse(alloc: Global, tokens: &Tokens<'_>) -> Result<Program, ParseRefusal>
    requires small { length tokens.now.source ≤ source_limit }
    requires read { Reads tokens.now.source (Ok tokens.now) }
    ensures { Answers (tokens_in tokens.now) (place_of tokens.now.source (length tokens.now.source)) result }
{
    refused_is_offending();
    read_is_derived();
    nodes_are_few();
    let source = tokens.source();
    let list = tokens_of(alloc, tokens)?;
    let nodes = match read(alloc, &list) {
        Ok(nodes) => nodes,
        Err(ReadRefusal::At(number)) => {
            return Err(ParseRefusal::Syntax(place_at(&list, number, source)));
        }
        Err(ReadRefusal::NoMemory) => return Err(ParseRefusal::NoMemory),
    };
    match first_too_deep(alloc, &nodes, DEPTH_LIMIT)? {
        Some(place) => Err(ParseRefusal::TooDeep(place)),
        None => Ok(build(alloc, &nodes)?),
    }
}

// The place of the token with that number, or of the end of the source.
fn place_at(tokens: &[Token<'_>], number: usize, source: &[u8]) -> Place
    requires small { length source.now ≤ source_limit }
    ensures { result ≡ place_or (place_of source.now (length source.now)) (drop number (marks.tokens_of tokens.now)) }
{
    if number < tokens.len() {
        tokens[number].mark.place
    } else {
        end_place(source)
    }
}

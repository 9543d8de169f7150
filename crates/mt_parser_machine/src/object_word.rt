//! The words and signs of objects, and the word behind a dot.

ghost use Rattle.std.specs.Prelude.{◌≡◌, true};
ghost use Rattle.mt_grammar.specs.Machine as spec;
ghost use Rattle.mt_grammar.specs.Token as grammar_token;
ghost use Rattle.mt_grammar.specs.Stack as f;
ghost use Rattle.mt_parser_marks.specs.Views.{token_of};
ghost use Rattle.mt_parser_machine.specs.Views.{level_of};
ghost use Rattle.mt_parser_machine.specs.Steps.{Steps};
ghost use Rattle.mt_parser_machine.specs.Families.{is_object_word};

use crate::focus::Focus;
use crate::level::Level;
use crate::machine::{Machine, Step};
use mt_grammar::Terminal;
use mt_parser_marks::{Node, Token};
use mt_tree::Place;

// A name, or a reserved word, which is a name behind a dot and as a key.
fn is_word(terminal: Terminal) -> bool
    ensures { result ≡ grammar_token.is_word terminal }
{
    matches!(
        terminal,
        Terminal::Name
            | Terminal::Constant(_)
            | Terminal::Catch
            | Terminal::Else
            | Terminal::For
            | Terminal::Function
            | Terminal::If
            | Terminal::Jump(_)
            | Terminal::Return
            | Terminal::Service
            | Terminal::Throw
            | Terminal::Try
            | Terminal::Typeof
            | Terminal::Declare(_)
            | Terminal::While
            | Terminal::OtherWord
    )
}

impl<'a> Machine<'a> {
    // A key, or the end of the object.
    fn key(&mut self, token: Token<'a>, place: Place, count: usize) -> Step
        ensures { Steps result (spec.word_by (token_of token.entry) (f.ObjectKey place count) token.entry.terminal self.old.stack self.old.nodes) self.new }
    {
        match token.terminal {
            Terminal::CloseBrace => {
                return self.finish(Node::Object(place, count), Focus::Value(place, false));
            }
            Terminal::Text => self.nodes.push(Node::QuotedKey(token.mark))?,
            other => {
                if !is_word(other) {
                    return Ok(None);
                }
                self.nodes.push(Node::Word(token.mark))?;
            }
        }
        self.open(Level::ObjectColon(place, count), Focus::Word)
    }

    /// A token that the level of an object or of a dot names.
    pub fn object_word(&mut self, token: Token<'a>, top: Level<'a>) -> Step
        ensures { is_object_word (level_of top.entry) ≡ true → Steps result (spec.word_by (token_of token.entry) (level_of top.entry) token.entry.terminal self.old.stack self.old.nodes) self.new }
    {
        match top {
            Level::Dot(start) => {
                if !is_word(token.terminal) {
                    return Ok(None);
                }
                self.nodes.push(Node::Property(token.mark))?;
                self.finish(Node::Index(start), Focus::Value(start, true))
            }
            Level::ObjectKey(place, count) => self.key(token, place, count),
            Level::ObjectColon(place, count) => {
                if !matches!(token.terminal, Terminal::Colon) {
                    return Ok(None);
                }
                self.open(Level::ObjectValue(place, count), Focus::Operand)
            }
            _ => Ok(None),
        }
    }
}

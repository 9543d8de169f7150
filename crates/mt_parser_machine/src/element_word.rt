//! What stands in the tags of an element and between them.

ghost use Rattle.std.specs.Prelude.{◌≡◌, ◌+◌, ◌≤◌, true};
ghost use Rattle.mt_grammar.specs.Machine as spec;
ghost use Rattle.mt_grammar.specs.Stack as f;
ghost use Rattle.mt_parser_marks.specs.Views.{mark_of, token_of};
ghost use Rattle.mt_parser_machine.specs.Views.{level_of};
ghost use Rattle.mt_parser_machine.specs.Steps.{Steps};
ghost use Rattle.mt_parser_machine.specs.Counts.{count_of, counted};
ghost use Rattle.mt_parser_machine.specs.Families.{is_element_word};

use crate::focus::Focus;
use crate::level::Level;
use crate::machine::{Machine, Step};
use crate::tag::{closes, tag_mark};
use mt_grammar::Terminal;
use mt_parser_marks::{Mark, Node, Token};
use mt_tree::tag_void;

impl<'a> Machine<'a> {
    // In a tag with `count` attributes; the flag says whether a `=` may follow.
    fn attribute(&mut self, token: Token<'a>, tag: Mark<'a>, count: usize, named: bool) -> Step
        requires { count + counted self.old.stack ≤ 1000000 }
        ensures { Steps result (spec.word_by (token_of token.entry) (f.Attributes (mark_of tag.entry) count named) token.entry.terminal self.old.stack self.old.nodes) self.new }
    {
        match token.terminal {
            Terminal::AttributeName => {
                self.nodes.push(Node::AttributeName(token.mark))?;
                self.open(Level::Attributes(tag, count + 1, true), Focus::Word)
            }
            Terminal::Assign(None) => {
                if !named {
                    return Ok(None);
                }
                self.open(Level::AttributeValue(tag, count), Focus::Word)
            }
            Terminal::TagSelfEnd => {
                self.nodes.push(Node::Element(tag.place, count, 0))?;
                self.settle(tag.place)
            }
            Terminal::TagEnd => {
                if tag_void(tag.text) {
                    self.nodes.push(Node::Element(tag.place, count, 0))?;
                    return self.settle(tag.place);
                }
                self.open(Level::Children(tag, count, 0), Focus::Word)
            }
            _ => Ok(None),
        }
    }

    // Behind the `=` of an attribute.
    fn attribute_value(&mut self, token: Token<'a>, tag: Mark<'a>, count: usize) -> Step
        ensures { Steps result (spec.word_by (token_of token.entry) (f.AttributeValue (mark_of tag.entry) count) token.entry.terminal self.old.stack self.old.nodes) self.new }
    {
        match token.terminal {
            Terminal::Quoted => {
                self.nodes.push(Node::AttributeQuoted(token.mark))?;
                self.open(Level::Attributes(tag, count, false), Focus::Word)
            }
            Terminal::TildeOpen => {
                self.open_in(
                    Level::AttributeValue(tag, count),
                    Level::Tilde(token.mark.place, 0),
                    Focus::Statement,
                )
            }
            Terminal::DollarOpen => {
                self.open_in(
                    Level::AttributeValue(tag, count),
                    Level::Dollar(token.mark.place),
                    Focus::Operand,
                )
            }
            _ => Ok(None),
        }
    }

    // Behind `count` children of an element with `attributes` attributes.
    fn child(&mut self, token: Token<'a>, tag: Mark<'a>, attributes: usize, count: usize) -> Step
        requires { attributes + count + counted self.old.stack ≤ 1000000 }
        ensures { Steps result (spec.word_by (token_of token.entry) (f.Children (mark_of tag.entry) attributes count) token.entry.terminal self.old.stack self.old.nodes) self.new }
    {
        let parent = Level::Children(tag, attributes, count);
        match token.terminal {
            Terminal::ChildText => {
                self.nodes.push(Node::ChildText(token.mark))?;
                self.open(Level::Children(tag, attributes, count + 1), Focus::Word)
            }
            Terminal::TagOpen => {
                let inner = tag_mark(token);
                self.nodes.push(Node::Word(inner))?;
                self.open_in(parent, Level::Attributes(inner, 0, false), Focus::Word)
            }
            Terminal::TildeOpen => {
                self.open_in(parent, Level::Tilde(token.mark.place, 0), Focus::Statement)
            }
            Terminal::DollarOpen => {
                self.open_in(parent, Level::Dollar(token.mark.place), Focus::Operand)
            }
            Terminal::CloseTag => {
                if !closes(token, tag) {
                    return Ok(None);
                }
                self.nodes
                    .push(Node::Element(tag.place, attributes, count))?;
                self.settle(tag.place)
            }
            _ => Ok(None),
        }
    }

    /// A token that the level of an element names.
    pub fn element_word(&mut self, token: Token<'a>, top: Level<'a>) -> Step
        requires { count_of (level_of top) + counted self.old.stack ≤ 1000000 }
        ensures { is_element_word (level_of top.entry) ≡ true → Steps result (spec.word_by (token_of token.entry) (level_of top.entry) token.entry.terminal self.old.stack self.old.nodes) self.new }
    {
        match top {
            Level::Attributes(tag, count, named) => self.attribute(token, tag, count, named),
            Level::AttributeValue(tag, count) => self.attribute_value(token, tag, count),
            Level::Children(tag, attributes, count) => self.child(token, tag, attributes, count),
            _ => Ok(None),
        }
    }
}

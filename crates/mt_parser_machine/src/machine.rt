use crate::focus::Focus;
use crate::level::Level;
use crate::output::Output;
use crate::stack::Stack;
use mt_parser_marks::{Node, Token};
use std::alloc::{AllocError, Global};

/// What is read next, or nothing where the token is refused.
pub type Step = Result<Option<Focus>, AllocError>;

/// What is open, and the nodes that are finished.
///
/// Each token adds at most two to what the open levels count, so that with 200,000 tokens no count is above 1,000,000:
/// the methods ask for that, and none overflows.
#[derive(Drop)]
pub struct Machine<'a> {
    pub stack: Stack<'a>,
    pub nodes: Output<'a>,
}

impl<'a> Machine<'a> {
    ghost use Rattle.std.specs.Prelude.{◌≡◌, ◌∷◌, ◌++◌, [], IfOk};
    ghost use Rattle.mt_grammar.specs.Machine.{at};
    ghost use Rattle.mt_grammar.specs.Grammar.{mark};
    ghost use Rattle.mt_grammar.specs.Nodes as n;
    ghost use Rattle.mt_grammar.specs.Stack as f;
    ghost use Rattle.mt_parser_marks.specs.Views.{token_of};
    ghost use Rattle.mt_parser_marks.specs.NodeViews.{node_of};
    ghost use Rattle.mt_parser_machine.specs.Steps.{Steps};
    ghost use Rattle.mt_parser_machine.specs.Views.{focus_of, level_of};

    /// In front of the first token.
    pub fn new(alloc: Global) -> Result<Machine<'a>, AllocError>
        ensures { IfOk result (λ m. m ≡ record { stack = f.Program 0 ∷ []; nodes = [] }) }
    {
        let mut stack = Stack::new(alloc);
        stack.push(Level::Program(0))?;
        Ok(Machine {
            stack,
            nodes: Output::new(alloc),
        })
    }

    /// A level more, and what is read in it.
    pub fn open(&mut self, level: Level<'a>, focus: Focus) -> Step
        ensures { Steps result (at (focus_of focus) (level_of level.entry ∷ self.old.stack) self.old.nodes) self.new }
    {
        self.stack.push(level)?;
        Ok(Some(focus))
    }

    /// A level and another in it, and what is read there.
    pub fn open_in(&mut self, outer: Level<'a>, inner: Level<'a>, focus: Focus) -> Step
        ensures { Steps result (at (focus_of focus) (level_of inner.entry ∷ level_of outer.entry ∷ self.old.stack) self.old.nodes) self.new }
    {
        self.stack.push(outer)?;
        self.open(inner, focus)
    }

    /// A node more, and what is read behind it.
    pub fn finish(&mut self, node: Node<'a>, focus: Focus) -> Step
        ensures { Steps result (at (focus_of focus) self.old.stack (self.old.nodes ++ node_of node.entry ∷ [])) self.new }
    {
        self.nodes.push(node)?;
        Ok(Some(focus))
    }

    /// A name, and behind it a level that names its next token.
    pub fn open_named(&mut self, token: Token<'a>, level: Level<'a>) -> Step
        ensures { Steps result (at f.Word (level_of level.entry ∷ self.old.stack) (self.old.nodes ++ n.Word (mark (token_of token.entry)) ∷ [])) self.new }
    {
        self.nodes.push(Node::Word(token.mark))?;
        self.open(level, Focus::Word)
    }
}

use crate::level::Level;
use std::alloc::{AllocError, Global};
use std::marker::Model;

/// The levels that are open, the innermost first.
#[derive(Drop)]
pub struct Stack<'a> {
    items: Vec<Level<'a>>,
}

impl<'a> Model for Stack<'a> {
    ghost use Rattle.std.specs.Prelude.{List};
    ghost use Rattle.mt_grammar.specs.Stack.{Level};
    ghost use Rattle.mt_parser_machine.specs.Views.{tops};

    ghost Value = { List Level };

    ghost view = { λ s. tops s.items.items };
}

impl<'a> Stack<'a> {
    ghost use Rattle.std.specs.Prelude.{◌≡◌, ◌∷◌, [], OnOk, IfSome, MatchOption, length, ◌+◌};
    ghost use Rattle.mt_parser_machine.specs.Views.{level_of};
    ghost use Rattle.mt_parser_machine.specs.Counts.{count_of, counted};

    /// Nothing is open.
    #[tactic(auto, unfolding(crate::specs::Views::tops))]
    pub fn new(alloc: Global) -> Stack<'a>
        ensures { result ≡ [] }
    {
        Stack {
            items: Vec::new(alloc),
        }
    }

    /// A level more, in the others.
    pub fn push(&mut self, level: Level<'a>) -> Result<(), AllocError>
        ensures top { OnOk result (self.new ≡ level_of level.entry ∷ self.old) }
        ensures counts { OnOk result (counted self.new ≡ count_of (level_of level.entry) + counted self.old) }
    {
        self.items.push(level)?;
        Ok(())
    }

    /// Takes the innermost level away.
    pub fn pop(&mut self) -> Option<Level<'a>>
        ensures top { MatchOption result ((self.old ≡ []) × (self.new ≡ [])) (λ x. self.old ≡ level_of x ∷ self.new) }
        ensures counts { IfSome result (λ x. counted self.old ≡ count_of (level_of x) + counted self.new) }
        ensures shorter { IfSome result (λ x. length self.old ≡ length self.new + 1) }
    {
        self.items.pop()
    }
}

ghost use Rattle.std.specs.Prelude.{◌≡◌, ◌↔◌, ◌∷◌, [], IsTrue, MatchOption, OnOk, length};

use mt_tree::{Buffer, NoMemory};
use std::alloc::Global;
use std::marker::Model;

/// A stack. Contracts see its items, the topmost first.
#[derive(Drop)]
pub struct Stack<T> {
    items: Buffer<T>,
}

impl<T> Model for Stack<T> {
    ghost use Rattle.std.specs.Prelude.{List, reverse};
    ghost use Rattle.std.specs.Coded.{coded_list};

    ghost Value = { List T };

    ghost coded = { coded_list T.code };

    ghost view = { λ stack. reverse stack.items };
}

impl<T> Stack<T> {
    /// An empty stack, which takes its memory from `alloc` when it grows. Takes none itself.
    pub fn new(alloc: Global) -> Stack<T>
        ensures { result ≡ [] }
    {
        Stack {
            items: Buffer::new(alloc),
        }
    }

    /// The number of its items. Takes no memory.
    pub fn len(&self) -> usize
        ensures { result ≡ length self.now }
    {
        self.items.items().len()
    }

    /// Whether there is none. Takes no memory.
    pub fn is_empty(&self) -> bool
        ensures { IsTrue result ↔ (self.now ≡ []) }
    {
        self.items.items().is_empty()
    }

    /// Takes the topmost item out; `None` exactly where there is none. Takes no memory.
    pub fn pop(&mut self) -> Option<T>
        ensures { MatchOption result ((self.old ≡ []) × (self.new ≡ [])) (λ top. self.old ≡ top ∷ self.new) }
    {
        self.items.pop()
    }
}

impl<T: Drop> Stack<T> {
    /// Puts the item on top.
    ///
    /// # Errors
    /// `NoMemory`; the item is then dropped.
    pub fn push(&mut self, item: T) -> Result<(), NoMemory>
        ensures { OnOk result (self.new ≡ item ∷ self.old) }
    {
        self.items.push(item)
    }
}

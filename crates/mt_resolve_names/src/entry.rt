//! The names that are bound at one entry, of a function's body or of a block.

ghost use Rattle.std.specs.Prelude.{◌≡◌, ◌∷◌, [], ◌++◌, length, is_some, map, IfOk, OnOk};
ghost use Rattle.mt_eval_meaning.specs.Scopes as spec;
ghost use Rattle.mt_eval_meaning.specs.Hoisting as hoisting;

use crate::scope::{push_all, sum};
use crate::slot::Slot;
use mt_syntax::{Decl, Mark, Stmt, StmtKind};
use mt_tree::{NoMemory, Text, VarKind, push};
use std::alloc::Global;
use std::marker::Model;

/// The slots of one entry. Contracts see the size of the activation behind which they stand, and the slots, the newest first.
#[derive(Drop)]
pub struct Entry {
    // The size of the activation.
    size: usize,
    // Oldest first.
    slots: Vec<Slot>,
}

impl Model for Entry {
    ghost use Rattle.std.specs.Prelude.{ℕ, reverse};
    ghost use Rattle.mt_eval_meaning.specs.Scopes.{Scope};

    ghost Value = { ℕ × Scope };

    ghost view = { λ entry. (entry.size, reverse entry.slots.items) };
}

impl Entry {
    /// No names, behind an activation of that size. Takes no memory.
    pub fn new(alloc: Global, size: usize) -> Entry
        ensures { result ≡ (size, []) }
    {
        Entry {
            size,
            slots: Vec::new(alloc),
        }
    }

    /// The number of slots. Takes no memory.
    pub fn len(&self) -> usize
        ensures { result ≡ length self.now.1 }
    {
        self.slots.len()
    }

    // Whether the entry binds the name.
    fn binds(&self, name: &Text) -> bool
        ensures { result ≡ is_some (spec.find_slot name.now self.now.1) }
    {
        self.slots.iter().any(|slot| *name == slot.name)
    }

    /// Binds the name, in a new slot behind the others.
    ///
    /// # Errors
    /// `NoMemory`.
    pub fn bind(&mut self, name: &Text, constant: bool) -> Result<(), NoMemory>
        ensures { OnOk result (self.new ≡ (self.old.0, spec.with_name self.old.0 name.now constant self.old.1)) }
    {
        let slot = Slot {
            name: name.share()?,
            slot: sum(self.size, self.slots.len())?,
            constant,
        };
        push(&mut self.slots, slot)
    }

    // Binds the name where the entry doesn't yet.
    fn bind_once(&mut self, name: &Text) -> Result<(), NoMemory>
        ensures { OnOk result (self.new ≡ (self.old.0, spec.with_names_once self.old.0 (name.now ∷ []) self.old.1)) }
    {
        if self.binds(name) {
            return Ok(());
        }
        self.bind(name, false)
    }

    /// Binds the own name of a function as a constant, where it has one and this is given inside. The entry is still empty.
    ///
    /// # Errors
    /// `NoMemory`.
    pub fn bind_own(&mut self, own: &Option<Text>, given: bool) -> Result<(), NoMemory>
        requires { self.old.1 ≡ [] }
        ensures { OnOk result (self.new ≡ (self.old.0, spec.with_own_name self.old.0 own.now given)) }
    {
        match own {
            None => Ok(()),
            Some(name) => { if given { self.bind(name, true) } else { Ok(()) } }
        }
    }

    /// Binds each of the parameters, in order.
    ///
    /// # Errors
    /// `NoMemory`.
    pub fn bind_parameters(&mut self, marks: &[Mark]) -> Result<(), NoMemory>
        ensures { OnOk result (self.new ≡ (self.old.0, spec.with_names self.old.0 (hoisting.names_of marks.entry.now) self.old.1)) }
    {
        let mut left = marks;
        while let [mark, rest @ ..] = left {
            self.bind(&mark.name, false)?;
            left = rest;
        }
        Ok(())
    }

    /// Binds those of the names that the entry doesn't bind yet, each once, in order.
    ///
    /// # Errors
    /// `NoMemory`.
    pub fn bind_names_once(&mut self, names: &[Text]) -> Result<(), NoMemory>
        ensures { OnOk result (self.new ≡ (self.old.0, spec.with_names_once self.old.0 names.entry.now self.old.1)) }
    {
        let mut left = names;
        while let [name, rest @ ..] = left {
            self.bind_once(name)?;
            left = rest;
        }
        Ok(())
    }

    /// Binds the names that the statements declare by `let` and `const`, those in inner statements left aside.
    ///
    /// # Errors
    /// `NoMemory`.
    pub fn bind_lexicals(&mut self, items: &[Stmt]) -> Result<(), NoMemory>
        ensures { OnOk result (self.new ≡ (self.old.0, spec.with_lexicals self.old.0 (hoisting.lexicals items.entry.now) self.old.1)) }
    {
        let mut left = items;
        while let [item, rest @ ..] = left {
            self.bind_statement(item)?;
            left = rest;
        }
        Ok(())
    }

    fn bind_statement(&mut self, item: &Stmt) -> Result<(), NoMemory>
        ensures { OnOk result (self.new ≡ (self.old.0, spec.with_lexicals self.old.0 (hoisting.lexicals_of_kind (hoisting.kind_of item.now)) self.old.1)) }
    {
        match &item.kind {
            StmtKind::Var(word, decls) => self.bind_decls(*word, decls.items()),
            _ => Ok(()),
        }
    }

    // Binds the names, where the word is `let` or `const`.
    fn bind_decls(&mut self, word: VarKind, decls: &[Decl]) -> Result<(), NoMemory>
        ensures { OnOk result (self.new ≡ (self.old.0, spec.with_lexicals self.old.0 (hoisting.lexicals_by_word word decls.entry.now) self.old.1)) }
    {
        match word {
            VarKind::Var => Ok(()),
            VarKind::Let => self.bind_all(false, decls),
            VarKind::Const => self.bind_all(true, decls),
        }
    }

    fn bind_all(&mut self, constant: bool, decls: &[Decl]) -> Result<(), NoMemory>
        ensures { OnOk result (self.new ≡ (self.old.0, spec.with_lexicals self.old.0 (map (λ d. record { name = hoisting.name_of_decl d; constant = constant }) decls.entry.now) self.old.1)) }
    {
        let mut left = decls;
        while let [item, rest @ ..] = left {
            self.bind(&item.name.name, constant)?;
            left = rest;
        }
        Ok(())
    }

    /// The scope inside the entry, where the other scope is around it.
    ///
    /// # Errors
    /// `NoMemory`.
    pub fn inside(self, alloc: Global, outer: &[Slot]) -> Result<Vec<Slot>, NoMemory>
        ensures { IfOk result (λ scope. scope.items ≡ self.1 ++ outer.now) }
    {
        let mut left = self.slots.as_slice();
        let mut scope = Vec::new(alloc);
        while let [rest @ .., slot] = left {
            push(&mut scope, slot.share()?)?;
            left = rest;
        }
        push_all(&mut scope, outer)?;
        Ok(scope)
    }
}

use crate::budget::Budget;
use crate::exit::Done;
use crate::named_value::NamedValue;
use mt_tree::{NoMemory, Text};
use mt_value::{Native, Store, Value};
use std::alloc::Global;

/// What lies outside the language, on one of the tiers. The meaning of each call is a function of the host, of the call's
/// values, of the store without what functions hold, and of the budget. A call adds cells behind those of the store, none of which it
/// changes, and leaves no more budget than it was given. Each call answers `NoMemory` where memory runs out.
pub trait Host {
    ghost use Rattle.std.specs.Prelude.{◌≡◌, IfOk};
    ghost use Rattle.mt_eval_meaning.specs.Host.{Meaning, answered, seen};

    ghost meaning: { Meaning Self };

    /// Calls a builtin with its arguments in order. `Native::Event` stands for the name `event`, and is called without
    /// arguments.
    ///
    /// # Errors
    /// `NoMemory`.
    fn native(
        &mut self,
        alloc: Global,
        which: Native,
        arguments: &[Value],
        store: &mut Store,
        budget: &mut Budget,
    ) -> Result<Done, NoMemory>
        ensures { IfOk result (λ done. (done, store.new, self.new, budget.new.left) ≡ answered (meaning.native which arguments.now self.old (seen store.old) budget.old.left) store.old budget.old.left) };

    /// Calls a method of a value that is the host's own.
    ///
    /// # Errors
    /// `NoMemory`.
    fn method(
        &mut self,
        alloc: Global,
        base: &Value,
        key: &Text,
        arguments: &[Value],
        store: &mut Store,
        budget: &mut Budget,
    ) -> Result<Done, NoMemory>
        ensures { IfOk result (λ done. (done, store.new, self.new, budget.new.left) ≡ answered (meaning.method base.now key.now arguments.now self.old (seen store.old) budget.old.left) store.old budget.old.left) };

    /// Reads a property of a value that is the host's own.
    ///
    /// # Errors
    /// `NoMemory`.
    fn get(
        &mut self,
        alloc: Global,
        base: &Value,
        key: &Text,
        store: &mut Store,
        budget: &mut Budget,
    ) -> Result<Done, NoMemory>
        ensures { IfOk result (λ done. (done, store.new, self.new, budget.new.left) ≡ answered (meaning.get base.now key.now self.old (seen store.old) budget.old.left) store.old budget.old.left) };

    /// Writes a property of a value that is the host's own.
    ///
    /// # Errors
    /// `NoMemory`.
    fn set(
        &mut self,
        alloc: Global,
        base: &Value,
        key: &Text,
        value: &Value,
        store: &mut Store,
        budget: &mut Budget,
    ) -> Result<Done, NoMemory>
        ensures { IfOk result (λ done. (done, store.new, self.new, budget.new.left) ≡ answered (meaning.set base.now key.now value.now self.old (seen store.old) budget.old.left) store.old budget.old.left) };

    /// Calls a service, by its name: the value is a frame, which holds the name and the arguments.
    ///
    /// # Errors
    /// `NoMemory`.
    fn frame(
        &mut self,
        alloc: Global,
        service: &Text,
        arguments: &[Value],
        store: &mut Store,
        budget: &mut Budget,
    ) -> Result<Done, NoMemory>
        ensures { IfOk result (λ done. (done, store.new, self.new, budget.new.left) ≡ answered (meaning.frame service.now arguments.now self.old (seen store.old) budget.old.left) store.old budget.old.left) };

    /// Makes client code of a tilde, by its number, and the values of its dollars in text order.
    ///
    /// # Errors
    /// `NoMemory`.
    fn staged(
        &mut self,
        alloc: Global,
        tilde: u32,
        values: &[Value],
        store: &mut Store,
        budget: &mut Budget,
    ) -> Result<Done, NoMemory>
        ensures { IfOk result (λ done. (done, store.new, self.new, budget.new.left) ≡ answered (meaning.staged tilde values.now self.old (seen store.old) budget.old.left) store.old budget.old.left) };

    /// Makes an element of its tag, its attributes and its children, in text order.
    ///
    /// # Errors
    /// `NoMemory`.
    fn element(
        &mut self,
        alloc: Global,
        tag: &Text,
        attributes: &[NamedValue],
        children: &[Value],
        store: &mut Store,
        budget: &mut Budget,
    ) -> Result<Done, NoMemory>
        ensures { IfOk result (λ done. (done, store.new, self.new, budget.new.left) ≡ answered (meaning.element tag.now attributes.now children.now self.old (seen store.old) budget.old.left) store.old budget.old.left) };
}

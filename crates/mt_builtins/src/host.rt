ghost use Rattle.std.specs.Prelude.{◌≡◌, Err, codes, slice_get, IfOk, OnOk};
ghost use Rattle.mt_builtins.specs.Builtins.{text_of};
ghost use Rattle.mt_builtins.specs.Making.{ended};
ghost use Rattle.mt_ops.specs.declared.error.ErrorKind.TheVariants as error;
ghost use Rattle.mt_builtins.specs.Plain as spec;

use crate::{append_line, method, native, no_property, refuse, text_argument};
use mt_eval_meaning::{Budget, Done, Host, NamedValue};
use mt_ops::{ErrorKind, Refusal};
use mt_tree::{NoMemory, Text};
use mt_value::{Native, Store, Value};
use std::alloc::Global;
use std::marker::Model;

/// A host that has the builtins of both tiers and writes a log, and keeps whether it was asked for what it does not make. Contracts see the
/// lines of the log, in bytes, and that.
#[derive(Drop)]
pub struct PlainHost {
    lines: Vec<u8>,
    beyond: bool,
}

impl Model for PlainHost {
    ghost use Rattle.mt_builtins.specs.Plain.{Plain};

    ghost Value = { Plain };

    ghost view = { λ host. record { log = host.lines.items; beyond = host.beyond } };
}

impl PlainHost {
    /// A host with an empty log, which takes its memory from `alloc` when it grows. Takes none itself.
    pub fn new(alloc: Global) -> PlainHost
        ensures { result ≡ spec.fresh }
    {
        PlainHost {
            lines: Vec::new(alloc),
            beyond: false,
        }
    }

    /// Lends the lines that `log` has written, each with a line feed at its end. Takes no memory.
    pub fn log(&self) -> &[u8]
        ensures { result.now ≡ self.now.log }
    {
        self.lines.as_slice()
    }

    /// Whether a frame, client code or an element was asked for, which this host does not make. Takes no memory.
    pub fn is_beyond(&self) -> bool
        ensures { result ≡ self.now.beyond }
    {
        self.beyond
    }

    /// `log(v)`
    fn write(
        &mut self,
        alloc: Global,
        arguments: &[Value],
        store: &mut Store,
    ) -> Result<Done, NoMemory>
        ensures meant { IfOk result (λ done. (done, store.new) ≡ ended (spec.undefined_or (text_of (codes "log") (slice_get arguments.now 0))) store.old) }
        ensures log { OnOk result (self.new ≡ spec.with_line (text_of (codes "log") (slice_get arguments.now 0)) self.old) }
    {
        match text_argument(alloc, "log", arguments) {
            Ok(text) => {
                append_line("log", &text, &mut self.lines)?;
                Ok(Done::Value(Value::Undefined))
            }
            Err(Refusal::Error(error)) => refuse(alloc, &error, store),
            Err(Refusal::NoMemory) => Err(NoMemory),
        }
    }

    // Refuses what this host does not make, and keeps that it was asked for it.
    fn refuse_beyond(&mut self, alloc: Global, store: &mut Store) -> Result<Done, NoMemory>
        ensures meant { IfOk result (λ done. (done, store.new) ≡ ended (Err error.NotFunction) store.old) }
        ensures asked { self.new ≡ spec.past self.old }
    {
        self.beyond = true;
        refuse(alloc, &ErrorKind::NotFunction, store)
    }
}

impl Host for PlainHost {
    ghost use Rattle.mt_builtins.specs.Plain.{plain};

    ghost meaning = { plain };

    /// `log(v)` writes a line, and the builtins of both tiers are those of `mt_builtins`. A client's builtins throw `NotFunction`.
    fn native(
        &mut self,
        alloc: Global,
        which: Native,
        arguments: &[Value],
        store: &mut Store,
        _budget: &mut Budget,
    ) -> Result<Done, NoMemory> {
        match which {
            Native::Log => self.write(alloc, arguments, store),
            _ => native(alloc, which, arguments, store),
        }
    }

    /// The methods of builtins of both tiers.
    fn method(
        &mut self,
        alloc: Global,
        base: &Value,
        key: &Text,
        arguments: &[Value],
        store: &mut Store,
        budget: &mut Budget,
    ) -> Result<Done, NoMemory> {
        method(alloc, base, key, arguments, store, budget)
    }

    /// Throws `NoSuchProperty`.
    fn get(
        &mut self,
        alloc: Global,
        _base: &Value,
        key: &Text,
        store: &mut Store,
        _budget: &mut Budget,
    ) -> Result<Done, NoMemory> {
        no_property(alloc, key, store)
    }

    /// Throws `NoSuchProperty`.
    fn set(
        &mut self,
        alloc: Global,
        _base: &Value,
        key: &Text,
        _value: &Value,
        store: &mut Store,
        _budget: &mut Budget,
    ) -> Result<Done, NoMemory> {
        no_property(alloc, key, store)
    }

    /// Throws `NotFunction`, and keeps that it was asked for this.
    fn frame(
        &mut self,
        alloc: Global,
        _service: &Text,
        _arguments: &[Value],
        store: &mut Store,
        _budget: &mut Budget,
    ) -> Result<Done, NoMemory> {
        self.refuse_beyond(alloc, store)
    }

    /// Throws `NotFunction`, and keeps that it was asked for this.
    fn staged(
        &mut self,
        alloc: Global,
        _tilde: u32,
        _values: &[Value],
        store: &mut Store,
        _budget: &mut Budget,
    ) -> Result<Done, NoMemory> {
        self.refuse_beyond(alloc, store)
    }

    /// Throws `NotFunction`, and keeps that it was asked for this.
    fn element(
        &mut self,
        alloc: Global,
        _tag: &Text,
        _attributes: &[NamedValue],
        _children: &[Value],
        store: &mut Store,
        _budget: &mut Budget,
    ) -> Result<Done, NoMemory> {
        self.refuse_beyond(alloc, store)
    }
}

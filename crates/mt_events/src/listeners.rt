ghost use Rattle.std.specs.Prelude.{◌≡◌, [], OnOk, OnErr};
ghost use Rattle.std.specs.List.{list_any};
ghost use Rattle.mt_events.specs.Listeners.{added, dropped, kind_eq, listens, is_listener};

use mt_tree::{EventKind, NoMemory};
use mt_value::Address;
use std::alloc::Global;
use std::marker::Model;

/// A function that listens for events of a kind on a node.
#[derive(Clone, Copy)]
pub struct Listener {
    /// The node's number.
    pub node: usize,
    /// The kind of the events.
    pub kind: EventKind,
    /// The function's cell.
    pub function: Address,
}

/// Who listens on the nodes of a page. Contracts see the list of listeners in the order of adding.
#[derive(Drop)]
pub struct Listeners {
    list: Vec<Listener>,
}

impl Model for Listeners {
    ghost use Rattle.std.specs.Prelude.{List};
    ghost use Rattle.mt_events.specs.declared.listeners.Listener.{Listener};

    ghost Value = { List Listener };

    ghost view = { λ listeners. listeners.list.items };
}

// Whether two kinds are the same.
fn same_kind(a: EventKind, b: EventKind) -> bool
    ensures { result ≡ kind_eq a b }
{
    a == b
}

// Whether a listener hears events of a kind on a node.
pub(crate) fn listens(node: usize, kind: EventKind, listener: &Listener) -> bool
    ensures { result ≡ listens node kind listener.now }
{
    listener.node == node && same_kind(listener.kind, kind)
}

// Whether two listeners are the same.
fn is_listener(wanted: &Listener, listener: &Listener) -> bool
    ensures { result ≡ is_listener wanted.now listener.now }
{
    listens(wanted.node, wanted.kind, listener) && listener.function == wanted.function
}

fn has(wanted: &Listener, list: &[Listener]) -> bool
    ensures { result ≡ list_any (is_listener wanted.now) list.now }
{
    list.iter().any(|listener| is_listener(wanted, listener))
}

fn drop_from(list: &mut Vec<Listener>, unwanted: &Listener)
    ensures { list.new.items ≡ dropped unwanted.now list.old.items }
{
    list.retain(|listener| !is_listener(unwanted, listener));
}

impl Listeners {
    /// Nobody listens yet. The list takes its memory from `alloc` when it grows; this call takes none.
    pub fn new(alloc: Global) -> Listeners
        ensures { result ≡ [] }
    {
        Listeners {
            list: Vec::new(alloc),
        }
    }

    /// Lends the listeners, in the order of adding. Takes no memory.
    pub fn list(&self) -> &[Listener]
        ensures { result.now ≡ self.now }
    {
        self.list.as_slice()
    }

    /// Adds a listener behind all others; one that is there already is kept in its place, and not added again. The time that it
    /// takes grows with the count of the listeners.
    ///
    /// # Errors
    /// `NoMemory`; the listeners are then as before.
    pub fn add(&mut self, node: usize, kind: EventKind, function: Address) -> Result<(), NoMemory>
        ensures ok { OnOk result (self.new ≡ added (record { node = node; kind = kind; function = function }) self.old) }
        ensures err { OnErr result (self.new ≡ self.old) }
    {
        let wanted = Listener {
            node,
            kind,
            function,
        };
        if has(&wanted, &self.list) {
            return Ok(());
        }
        match self.list.push(wanted) {
            Ok(()) => Ok(()),
            Err(_refused) => Err(NoMemory),
        }
    }

    /// Removes a listener, where it is there; the others keep their order. Takes no memory.
    pub fn drop_one(&mut self, node: usize, kind: EventKind, function: Address)
        ensures { self.new ≡ dropped (record { node = node; kind = kind; function = function }) self.old }
    {
        let unwanted = Listener {
            node,
            kind,
            function,
        };
        drop_from(&mut self.list, &unwanted);
    }
}

ghost use Rattle.std.specs.Prelude.{◌≡◌, ◌++◌, ◌∷◌, [], IfOk, OnOk, OnErr, All};
ghost use Rattle.mt_events.specs.Dispatch.{turns_at, listened, arrival, advance};

use crate::listeners::{Listener, Listeners, listens};
use crate::page::Page;
use crate::turn::Turn;
use mt_tree::{EventKind, NoMemory};
use std::alloc::Global;
use std::collections::VecDeque;
use std::marker::Model;

/// An event on its way. Contracts see its kind, the turns that are left on the node where it has arrived, and the nodes that are
/// still to come, in their order.
#[derive(Drop)]
pub struct Dispatch {
    alloc: Global,
    kind: EventKind,
    turns: VecDeque<Turn>,
    path: VecDeque<usize>,
}

impl Model for Dispatch {
    ghost use Rattle.std.specs.Prelude.{ℕ, List};
    ghost use Rattle.mt_tree.specs.declared.event.EventKind.{EventKind};
    ghost use Rattle.mt_events.specs.declared.turn.Turn.{Turn};

    ghost Value = { EventKind × List Turn × List ℕ };

    ghost view = { λ dispatch. (dispatch.kind, dispatch.turns.items, dispatch.path.items) };
}

fn push(turn: Turn, turns: &mut Vec<Turn>) -> Result<(), NoMemory>
    ensures { OnOk result (turns.new.items ≡ turns.old.items ++ turn ∷ []) }
{
    match turns.push(turn) {
        Ok(()) => Ok(()),
        Err(_refused) => Err(NoMemory),
    }
}

// The turn of a listener, where it listens, behind the others.
fn add_turn(
    node: usize,
    kind: EventKind,
    listener: &Listener,
    turns: &mut Vec<Turn>,
) -> Result<(), NoMemory>
    ensures { OnOk result (turns.new.items ≡ turns.old.items ++ listened node kind (listener.now ∷ [])) }
{
    if listens(node, kind, listener) {
        push(Turn::Listener(node, listener.function), turns)?;
    }
    Ok(())
}

// The turns of those that listen, behind the others.
fn add_turns(
    node: usize,
    kind: EventKind,
    listeners: &[Listener],
    turns: &mut Vec<Turn>,
) -> Result<(), NoMemory>
    ensures { OnOk result (turns.new.items ≡ turns.old.items ++ listened node kind listeners.now) }
{
    for listener in listeners {
        add_turn(node, kind, listener, turns)?;
    }
    Ok(())
}

// The turns of a node as a dispatch arrives at it.
fn turns_at(
    alloc: Global,
    handled: bool,
    listeners: &[Listener],
    kind: EventKind,
    node: usize,
) -> Result<VecDeque<Turn>, NoMemory>
    ensures { IfOk result (λ turns. turns.items ≡ turns_at handled listeners.now kind node) }
{
    let mut turns = Vec::new(alloc);
    if handled {
        push(Turn::Handler(node), &mut turns)?;
    }
    add_turns(node, kind, listeners, &mut turns)?;
    Ok(VecDeque::from_vec(turns))
}

impl Dispatch {
    /// An event of a kind that goes from an element of the page to the root of its tree. That path is fixed by this call.
    ///
    /// # Errors
    /// `NoMemory`.
    pub fn start<P: Page>(
        alloc: Global,
        page: &P,
        node: usize,
        kind: EventKind,
    ) -> Result<Dispatch, NoMemory>
        requires { P.is_element page.now node }
        ensures { IfOk result (λ dispatch. dispatch ≡ (kind, [], P.path_of page.now node)) }
    {
        let path = page.path(alloc, node)?;
        Ok(Dispatch {
            alloc,
            kind,
            turns: VecDeque::new(alloc),
            path: VecDeque::from_vec(path),
        })
    }

    /// The next turn, `None` exactly where the turns are over. Where none is left on the node where the event is, it arrives at
    /// the next node that has turns, and copies these from the page and the listeners as they are now.
    ///
    /// Each node that is still to come is an element of the page.
    ///
    /// # Errors
    /// `NoMemory`; a further call with the same page and listeners then tries the same again.
    pub fn next<P: Page>(
        &mut self,
        page: &P,
        listeners: &Listeners,
    ) -> Result<Option<Turn>, NoMemory>
        requires elements { All (P.is_element page.now) self.old.2 }
        ensures kind { self.new.0 ≡ self.old.0 }
        ensures turn { IfOk result (λ turn. advance (arrival (P.handles page.now) listeners.now self.old.0) self.old.1 self.old.2 ≡ (turn, self.new.1, self.new.2)) }
        ensures again { OnErr result (advance (arrival (P.handles page.now) listeners.now self.old.0) self.old.1 self.old.2
            ≡ advance (arrival (P.handles page.now) listeners.now self.old.0) self.new.1 self.new.2) }
        ensures elements { All (P.is_element page.now) self.new.2 }
    {
        'nodes: while self.turns.is_empty() {
            let node = match self.path.front() {
                Some(node) => *node,
                None => return Ok(None),
            };
            let handled = page.has_handler(node, self.kind);
            self.turns = turns_at(self.alloc, handled, listeners.list(), self.kind, node)?;
            self.path.pop_front();
        }
        Ok(self.turns.pop_front())
    }

    /// Takes the turns of the nodes that are still to come; those that are left on the node where the event is stay. Takes no
    /// memory.
    pub fn stop(&mut self)
        ensures { self.new ≡ (self.old.0, self.old.1, []) }
    {
        self.path.clear();
    }
}

ghost use Rattle.std.specs.Prelude.{◌≡◌, All, IfOk, IsTrue};
ghost use Rattle.mt_eval_meaning.specs.Host.{answered, seen};
ghost use Rattle.mt_marshal.specs.Elaboration.{elaborated, framed};
ghost use Rattle.mt_marshal.specs.Lawful.{LawfulDone, Stays};
ghost use Rattle.mt_value.specs.Lawful.{Lawful, LawfulValue};
ghost use Rattle.mt_value.specs.Limits.{text_fits};

use crate::paying::{Paid, snapped};
use mt_eval_meaning::{Budget, Done};
use mt_tree::{Closure, NoMemory, Text};
use mt_value::{Cell, FrameCell, Store, Value};
use std::alloc::Global;

/// Makes client code of a tilde, by its number in text order from 0, and of the values of its dollars: it holds their data, as the
/// values are at this moment, in a new cell. The values of one tilde are walked once, and count together.
///
/// It takes a step for each node that was walked, and one for each 256 bytes of the texts, the names of properties and the names of
/// services in them, rounded down, where the values are refused too.
///
/// | What is met | Answer |
/// |---|---|
/// | the steps are more than what is left | the stop `Budget`; neither the budget nor the store changes |
/// | a node breaks a rule | the stop `Marshal`, with the number of the rule that [`snapshot`](crate::snapshot) answers |
/// | else | the client code |
///
/// Its meaning is that of a host that stays as it is. `proofs/Elaborating.antt` says so of any host (`for_host`).
///
/// # Errors
/// `NoMemory`.
pub fn elaborate(
    alloc: Global,
    tilde: u32,
    values: &[Value],
    store: &mut Store,
    budget: &mut Budget,
) -> Result<Done, NoMemory>
    ensures meant { IfOk result (λ done. (done, store.new, tt {0}, budget.new.left) ≡ answered (elaborated tilde values.now (tt {0}) (seen store.old) budget.old.left) store.old budget.old.left) }
    ensures lawful { Lawful store.old → All (LawfulValue store.old) values.now → IfOk result (λ done. Stays LawfulDone store.old (done, store.new)) }
{
    let paid = snapped(alloc, store, values, budget)?;
    match paid {
        Paid::Stopped(stop) => Ok(Done::Stop(stop)),
        Paid::Data(values) => {
            let at = store.add(Cell::Code(Closure { tilde, values }))?;
            Ok(Done::Value(Value::Code(at)))
        }
    }
}

/// Makes a frame of a service, by its name, and of its arguments: it holds their data, as the arguments are at this moment, in a new cell.
/// The arguments of one frame are walked once, and count together. It takes the steps that [`elaborate`] takes, and answers as this does.
///
/// # Errors
/// `NoMemory`.
pub fn frame(
    alloc: Global,
    service: &Text,
    arguments: &[Value],
    store: &mut Store,
    budget: &mut Budget,
) -> Result<Done, NoMemory>
    ensures meant { IfOk result (λ done. (done, store.new, tt {0}, budget.new.left) ≡ answered (framed service.now arguments.now (tt {0}) (seen store.old) budget.old.left) store.old budget.old.left) }
    ensures lawful { Lawful store.old → IsTrue (text_fits service.now) → All (LawfulValue store.old) arguments.now → IfOk result (λ done. Stays LawfulDone store.old (done, store.new)) }
{
    let paid = snapped(alloc, store, arguments, budget)?;
    match paid {
        Paid::Stopped(stop) => Ok(Done::Stop(stop)),
        Paid::Data(arguments) => {
            let service = service.share()?;
            let at = store.add(Cell::Frame(FrameCell { service, arguments }))?;
            Ok(Done::Value(Value::Frame(at)))
        }
    }
}

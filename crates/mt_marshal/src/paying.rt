ghost use Rattle.std.specs.Prelude.{◌≡◌, ◌-◌, nat_le, if◌then◌else◌, IfOk};
ghost use Rattle.mt_marshal.specs.Elaboration.{paid_for, steps};
ghost use Rattle.mt_marshal.specs.Snapshot.{walked};

use crate::counts::Counts;
use crate::refusal::Refused;
use crate::walk::{LEVELS, items};
use mt_eval_meaning::{Budget, Stop};
use mt_tree::{Data, NoMemory, Row};
use mt_value::{Store, Value};
use std::alloc::Global;

/// The bytes that one step pays.
const CHUNK: u64 = 256;

/// What a walk gives the job that pays for it.
#[derive(Drop)]
pub(crate) enum Paid {
    /// The data of the values, for which the steps were taken.
    Data(Row<Data>),
    /// The stop to which the job comes.
    Stopped(Stop),
}

/// Takes the steps of a walk where that many are left, and else none.
fn pays(budget: &mut Budget, nodes: u64, bytes: u64) -> bool
    ensures enough { result ≡ nat_le (steps nodes bytes) budget.old.left }
    ensures left { budget.new.left ≡ (if nat_le (steps nodes bytes) budget.old.left then budget.old.left - steps nodes bytes else budget.old.left) }
{
    let chunks = bytes / CHUNK;
    if chunks > budget.left || nodes > budget.left - chunks {
        return false;
    }
    budget.left -= chunks + nodes;
    true
}

/// The data of the values, walked once; the job pays for the walk.
///
/// # Errors
/// `NoMemory`.
pub(crate) fn snapped(
    alloc: Global,
    store: &Store,
    values: &[Value],
    budget: &mut Budget,
) -> Result<Paid, NoMemory>
    ensures { IfOk result (λ paid. (paid, budget.new.left) ≡ paid_for (walked store.now values.now) budget.old.left) }
{
    let mut path = Vec::new(alloc);
    let mut counts = Counts { nodes: 0, bytes: 0 };
    match items(alloc, store, LEVELS, values, &mut path, &mut counts) {
        Ok(data) => {
            if !pays(budget, counts.nodes, counts.bytes) {
                return Ok(Paid::Stopped(Stop::Budget));
            }
            Ok(Paid::Data(data))
        }
        Err(
            Refused::Rule {
                rule,
                walked,
                bytes,
            },
        ) => {
            if !pays(budget, walked, bytes) {
                return Ok(Paid::Stopped(Stop::Budget));
            }
            Ok(Paid::Stopped(Stop::Marshal(rule.number())))
        }
        Err(Refused::NoMemory) => Err(NoMemory),
    }
}

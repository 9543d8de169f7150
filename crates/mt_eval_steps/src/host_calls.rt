//! The calls of a host, as steps on the state and the host.

ghost use Rattle.std.specs.Prelude.{◌≡◌};
ghost use Rattle.mt_eval_meaning.specs.Host.{does};
ghost use Rattle.mt_eval_meaning.specs.Runs.{Evals};
ghost use Rattle.mt_eval_steps.specs.Outcomes as outcomes;

use mt_eval_meaning::{Budget, Done, Exit, Host, NamedValue, State};
use mt_tree::Text;
use mt_value::{Native, Value};
use std::alloc::Global;

fn value_or_exit(done: Done) -> Result<Value, Exit>
    ensures { result ≡ outcomes.value_or_exit done }
{
    match done {
        Done::Value(value) => Ok(value),
        Done::Throw(value) => Err(Exit::Throw(value)),
        Done::Stop(stop) => Err(Exit::Stop(stop)),
    }
}

/// Calls a builtin.
///
/// # Errors
/// What the host's call means: `Throw`, or `Stop`. And `NoMemory`.
#[tactic(auto, unfolding(mt_eval_meaning::specs::Host::does))]
pub fn call_native<H: Host>(
    alloc: Global,
    state: &mut State,
    host: &mut H,
    which: Native,
    arguments: &[Value],
) -> Result<Value, Exit>
    ensures { Evals (does (H.meaning.native which arguments.now) (state.old, host.old)) result (state.new, host.new) }
{
    let mut budget = Budget { left: state.budget };
    let done = host.native(alloc, which, arguments, &mut state.store, &mut budget)?;
    state.budget = budget.left;
    value_or_exit(done)
}

/// Calls a method of a value that is the host's own.
///
/// # Errors
/// What the host's call means: `Throw`, or `Stop`. And `NoMemory`.
#[tactic(auto, unfolding(mt_eval_meaning::specs::Host::does))]
pub fn hosted_method<H: Host>(
    alloc: Global,
    state: &mut State,
    host: &mut H,
    base: &Value,
    key: &Text,
    arguments: &[Value],
) -> Result<Value, Exit>
    ensures { Evals (does (H.meaning.method base.now key.now arguments.now) (state.old, host.old)) result (state.new, host.new) }
{
    let mut budget = Budget { left: state.budget };
    let done = host.method(alloc, base, key, arguments, &mut state.store, &mut budget)?;
    state.budget = budget.left;
    value_or_exit(done)
}

/// Reads a property of a value that is the host's own.
///
/// # Errors
/// What the host's call means: `Throw`, or `Stop`. And `NoMemory`.
#[tactic(auto, unfolding(mt_eval_meaning::specs::Host::does))]
pub fn get_hosted<H: Host>(
    alloc: Global,
    state: &mut State,
    host: &mut H,
    base: &Value,
    key: &Text,
) -> Result<Value, Exit>
    ensures { Evals (does (H.meaning.get base.now key.now) (state.old, host.old)) result (state.new, host.new) }
{
    let mut budget = Budget { left: state.budget };
    let done = host.get(alloc, base, key, &mut state.store, &mut budget)?;
    state.budget = budget.left;
    value_or_exit(done)
}

/// Writes a property of a value that is the host's own.
///
/// # Errors
/// What the host's call means: `Throw`, or `Stop`. And `NoMemory`.
#[tactic(auto, unfolding(mt_eval_meaning::specs::Host::does))]
pub fn set_hosted<H: Host>(
    alloc: Global,
    state: &mut State,
    host: &mut H,
    base: &Value,
    key: &Text,
    value: &Value,
) -> Result<Value, Exit>
    ensures { Evals (does (H.meaning.set base.now key.now value.now) (state.old, host.old)) result (state.new, host.new) }
{
    let mut budget = Budget { left: state.budget };
    let done = host.set(alloc, base, key, value, &mut state.store, &mut budget)?;
    state.budget = budget.left;
    value_or_exit(done)
}

/// Calls a service by its name.
///
/// # Errors
/// What the host's call means: `Throw`, or `Stop`. And `NoMemory`.
#[tactic(auto, unfolding(mt_eval_meaning::specs::Host::does))]
pub fn call_service<H: Host>(
    alloc: Global,
    state: &mut State,
    host: &mut H,
    service: &Text,
    arguments: &[Value],
) -> Result<Value, Exit>
    ensures { Evals (does (H.meaning.frame service.now arguments.now) (state.old, host.old)) result (state.new, host.new) }
{
    let mut budget = Budget { left: state.budget };
    let done = host.frame(alloc, service, arguments, &mut state.store, &mut budget)?;
    state.budget = budget.left;
    value_or_exit(done)
}

/// Makes client code of a tilde, by its number and the values of its dollars.
///
/// # Errors
/// What the host's call means: `Throw`, or `Stop`. And `NoMemory`.
#[tactic(auto, unfolding(mt_eval_meaning::specs::Host::does))]
pub fn stage_tilde<H: Host>(
    alloc: Global,
    state: &mut State,
    host: &mut H,
    tilde: u32,
    values: &[Value],
) -> Result<Value, Exit>
    ensures { Evals (does (H.meaning.staged tilde values.now) (state.old, host.old)) result (state.new, host.new) }
{
    let mut budget = Budget { left: state.budget };
    let done = host.staged(alloc, tilde, values, &mut state.store, &mut budget)?;
    state.budget = budget.left;
    value_or_exit(done)
}

/// Makes an element of its tag, its attributes and its children.
///
/// # Errors
/// What the host's call means: `Throw`, or `Stop`. And `NoMemory`.
#[tactic(auto, unfolding(mt_eval_meaning::specs::Host::does))]
pub fn make_element<H: Host>(
    alloc: Global,
    state: &mut State,
    host: &mut H,
    tag: &Text,
    attributes: &[NamedValue],
    children: &[Value],
) -> Result<Value, Exit>
    ensures { Evals (does (H.meaning.element tag.now attributes.now children.now) (state.old, host.old)) result (state.new, host.new) }
{
    let mut budget = Budget { left: state.budget };
    let done = host.element(
        alloc,
        tag,
        attributes,
        children,
        &mut state.store,
        &mut budget,
    )?;
    state.budget = budget.left;
    value_or_exit(done)
}

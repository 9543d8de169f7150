ghost use Rattle.std.specs.Prelude.{◌≡◌, ◌≤◌, ◌<◌, ◌-◌, IfOk, slice_get};
ghost use Rattle.std.specs.Option.{option_copied};
ghost use Rattle.mt_eval_meaning.specs.Statements as statements;
ghost use Rattle.mt_eval_meaning.specs.Runs.{Evals};
ghost use Rattle.mt_evaluator.specs.Nests.{Nests, rank};
ghost use Rattle.mt_eval_meaning.specs.Slots as spec;
ghost use Rattle.mt_eval_meaning.specs.Slots.{parts};
ghost use Rattle.mt_tree.specs.Limits.{depth_limit};

use crate::expressions::Expressions;
use mt_eval_meaning::{Completion, Exit, Expr, Function, Host, State, Stmt, Stop};
use mt_eval_steps::{copied, enter_function, throw};
use mt_ops::ErrorKind;
use mt_tree::{DEPTH_LIMIT, NoMemory};
use mt_value::{Address, Cell, FunCell, Store, Value};
use std::alloc::Global;

/// How deep the code of a function may be.
const DEEPEST: usize = DEPTH_LIMIT as usize;

fn returned(ending: Completion) -> Value
    ensures { result ≡ statements.returned ending }
{
    match ending {
        Completion::Return(value) => value,
        _ => Value::Undefined,
    }
}

/// The function in a cell; `None` where there is none.
fn function_in(store: &Store, at: Address) -> Result<Option<FunCell>, NoMemory>
    ensures { IfOk result (λ found. found ≡ spec.function_in (slice_get store.now at)) }
{
    match store.get(at) {
        Some(Cell::Fun(cell)) => Ok(Some(FunCell {
            function: cell.function,
            captured: cell.captured.share()?,
        })),
        _ => Ok(None),
    }
}

/// The code of a function, by its number.
fn numbered(functions: &[Function], number: usize) -> Option<&Function>
    ensures { option_copied result ≡ slice_get functions.now number }
{
    functions.get(number)
}

impl<
    'a,
    H: Host,
    F: Fn(
        Global,
        &[Function],
        usize,
        usize,
        &[Address],
        &mut State,
        &mut H,
        &Expr,
    ) -> Result<Value, Exit>,
    G: Fn(
        Global,
        &[Function],
        usize,
        usize,
        &[Address],
        &mut State,
        &mut H,
        &Stmt,
    ) -> Result<Completion, Exit>,
> Expressions<'a, H, F, G> {
    /// The value of a body whose statements are of a level that isn't above this one: that of the `return` which ends it, else undefined.
    ///
    /// # Errors
    /// `Throw` with the value that the code throws, `Stop` with what stops the job, and `NoMemory`.
    #[tactic(auto, unfolding(mt_eval_meaning::specs::Slots::body))]
    pub fn body(
        &self,
        calls: usize,
        depth: usize,
        activation: &[Address],
        state: &mut State,
        host: &mut H,
        items: &[Stmt],
    ) -> Result<Value, Exit>
        requires below { rank calls depth ≤ rank self.now.level.calls self.now.level.depth }
        requires nests { Nests H.meaning (rank self.now.level.calls self.now.level.depth) (F.pre self.now.level.expr) (F.post self.now.level.expr) (G.pre self.now.level.stmt) (G.post self.now.level.stmt) }
        ensures { Evals (spec.body self.now.level.functions.now (parts self.now.level.functions.now H.meaning calls depth) items.now activation.now (state.old, host.old)) result (state.new, host.new) }
    {
        let ending = self
            .level
            .sequence(calls, depth, activation, state, host, items)?;
        Ok(returned(ending))
    }

    #[tactic(auto, unfolding(mt_eval_meaning::specs::State::throw))]
    fn run(
        &self,
        state: &mut State,
        host: &mut H,
        function: Option<&Function>,
        captured: &[Address],
        at: Address,
        arguments: &[Value],
    ) -> Result<Value, Exit>
        requires some { 0 < self.now.level.calls }
        requires nests { Nests H.meaning (rank self.now.level.calls self.now.level.depth) (F.pre self.now.level.expr) (F.post self.now.level.expr) (G.pre self.now.level.stmt) (G.post self.now.level.stmt) }
        ensures { Evals (spec.function_body self.now.level.functions.now (parts self.now.level.functions.now H.meaning (self.now.level.calls - 1) depth_limit) (option_copied function.entry) captured.now at arguments.now (state.old, host.old)) result (state.new, host.new) }
    {
        let Some(function) = function else {
            return Err(throw(self.level.alloc, state, &ErrorKind::NotFunction));
        };
        let activation = enter_function(
            self.level.alloc,
            self.level.functions,
            state,
            function,
            copied(self.level.alloc, captured)?,
            at,
            arguments,
        )?;
        self.body(
            self.level.calls - 1,
            DEEPEST,
            activation.items(),
            state,
            host,
            function.body.statements.items(),
        )
    }

    /// Calls the function in a cell.
    ///
    /// # Errors
    /// `Throw` exactly where there is none, else the stop `Depth` exactly where no call is left, else what its body throws or is stopped by, and `NoMemory`.
    #[tactic(auto, unfolding(mt_eval_meaning::specs::State::throw), using(crate::proofs::Enters::no_function, crate::proofs::Enters::no_call, crate::proofs::Enters::one_call))]
    pub fn enter(
        &self,
        state: &mut State,
        host: &mut H,
        at: Address,
        arguments: &[Value],
    ) -> Result<Value, Exit>
        requires { Nests H.meaning (rank self.now.level.calls self.now.level.depth) (F.pre self.now.level.expr) (F.post self.now.level.expr) (G.pre self.now.level.stmt) (G.post self.now.level.stmt) }
        ensures { Evals ((parts self.now.level.functions.now H.meaning self.now.level.calls self.now.level.depth).outside.enter at arguments.now (state.old, host.old)) result (state.new, host.new) }
    {
        let Some(found) = function_in(&state.store, at)? else {
            return Err(throw(self.level.alloc, state, &ErrorKind::NotFunction));
        };
        if self.level.calls == 0 {
            return Err(Exit::Stop(Stop::Depth));
        }
        let function = numbered(self.level.functions, found.function);
        self.run(state, host, function, found.captured.items(), at, arguments)
    }
}

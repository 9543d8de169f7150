ghost use Rattle.std.specs.Prelude.{◌≤◌};
ghost use Rattle.mt_eval_meaning.specs.Runs.{Evals};
ghost use Rattle.mt_evaluator.specs.Nests.{Nests, rank};
ghost use Rattle.mt_eval_meaning.specs.Slots as spec;
ghost use Rattle.mt_eval_meaning.specs.Slots.{parts};

use crate::evaluator::Evaluator;
use mt_eval_meaning::{Completion, Exit, Expr, Function, Host, State, Stmt};
use mt_value::{Address, Value};
use std::alloc::Global;

impl<
    'a,
    H: Host,
    F: Fn(
        Global,
        &[Function],
        usize,
        usize,
        &[Address],
        &mut State,
        &mut H,
        &Expr,
    ) -> Result<Value, Exit>,
    G: Fn(
        Global,
        &[Function],
        usize,
        usize,
        &[Address],
        &mut State,
        &mut H,
        &Stmt,
    ) -> Result<Completion, Exit>,
> Evaluator<'a, H, F, G> {
    /// Evaluates a statement on a level that isn't above this one.
    ///
    /// # Errors
    /// `Throw` with the value that the code throws, `Stop` with what stops the job, and `NoMemory`.
    pub fn stmt(
        &self,
        calls: usize,
        depth: usize,
        activation: &[Address],
        state: &mut State,
        host: &mut H,
        t: &Stmt,
    ) -> Result<Completion, Exit>
        requires below { rank calls depth ≤ rank self.now.calls self.now.depth }
        requires nests { Nests H.meaning (rank self.now.calls self.now.depth) (F.pre self.now.expr) (F.post self.now.expr) (G.pre self.now.stmt) (G.post self.now.stmt) }
        ensures { Evals ((parts self.now.functions.now H.meaning calls depth).stmt t.now activation.now (state.old, host.old)) result (state.new, host.new) }
    {
        (self.stmt)(
            self.alloc,
            self.functions,
            calls,
            depth,
            activation,
            state,
            host,
            t,
        )
    }

    /// Evaluates statements on a level that isn't above this one, one after another up to one that doesn't end normally.
    ///
    /// # Errors
    /// `Throw` with the value that the code throws, `Stop` with what stops the job, and `NoMemory`.
    pub fn sequence(
        &self,
        calls: usize,
        depth: usize,
        activation: &[Address],
        state: &mut State,
        host: &mut H,
        mut items: &[Stmt],
    ) -> Result<Completion, Exit>
        requires below { rank calls depth ≤ rank self.now.calls self.now.depth }
        requires nests { Nests H.meaning (rank self.now.calls self.now.depth) (F.pre self.now.expr) (F.post self.now.expr) (G.pre self.now.stmt) (G.post self.now.stmt) }
        ensures { Evals (spec.stmts self.now.functions.now (parts self.now.functions.now H.meaning calls depth) items.entry.now activation.now (state.old, host.old)) result (state.new, host.new) }
    {
        while let [t, rest @ ..] = items {
            match self.stmt(calls, depth, activation, state, host, t)? {
                Completion::Normal => items = rest,
                Completion::Break => return Ok(Completion::Break),
                Completion::Continue => return Ok(Completion::Continue),
                Completion::Return(value) => return Ok(Completion::Return(value)),
            }
        }
        Ok(Completion::Normal)
    }
}

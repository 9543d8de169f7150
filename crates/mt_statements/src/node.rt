ghost use Rattle.mt_eval_meaning.specs.Runs.{Evals};
ghost use Rattle.mt_evaluator.specs.Nests.{Nests, rank};
ghost use Rattle.mt_eval_meaning.specs.Slots as spec;
ghost use Rattle.mt_eval_meaning.specs.Slots.{parts};
ghost use Rattle.mt_eval_meaning.specs.declared.stmt.Stmt.{out-Stmt};

use crate::statements::Statements;
use mt_eval_meaning::{Completion, Exit, Expr, Function, Host, State, Stmt};
use mt_eval_steps::spend;
use mt_value::{Address, Value};
use std::alloc::Global;

impl<
    'a,
    H: Host,
    F: Fn(
        Global,
        &[Function],
        usize,
        usize,
        &[Address],
        &mut State,
        &mut H,
        &Expr,
    ) -> Result<Value, Exit>,
    G: Fn(
        Global,
        &[Function],
        usize,
        usize,
        &[Address],
        &mut State,
        &mut H,
        &Stmt,
    ) -> Result<Completion, Exit>,
> Statements<'a, H, F, G> {
    fn form(
        &self,
        activation: &[Address],
        state: &mut State,
        host: &mut H,
        t: &Stmt,
    ) -> Result<Completion, Exit>
        requires { Nests H.meaning (rank self.now.level.calls self.now.level.depth) (F.pre self.now.level.expr) (F.post self.now.level.expr) (G.pre self.now.level.stmt) (G.post self.now.level.stmt) }
        ensures { Evals (spec.stmt_at self.now.level.functions.now (parts self.now.level.functions.now H.meaning self.now.level.calls self.now.level.depth) (out-Stmt t.now) activation.now (state.old, host.old)) result (state.new, host.new) }
    {
        match t {
            Stmt::Expr(e) => self.expression(activation, state, host, e),
            Stmt::Var(kind, decls) => self.var(activation, state, host, *kind, decls.items()),
            Stmt::If(test, a, b) => self.choice(activation, state, host, test, a.get(), b.as_ref()),
            Stmt::While(test, body) => self.turns(
                activation,
                state,
                host,
                Some(test),
                body.get(),
                None,
            ),
            Stmt::For(start, test, step, body) => {
                self.for_loop(
                    activation,
                    state,
                    host,
                    start,
                    test.as_ref(),
                    body.get(),
                    step.as_ref(),
                )
            }
            Stmt::Return(e) => self.returned(activation, state, host, e.as_ref()),
            Stmt::Break => Ok(Completion::Break),
            Stmt::Continue => Ok(Completion::Continue),
            Stmt::Throw(e) => self.thrown(activation, state, host, e),
            Stmt::Try(body, t) => self.attempt(activation, state, host, body.get(), t.get()),
            Stmt::Block(names, items) => self.block(activation, state, host, *names, items.items()),
            Stmt::Empty => Ok(Completion::Normal),
        }
    }

    /// Evaluates a statement.
    ///
    /// # Errors
    /// `Throw` with the value that the code throws, `Stop` with what stops the job, and `NoMemory`.
    #[tactic(auto, unfolding(mt_eval_meaning::specs::Slots::stmt))]
    pub fn node(
        &self,
        activation: &[Address],
        state: &mut State,
        host: &mut H,
        t: &Stmt,
    ) -> Result<Completion, Exit>
        requires { Nests H.meaning (rank self.now.level.calls self.now.level.depth) (F.pre self.now.level.expr) (F.post self.now.level.expr) (G.pre self.now.level.stmt) (G.post self.now.level.stmt) }
        ensures { Evals (spec.stmt self.now.level.functions.now (parts self.now.level.functions.now H.meaning self.now.level.calls self.now.level.depth) t.now activation.now (state.old, host.old)) result (state.new, host.new) }
    {
        spend(state, 0)?;
        self.form(activation, state, host, t)
    }
}

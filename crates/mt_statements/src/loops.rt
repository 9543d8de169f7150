ghost use Rattle.std.specs.Option.{option_copied};
ghost use Rattle.mt_eval_meaning.specs.Runs.{Evals};
ghost use Rattle.mt_eval_meaning.specs.Statements as statements;
ghost use Rattle.mt_evaluator.specs.Nests.{Nests, rank};
ghost use Rattle.mt_eval_meaning.specs.Slots as spec;
ghost use Rattle.mt_eval_meaning.specs.Slots.{parts};

use crate::statements::Statements;
use mt_eval_meaning::{Completion, Exit, Expr, ForStart, Function, Host, State, Stmt, Stop};
use mt_ops::is_truthy;
use mt_value::{Address, Value};
use std::alloc::Global;

impl<
    'a,
    H: Host,
    F: Fn(
        Global,
        &[Function],
        usize,
        usize,
        &[Address],
        &mut State,
        &mut H,
        &Expr,
    ) -> Result<Value, Exit>,
    G: Fn(
        Global,
        &[Function],
        usize,
        usize,
        &[Address],
        &mut State,
        &mut H,
        &Stmt,
    ) -> Result<Completion, Exit>,
> Statements<'a, H, F, G> {
    fn tested(
        &self,
        activation: &[Address],
        state: &mut State,
        host: &mut H,
        test: Option<&Expr>,
    ) -> Result<Value, Exit>
        requires { Nests H.meaning (rank self.now.level.calls self.now.level.depth) (F.pre self.now.level.expr) (F.post self.now.level.expr) (G.pre self.now.level.stmt) (G.post self.now.level.stmt) }
        ensures { Evals (spec.tested_by self.now.level.functions.now (parts self.now.level.functions.now H.meaning self.now.level.calls self.now.level.depth) (option_copied test.entry) activation.now (state.old, host.old)) result (state.new, host.new) }
    {
        match test {
            None => Ok(Value::Bool(true)),
            Some(e) => self.level.expr(activation, state, host, e),
        }
    }

    fn stepped(
        &self,
        activation: &[Address],
        state: &mut State,
        host: &mut H,
        step: Option<&Expr>,
    ) -> Result<(), Exit>
        requires { Nests H.meaning (rank self.now.level.calls self.now.level.depth) (F.pre self.now.level.expr) (F.post self.now.level.expr) (G.pre self.now.level.stmt) (G.post self.now.level.stmt) }
        ensures { Evals (spec.stepped_by self.now.level.functions.now (parts self.now.level.functions.now H.meaning self.now.level.calls self.now.level.depth) (option_copied step.entry) activation.now (state.old, host.old)) result (state.new, host.new) }
    {
        match step {
            None => Ok(()),
            Some(e) => {
                let _value = self.level.expr(activation, state, host, e)?;
                Ok(())
            }
        }
    }

    fn after_body(
        &self,
        activation: &[Address],
        state: &mut State,
        host: &mut H,
        step: Option<&Expr>,
        ending: Completion,
    ) -> Result<Option<Completion>, Exit>
        requires { Nests H.meaning (rank self.now.level.calls self.now.level.depth) (F.pre self.now.level.expr) (F.post self.now.level.expr) (G.pre self.now.level.stmt) (G.post self.now.level.stmt) }
        ensures { Evals (statements.after_body (spec.stepped_by self.now.level.functions.now (parts self.now.level.functions.now H.meaning self.now.level.calls self.now.level.depth) (option_copied step.entry) activation.now) ending (state.old, host.old)) result (state.new, host.new) }
    {
        match ending {
            Completion::Normal | Completion::Continue => {
                self.stepped(activation, state, host, step)?;
                Ok(None)
            }
            Completion::Break => Ok(Some(Completion::Normal)),
            Completion::Return(value) => Ok(Some(Completion::Return(value))),
        }
    }

    #[tactic(auto, unfolding(mt_eval_meaning::specs::Statements::turn_body))]
    fn turn_body(
        &self,
        activation: &[Address],
        state: &mut State,
        host: &mut H,
        body: &Stmt,
        step: Option<&Expr>,
    ) -> Result<Option<Completion>, Exit>
        requires { Nests H.meaning (rank self.now.level.calls self.now.level.depth) (F.pre self.now.level.expr) (F.post self.now.level.expr) (G.pre self.now.level.stmt) (G.post self.now.level.stmt) }
        ensures { Evals (statements.turn_body ((parts self.now.level.functions.now H.meaning self.now.level.calls self.now.level.depth).stmt body.now activation.now) (spec.stepped_by self.now.level.functions.now (parts self.now.level.functions.now H.meaning self.now.level.calls self.now.level.depth) (option_copied step.entry) activation.now) (state.old, host.old)) result (state.new, host.new) }
    {
        let ending = self.stmt(activation, state, host, body)?;
        self.after_body(activation, state, host, step, ending)
    }

    /// One turn of a loop; `None` where another one follows.
    #[tactic(auto, unfolding(mt_eval_meaning::specs::Statements::turn))]
    fn turn(
        &self,
        activation: &[Address],
        state: &mut State,
        host: &mut H,
        test: Option<&Expr>,
        body: &Stmt,
        step: Option<&Expr>,
    ) -> Result<Option<Completion>, Exit>
        requires { Nests H.meaning (rank self.now.level.calls self.now.level.depth) (F.pre self.now.level.expr) (F.post self.now.level.expr) (G.pre self.now.level.stmt) (G.post self.now.level.stmt) }
        ensures { Evals (statements.turn (spec.tested_by self.now.level.functions.now (parts self.now.level.functions.now H.meaning self.now.level.calls self.now.level.depth) (option_copied test.entry) activation.now) ((parts self.now.level.functions.now H.meaning self.now.level.calls self.now.level.depth).stmt body.now activation.now) (spec.stepped_by self.now.level.functions.now (parts self.now.level.functions.now H.meaning self.now.level.calls self.now.level.depth) (option_copied step.entry) activation.now) (state.old, host.old)) result (state.new, host.new) }
    {
        let v = self.tested(activation, state, host, test)?;
        if is_truthy(&v) {
            return self.turn_body(activation, state, host, body, step);
        }
        Ok(Some(Completion::Normal))
    }

    #[tactic(auto, using(crate::proofs::Turning::turning_on, crate::proofs::Turning::turning_over, crate::proofs::Turning::turning_left, crate::proofs::Turning::turning_stuck))]
    pub(crate) fn turns(
        &self,
        activation: &[Address],
        state: &mut State,
        host: &mut H,
        test: Option<&Expr>,
        body: &Stmt,
        step: Option<&Expr>,
    ) -> Result<Completion, Exit>
        requires { Nests H.meaning (rank self.now.level.calls self.now.level.depth) (F.pre self.now.level.expr) (F.post self.now.level.expr) (G.pre self.now.level.stmt) (G.post self.now.level.stmt) }
        ensures { Evals (statements.loop (spec.tested_by self.now.level.functions.now (parts self.now.level.functions.now H.meaning self.now.level.calls self.now.level.depth) (option_copied test.entry) activation.now) ((parts self.now.level.functions.now H.meaning self.now.level.calls self.now.level.depth).stmt body.now activation.now) (spec.stepped_by self.now.level.functions.now (parts self.now.level.functions.now H.meaning self.now.level.calls self.now.level.depth) (option_copied step.entry) activation.now) (state.old, host.old)) result (state.new, host.new) }
    {
        loop {
            let before = state.budget;
            if let Some(ending) = self.turn(activation, state, host, test, body, step)? {
                return Ok(ending);
            }
            if state.budget >= before {
                return Err(Exit::Stop(Stop::Budget));
            }
        }
    }

    #[tactic(auto, unfolding(mt_eval_meaning::specs::Statements::starting))]
    pub(crate) fn for_loop(
        &self,
        activation: &[Address],
        state: &mut State,
        host: &mut H,
        start: &ForStart,
        test: Option<&Expr>,
        body: &Stmt,
        step: Option<&Expr>,
    ) -> Result<Completion, Exit>
        requires { Nests H.meaning (rank self.now.level.calls self.now.level.depth) (F.pre self.now.level.expr) (F.post self.now.level.expr) (G.pre self.now.level.stmt) (G.post self.now.level.stmt) }
        ensures { Evals (statements.starting (spec.started_by self.now.level.functions.now (parts self.now.level.functions.now H.meaning self.now.level.calls self.now.level.depth) start.now activation.now) (statements.loop (spec.tested_by self.now.level.functions.now (parts self.now.level.functions.now H.meaning self.now.level.calls self.now.level.depth) (option_copied test.entry) activation.now) ((parts self.now.level.functions.now H.meaning self.now.level.calls self.now.level.depth).stmt body.now activation.now) (spec.stepped_by self.now.level.functions.now (parts self.now.level.functions.now H.meaning self.now.level.calls self.now.level.depth) (option_copied step.entry) activation.now)) (state.old, host.old)) result (state.new, host.new) }
    {
        self.started(activation, state, host, start)?;
        self.turns(activation, state, host, test, body, step)
    }
}

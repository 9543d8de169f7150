ghost use Rattle.std.specs.Option.{option_copied};
ghost use Rattle.mt_eval_meaning.specs.Runs.{Evals};
ghost use Rattle.mt_eval_meaning.specs.Statements as statements;
ghost use Rattle.mt_evaluator.specs.Nests.{Nests, rank};
ghost use Rattle.mt_eval_meaning.specs.Slots as spec;
ghost use Rattle.mt_eval_meaning.specs.Slots.{parts};

use crate::statements::Statements;
use mt_eval_meaning::{Completion, Exit, Expr, Function, Host, State, Stmt};
use mt_eval_steps::{copied, grown, pushed};
use mt_ops::is_truthy;
use mt_tree::Boxed;
use mt_value::{Address, Value};
use std::alloc::Global;

impl<
    'a,
    H: Host,
    F: Fn(
        Global,
        &[Function],
        usize,
        usize,
        &[Address],
        &mut State,
        &mut H,
        &Expr,
    ) -> Result<Value, Exit>,
    G: Fn(
        Global,
        &[Function],
        usize,
        usize,
        &[Address],
        &mut State,
        &mut H,
        &Stmt,
    ) -> Result<Completion, Exit>,
> Statements<'a, H, F, G> {
    pub(crate) fn stmt(
        &self,
        activation: &[Address],
        state: &mut State,
        host: &mut H,
        t: &Stmt,
    ) -> Result<Completion, Exit>
        requires { Nests H.meaning (rank self.now.level.calls self.now.level.depth) (F.pre self.now.level.expr) (F.post self.now.level.expr) (G.pre self.now.level.stmt) (G.post self.now.level.stmt) }
        ensures { Evals ((parts self.now.level.functions.now H.meaning self.now.level.calls self.now.level.depth).stmt t.now activation.now (state.old, host.old)) result (state.new, host.new) }
    {
        self.level.stmt(
            self.level.calls,
            self.level.depth,
            activation,
            state,
            host,
            t,
        )
    }

    #[tactic(auto, unfolding(mt_eval_meaning::specs::Statements::expression))]
    pub(crate) fn expression(
        &self,
        activation: &[Address],
        state: &mut State,
        host: &mut H,
        e: &Expr,
    ) -> Result<Completion, Exit>
        requires { Nests H.meaning (rank self.now.level.calls self.now.level.depth) (F.pre self.now.level.expr) (F.post self.now.level.expr) (G.pre self.now.level.stmt) (G.post self.now.level.stmt) }
        ensures { Evals (statements.expression ((parts self.now.level.functions.now H.meaning self.now.level.calls self.now.level.depth).expr e.now activation.now) (state.old, host.old)) result (state.new, host.new) }
    {
        let _value = self.level.expr(activation, state, host, e)?;
        Ok(Completion::Normal)
    }

    fn or_else(
        &self,
        activation: &[Address],
        state: &mut State,
        host: &mut H,
        t: Option<&Boxed<Stmt>>,
    ) -> Result<Completion, Exit>
        requires { Nests H.meaning (rank self.now.level.calls self.now.level.depth) (F.pre self.now.level.expr) (F.post self.now.level.expr) (G.pre self.now.level.stmt) (G.post self.now.level.stmt) }
        ensures { Evals (spec.or_else self.now.level.functions.now (parts self.now.level.functions.now H.meaning self.now.level.calls self.now.level.depth) (option_copied t.entry) activation.now (state.old, host.old)) result (state.new, host.new) }
    {
        match t {
            None => Ok(Completion::Normal),
            Some(t) => self.stmt(activation, state, host, t.get()),
        }
    }

    #[tactic(auto, unfolding(mt_eval_meaning::specs::Statements::choice))]
    pub(crate) fn choice(
        &self,
        activation: &[Address],
        state: &mut State,
        host: &mut H,
        test: &Expr,
        a: &Stmt,
        b: Option<&Boxed<Stmt>>,
    ) -> Result<Completion, Exit>
        requires { Nests H.meaning (rank self.now.level.calls self.now.level.depth) (F.pre self.now.level.expr) (F.post self.now.level.expr) (G.pre self.now.level.stmt) (G.post self.now.level.stmt) }
        ensures { Evals (statements.choice ((parts self.now.level.functions.now H.meaning self.now.level.calls self.now.level.depth).expr test.now activation.now) ((parts self.now.level.functions.now H.meaning self.now.level.calls self.now.level.depth).stmt a.now activation.now) (spec.or_else self.now.level.functions.now (parts self.now.level.functions.now H.meaning self.now.level.calls self.now.level.depth) (option_copied b.entry) activation.now) (state.old, host.old)) result (state.new, host.new) }
    {
        let v = self.level.expr(activation, state, host, test)?;
        if is_truthy(&v) {
            return self.stmt(activation, state, host, a);
        }
        self.or_else(activation, state, host, b)
    }

    #[tactic(auto, unfolding(mt_eval_meaning::specs::Statements::given_back))]
    fn given_back(
        &self,
        activation: &[Address],
        state: &mut State,
        host: &mut H,
        e: &Expr,
    ) -> Result<Completion, Exit>
        requires { Nests H.meaning (rank self.now.level.calls self.now.level.depth) (F.pre self.now.level.expr) (F.post self.now.level.expr) (G.pre self.now.level.stmt) (G.post self.now.level.stmt) }
        ensures { Evals (statements.given_back ((parts self.now.level.functions.now H.meaning self.now.level.calls self.now.level.depth).expr e.now activation.now) (state.old, host.old)) result (state.new, host.new) }
    {
        let v = self.level.expr(activation, state, host, e)?;
        Ok(Completion::Return(v))
    }

    pub(crate) fn returned(
        &self,
        activation: &[Address],
        state: &mut State,
        host: &mut H,
        e: Option<&Expr>,
    ) -> Result<Completion, Exit>
        requires { Nests H.meaning (rank self.now.level.calls self.now.level.depth) (F.pre self.now.level.expr) (F.post self.now.level.expr) (G.pre self.now.level.stmt) (G.post self.now.level.stmt) }
        ensures { Evals (spec.returned_by self.now.level.functions.now (parts self.now.level.functions.now H.meaning self.now.level.calls self.now.level.depth) (option_copied e.entry) activation.now (state.old, host.old)) result (state.new, host.new) }
    {
        match e {
            None => Ok(Completion::Return(Value::Undefined)),
            Some(e) => self.given_back(activation, state, host, e),
        }
    }

    #[tactic(auto, unfolding(mt_eval_meaning::specs::Statements::thrown))]
    pub(crate) fn thrown(
        &self,
        activation: &[Address],
        state: &mut State,
        host: &mut H,
        e: &Expr,
    ) -> Result<Completion, Exit>
        requires { Nests H.meaning (rank self.now.level.calls self.now.level.depth) (F.pre self.now.level.expr) (F.post self.now.level.expr) (G.pre self.now.level.stmt) (G.post self.now.level.stmt) }
        ensures { Evals (statements.thrown ((parts self.now.level.functions.now H.meaning self.now.level.calls self.now.level.depth).expr e.now activation.now) (state.old, host.old)) result (state.new, host.new) }
    {
        let v = self.level.expr(activation, state, host, e)?;
        Err(Exit::Throw(v))
    }

    #[tactic(auto, unfolding(mt_eval_meaning::specs::Slots::handler))]
    fn handler(
        &self,
        activation: &[Address],
        state: &mut State,
        host: &mut H,
        t: &Stmt,
        v: Value,
    ) -> Result<Completion, Exit>
        requires { Nests H.meaning (rank self.now.level.calls self.now.level.depth) (F.pre self.now.level.expr) (F.post self.now.level.expr) (G.pre self.now.level.stmt) (G.post self.now.level.stmt) }
        ensures { Evals (spec.handler self.now.level.functions.now (parts self.now.level.functions.now H.meaning self.now.level.calls self.now.level.depth) t.now activation.now v (state.old, host.old)) result (state.new, host.new) }
    {
        let inner = pushed(state, copied(self.level.alloc, activation)?, v)?;
        self.stmt(inner.items(), state, host, t)
    }

    #[tactic(auto, unfolding(mt_eval_meaning::specs::Statements::attempt))]
    pub(crate) fn attempt(
        &self,
        activation: &[Address],
        state: &mut State,
        host: &mut H,
        body: &Stmt,
        t: &Stmt,
    ) -> Result<Completion, Exit>
        requires { Nests H.meaning (rank self.now.level.calls self.now.level.depth) (F.pre self.now.level.expr) (F.post self.now.level.expr) (G.pre self.now.level.stmt) (G.post self.now.level.stmt) }
        ensures { Evals (statements.attempt ((parts self.now.level.functions.now H.meaning self.now.level.calls self.now.level.depth).stmt body.now activation.now) (spec.handler self.now.level.functions.now (parts self.now.level.functions.now H.meaning self.now.level.calls self.now.level.depth) t.now activation.now) (state.old, host.old)) result (state.new, host.new) }
    {
        match self.stmt(activation, state, host, body) {
            Ok(ending) => Ok(ending),
            Err(Exit::Throw(v)) => self.handler(activation, state, host, t, v),
            Err(Exit::Stop(stop)) => Err(Exit::Stop(stop)),
            Err(Exit::NoMemory) => Err(Exit::NoMemory),
        }
    }

    #[tactic(auto, unfolding(mt_eval_meaning::specs::Slots::block))]
    pub(crate) fn block(
        &self,
        activation: &[Address],
        state: &mut State,
        host: &mut H,
        names: usize,
        items: &[Stmt],
    ) -> Result<Completion, Exit>
        requires { Nests H.meaning (rank self.now.level.calls self.now.level.depth) (F.pre self.now.level.expr) (F.post self.now.level.expr) (G.pre self.now.level.stmt) (G.post self.now.level.stmt) }
        ensures { Evals (spec.block self.now.level.functions.now (parts self.now.level.functions.now H.meaning self.now.level.calls self.now.level.depth) names items.now activation.now (state.old, host.old)) result (state.new, host.new) }
    {
        let inner = grown(state, copied(self.level.alloc, activation)?, names, false)?;
        self.level.sequence(
            self.level.calls,
            self.level.depth,
            inner.items(),
            state,
            host,
            items,
        )
    }
}

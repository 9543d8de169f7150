ghost use Rattle.std.specs.Option.{option_copied};
ghost use Rattle.mt_eval_meaning.specs.Runs.{Evals};
ghost use Rattle.mt_evaluator.specs.Nests.{Nests, rank};
ghost use Rattle.mt_eval_meaning.specs.Slots as spec;
ghost use Rattle.mt_eval_meaning.specs.Slots.{parts};

use crate::expressions::Expressions;
use mt_eval_meaning::{Completion, Exit, Expr, Function, Host, State, Stmt};
use mt_tree::Binary;
use mt_value::{Address, Value};
use std::alloc::Global;

impl<
    'a,
    H: Host,
    F: Fn(
        Global,
        &[Function],
        usize,
        usize,
        &[Address],
        &mut State,
        &mut H,
        &Expr,
    ) -> Result<Value, Exit>,
    G: Fn(
        Global,
        &[Function],
        usize,
        usize,
        &[Address],
        &mut State,
        &mut H,
        &Stmt,
    ) -> Result<Completion, Exit>,
> Expressions<'a, H, F, G> {
    fn assigned_by(
        &self,
        activation: &[Address],
        state: &mut State,
        host: &mut H,
        op: Option<Binary>,
        a: &Expr,
        e: &Expr,
    ) -> Result<Value, Exit>
        requires { Nests H.meaning (rank self.now.level.calls self.now.level.depth) (F.pre self.now.level.expr) (F.post self.now.level.expr) (G.pre self.now.level.stmt) (G.post self.now.level.stmt) }
        ensures { Evals (spec.assigned_by self.now.level.functions.now (parts self.now.level.functions.now H.meaning self.now.level.calls self.now.level.depth) op a.now e.now activation.now (state.old, host.old)) result (state.new, host.new) }
    {
        match op {
            None => self.level.assignment(activation, state, host, a, e),
            Some(op) => self.level.update(activation, state, host, op, a, e),
        }
    }

    /// The value of an expression.
    ///
    /// # Errors
    /// `Throw` with the value that the code throws, `Stop` with what stops the job, and `NoMemory`.
    #[tactic(auto, unfolding(mt_eval_meaning::specs::Slots::expr))]
    pub fn node(
        &self,
        activation: &[Address],
        state: &mut State,
        host: &mut H,
        e: &Expr,
    ) -> Result<Value, Exit>
        requires { Nests H.meaning (rank self.now.level.calls self.now.level.depth) (F.pre self.now.level.expr) (F.post self.now.level.expr) (G.pre self.now.level.stmt) (G.post self.now.level.stmt) }
        ensures { Evals (spec.expr self.now.level.functions.now (parts self.now.level.functions.now H.meaning self.now.level.calls self.now.level.depth) e.now activation.now (state.old, host.old)) result (state.new, host.new) }
    {
        match e {
            Expr::Name(name) => self.level.name(activation, state, host, name),
            Expr::Num(n) => self.level.constant(state, host, Value::Num(*n)),
            Expr::Text(text) => self.level.constant(state, host, Value::Text(text.share()?)),
            Expr::Bool(b) => self.level.constant(state, host, Value::Bool(*b)),
            Expr::Null => self.level.constant(state, host, Value::Null),
            Expr::Undefined => self.level.constant(state, host, Value::Undefined),
            Expr::Arr(items) => self.level.array(activation, state, host, items.items()),
            Expr::Obj(entries) => self.level.object(activation, state, host, entries.items()),
            Expr::Fun(function) => self.level.function(activation, state, host, *function),
            Expr::Unary(op, a) => self.level.unary(activation, state, host, *op, a.get()),
            Expr::Step(kind, a) => self.level.step(activation, state, host, *kind, a.get()),
            Expr::Binary(op, a, b) => self
                .level
                .operation(activation, state, host, *op, a.get(), b.get()),
            Expr::And(a, b) => self
                .level
                .conjunction(activation, state, host, a.get(), b.get()),
            Expr::Or(a, b) => self
                .level
                .disjunction(activation, state, host, a.get(), b.get()),
            Expr::Cond(a, b, c) => self
                .level
                .conditional(activation, state, host, a.get(), b.get(), c.get()),
            Expr::Assign(op, a, b) => self.assigned_by(
                activation,
                state,
                host,
                *op,
                a.get(),
                b.get(),
            ),
            Expr::Index(a, k) => self.level.index(activation, state, host, a.get(), k.get()),
            Expr::Call(f, arguments) => self.call(
                activation,
                state,
                host,
                f.get(),
                arguments.items(),
            ),
            Expr::Tilde(id, dollars) => self
                .level
                .tilde(activation, state, host, *id, dollars.items()),
            Expr::Element(tag, attributes, children) => {
                self.level.element(
                    activation,
                    state,
                    host,
                    tag,
                    attributes.items(),
                    children.items(),
                )
            }
            Expr::Val(d) => self.level.built(state, host, d),
        }
    }
}

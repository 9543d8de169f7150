ghost use Rattle.std.specs.Prelude.{◌≡◌};
ghost use Rattle.mt_eval_meaning.specs.Expressions as forms;
ghost use Rattle.mt_eval_meaning.specs.References as references;
ghost use Rattle.mt_eval_meaning.specs.Runs.{Evals};
ghost use Rattle.mt_eval_meaning.specs.State.{on_state};
ghost use Rattle.mt_evaluator.specs.Nests.{Nests, rank};
ghost use Rattle.mt_eval_meaning.specs.Activations as activations;
ghost use Rattle.mt_eval_meaning.specs.Slots as spec;
ghost use Rattle.mt_eval_meaning.specs.Slots.{parts};

use crate::evaluator::Evaluator;
use mt_eval_meaning::{Completion, Exit, Expr, Function, Host, Name, State, Stmt};
use mt_eval_steps::{binary, capture, count, referent, spend, unary};
use mt_ops::is_truthy;
use mt_ops_properties::{binary_cost, property_cost, unary_cost};
use mt_tree::{Binary, StepKind, Unary};
use mt_value::{Address, Value};
use std::alloc::Global;

fn step_value(kind: StepKind, old: Value, new: Value) -> Value
    ensures { result ≡ forms.step_value kind old new }
{
    match kind {
        StepKind::IncBefore | StepKind::DecBefore => new,
        StepKind::IncAfter | StepKind::DecAfter => old,
    }
}

impl<
    'a,
    H: Host,
    F: Fn(
        Global,
        &[Function],
        usize,
        usize,
        &[Address],
        &mut State,
        &mut H,
        &Expr,
    ) -> Result<Value, Exit>,
    G: Fn(
        Global,
        &[Function],
        usize,
        usize,
        &[Address],
        &mut State,
        &mut H,
        &Stmt,
    ) -> Result<Completion, Exit>,
> Evaluator<'a, H, F, G> {
    /// A constant.
    ///
    /// # Errors
    /// The stop `Budget`.
    #[tactic(auto, unfolding(mt_eval_meaning::specs::Expressions::constant))]
    pub fn constant(&self, state: &mut State, host: &mut H, value: Value) -> Result<Value, Exit>
        ensures { Evals (forms.constant value (state.old, host.old)) result (state.new, host.new) }
    {
        spend(state, 0)?;
        Ok(value)
    }

    /// A name that is read.
    ///
    /// # Errors
    /// `Throw` with the value that the code throws, `Stop` with what stops the job, and `NoMemory`.
    #[tactic(auto, unfolding(mt_eval_meaning::specs::Expressions::looked_up))]
    pub fn name(
        &self,
        activation: &[Address],
        state: &mut State,
        host: &mut H,
        name: &Name,
    ) -> Result<Value, Exit>
        ensures { Evals (forms.looked_up (parts self.now.functions.now H.meaning self.now.calls self.now.depth).outside (references.read_name (parts self.now.functions.now H.meaning self.now.calls self.now.depth).outside name.now.text (activations.referent activation.now name.now.binding)) (state.old, host.old)) result (state.new, host.new) }
    {
        spend(state, 0)?;
        self.read_name(state, host, &name.text, referent(activation, name.binding))
    }

    /// A new function, which captures variables of the activation.
    ///
    /// # Errors
    /// The stop `Budget`, and `NoMemory`.
    #[tactic(auto, unfolding(mt_eval_meaning::specs::Expressions::function))]
    pub fn function(
        &self,
        activation: &[Address],
        state: &mut State,
        host: &mut H,
        function: usize,
    ) -> Result<Value, Exit>
        ensures { Evals (forms.function (on_state (activations.capture self.now.functions.now function activation.now)) (state.old, host.old)) result (state.new, host.new) }
    {
        spend(state, 0)?;
        let at = capture(self.alloc, self.functions, state, function, activation)?;
        Ok(Value::Fun(at))
    }

    /// An operator before its operand.
    ///
    /// # Errors
    /// `Throw` with the value that the code throws, `Stop` with what stops the job, and `NoMemory`.
    #[tactic(auto, unfolding(mt_eval_meaning::specs::Expressions::unary))]
    pub fn unary(
        &self,
        activation: &[Address],
        state: &mut State,
        host: &mut H,
        op: Unary,
        a: &Expr,
    ) -> Result<Value, Exit>
        requires { Nests H.meaning (rank self.now.calls self.now.depth) (F.pre self.now.expr) (F.post self.now.expr) (G.pre self.now.stmt) (G.post self.now.stmt) }
        ensures { Evals (forms.unary op ((parts self.now.functions.now H.meaning self.now.calls self.now.depth).expr a.now activation.now) (state.old, host.old)) result (state.new, host.new) }
    {
        let v = self.expr(activation, state, host, a)?;
        spend(state, unary_cost(op, &v))?;
        Ok(unary(self.alloc, state, op, &v)?)
    }

    /// An operator between two operands.
    ///
    /// # Errors
    /// `Throw` with the value that the code throws, `Stop` with what stops the job, and `NoMemory`.
    #[tactic(auto, unfolding(mt_eval_meaning::specs::Expressions::operation))]
    pub fn operation(
        &self,
        activation: &[Address],
        state: &mut State,
        host: &mut H,
        op: Binary,
        a: &Expr,
        b: &Expr,
    ) -> Result<Value, Exit>
        requires { Nests H.meaning (rank self.now.calls self.now.depth) (F.pre self.now.expr) (F.post self.now.expr) (G.pre self.now.stmt) (G.post self.now.stmt) }
        ensures { Evals (forms.operation op ((parts self.now.functions.now H.meaning self.now.calls self.now.depth).expr a.now activation.now) ((parts self.now.functions.now H.meaning self.now.calls self.now.depth).expr b.now activation.now) (state.old, host.old)) result (state.new, host.new) }
    {
        let v = self.expr(activation, state, host, a)?;
        let w = self.expr(activation, state, host, b)?;
        spend(state, binary_cost(op, &v, &w))?;
        Ok(binary(self.alloc, state, op, &v, &w)?)
    }

    /// `a && b`: the second operand is evaluated where the first is true.
    ///
    /// # Errors
    /// `Throw` with the value that the code throws, `Stop` with what stops the job, and `NoMemory`.
    #[tactic(auto, unfolding(mt_eval_meaning::specs::Expressions::conjunction))]
    pub fn conjunction(
        &self,
        activation: &[Address],
        state: &mut State,
        host: &mut H,
        a: &Expr,
        b: &Expr,
    ) -> Result<Value, Exit>
        requires { Nests H.meaning (rank self.now.calls self.now.depth) (F.pre self.now.expr) (F.post self.now.expr) (G.pre self.now.stmt) (G.post self.now.stmt) }
        ensures { Evals (forms.conjunction ((parts self.now.functions.now H.meaning self.now.calls self.now.depth).expr a.now activation.now) ((parts self.now.functions.now H.meaning self.now.calls self.now.depth).expr b.now activation.now) (state.old, host.old)) result (state.new, host.new) }
    {
        let v = self.expr(activation, state, host, a)?;
        if !is_truthy(&v) {
            spend(state, 0)?;
            return Ok(v);
        }
        let w = self.expr(activation, state, host, b)?;
        spend(state, 0)?;
        Ok(w)
    }

    /// `a || b`: the second operand is evaluated where the first isn't true.
    ///
    /// # Errors
    /// `Throw` with the value that the code throws, `Stop` with what stops the job, and `NoMemory`.
    #[tactic(auto, unfolding(mt_eval_meaning::specs::Expressions::disjunction))]
    pub fn disjunction(
        &self,
        activation: &[Address],
        state: &mut State,
        host: &mut H,
        a: &Expr,
        b: &Expr,
    ) -> Result<Value, Exit>
        requires { Nests H.meaning (rank self.now.calls self.now.depth) (F.pre self.now.expr) (F.post self.now.expr) (G.pre self.now.stmt) (G.post self.now.stmt) }
        ensures { Evals (forms.disjunction ((parts self.now.functions.now H.meaning self.now.calls self.now.depth).expr a.now activation.now) ((parts self.now.functions.now H.meaning self.now.calls self.now.depth).expr b.now activation.now) (state.old, host.old)) result (state.new, host.new) }
    {
        let v = self.expr(activation, state, host, a)?;
        if is_truthy(&v) {
            spend(state, 0)?;
            return Ok(v);
        }
        let w = self.expr(activation, state, host, b)?;
        spend(state, 0)?;
        Ok(w)
    }

    /// `test ? a : b`
    ///
    /// # Errors
    /// `Throw` with the value that the code throws, `Stop` with what stops the job, and `NoMemory`.
    #[tactic(auto, unfolding(mt_eval_meaning::specs::Expressions::conditional))]
    pub fn conditional(
        &self,
        activation: &[Address],
        state: &mut State,
        host: &mut H,
        test: &Expr,
        a: &Expr,
        b: &Expr,
    ) -> Result<Value, Exit>
        requires { Nests H.meaning (rank self.now.calls self.now.depth) (F.pre self.now.expr) (F.post self.now.expr) (G.pre self.now.stmt) (G.post self.now.stmt) }
        ensures { Evals (forms.conditional ((parts self.now.functions.now H.meaning self.now.calls self.now.depth).expr test.now activation.now) ((parts self.now.functions.now H.meaning self.now.calls self.now.depth).expr a.now activation.now) ((parts self.now.functions.now H.meaning self.now.calls self.now.depth).expr b.now activation.now) (state.old, host.old)) result (state.new, host.new) }
    {
        let v = self.expr(activation, state, host, test)?;
        let chosen = if is_truthy(&v) { a } else { b };
        let w = self.expr(activation, state, host, chosen)?;
        spend(state, 0)?;
        Ok(w)
    }

    /// `a[k]`
    ///
    /// # Errors
    /// `Throw` with the value that the code throws, `Stop` with what stops the job, and `NoMemory`.
    #[tactic(auto, unfolding(mt_eval_meaning::specs::Expressions::index))]
    pub fn index(
        &self,
        activation: &[Address],
        state: &mut State,
        host: &mut H,
        a: &Expr,
        k: &Expr,
    ) -> Result<Value, Exit>
        requires { Nests H.meaning (rank self.now.calls self.now.depth) (F.pre self.now.expr) (F.post self.now.expr) (G.pre self.now.stmt) (G.post self.now.stmt) }
        ensures { Evals (forms.index (parts self.now.functions.now H.meaning self.now.calls self.now.depth).outside ((parts self.now.functions.now H.meaning self.now.calls self.now.depth).expr a.now activation.now) ((parts self.now.functions.now H.meaning self.now.calls self.now.depth).expr k.now activation.now) (state.old, host.old)) result (state.new, host.new) }
    {
        let base = self.expr(activation, state, host, a)?;
        let key = self.expr(activation, state, host, k)?;
        spend(state, property_cost(&base, &key))?;
        self.get(state, host, &base, &key)
    }

    /// `a = e`: the base and the key of a target are evaluated before the value.
    ///
    /// # Errors
    /// `Throw` with the value that the code throws, `Stop` with what stops the job, and `NoMemory`.
    #[tactic(auto, unfolding(mt_eval_meaning::specs::Expressions::assignment))]
    pub fn assignment(
        &self,
        activation: &[Address],
        state: &mut State,
        host: &mut H,
        a: &Expr,
        e: &Expr,
    ) -> Result<Value, Exit>
        requires { Nests H.meaning (rank self.now.calls self.now.depth) (F.pre self.now.expr) (F.post self.now.expr) (G.pre self.now.stmt) (G.post self.now.stmt) }
        ensures { Evals (forms.assignment (parts self.now.functions.now H.meaning self.now.calls self.now.depth).outside (spec.target self.now.functions.now (parts self.now.functions.now H.meaning self.now.calls self.now.depth) a.now activation.now) ((parts self.now.functions.now H.meaning self.now.calls self.now.depth).expr e.now activation.now) (state.old, host.old)) result (state.new, host.new) }
    {
        let place = self.target(activation, state, host, a)?;
        let v = self.expr(activation, state, host, e)?;
        spend(state, 0)?;
        self.write(state, host, &place, &v)?;
        Ok(v)
    }

    /// `a += e` and its like: the target is read before the operand is evaluated.
    ///
    /// # Errors
    /// `Throw` with the value that the code throws, `Stop` with what stops the job, and `NoMemory`.
    #[tactic(auto, unfolding(mt_eval_meaning::specs::Expressions::update))]
    pub fn update(
        &self,
        activation: &[Address],
        state: &mut State,
        host: &mut H,
        op: Binary,
        a: &Expr,
        e: &Expr,
    ) -> Result<Value, Exit>
        requires { Nests H.meaning (rank self.now.calls self.now.depth) (F.pre self.now.expr) (F.post self.now.expr) (G.pre self.now.stmt) (G.post self.now.stmt) }
        ensures { Evals (forms.update (parts self.now.functions.now H.meaning self.now.calls self.now.depth).outside op (spec.target self.now.functions.now (parts self.now.functions.now H.meaning self.now.calls self.now.depth) a.now activation.now) ((parts self.now.functions.now H.meaning self.now.calls self.now.depth).expr e.now activation.now) (state.old, host.old)) result (state.new, host.new) }
    {
        let place = self.target(activation, state, host, a)?;
        let old = self.read_free(state, host, &place)?;
        let v = self.expr(activation, state, host, e)?;
        spend(state, binary_cost(op, &old, &v))?;
        let new = binary(self.alloc, state, op, &old, &v)?;
        self.write(state, host, &place, &new)?;
        Ok(new)
    }

    /// `++a`, `--a`, `a++` and `a--`
    ///
    /// # Errors
    /// `Throw` with the value that the code throws, `Stop` with what stops the job, and `NoMemory`.
    #[tactic(auto, unfolding(mt_eval_meaning::specs::Expressions::count))]
    pub fn step(
        &self,
        activation: &[Address],
        state: &mut State,
        host: &mut H,
        kind: StepKind,
        a: &Expr,
    ) -> Result<Value, Exit>
        requires { Nests H.meaning (rank self.now.calls self.now.depth) (F.pre self.now.expr) (F.post self.now.expr) (G.pre self.now.stmt) (G.post self.now.stmt) }
        ensures { Evals (forms.count (parts self.now.functions.now H.meaning self.now.calls self.now.depth).outside kind (spec.target self.now.functions.now (parts self.now.functions.now H.meaning self.now.calls self.now.depth) a.now activation.now) (state.old, host.old)) result (state.new, host.new) }
    {
        let place = self.target(activation, state, host, a)?;
        let old = self.read_free(state, host, &place)?;
        spend(state, 0)?;
        let new = count(self.alloc, state, kind, &old)?;
        self.write(state, host, &place, &new)?;
        Ok(step_value(kind, old, new))
    }
}

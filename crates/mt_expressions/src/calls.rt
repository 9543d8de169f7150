ghost use Rattle.std.specs.Prelude.{◌≡◌};
ghost use Rattle.std.specs.Option.{option_copied};
ghost use Rattle.mt_eval_meaning.specs.Calls as calls;
ghost use Rattle.mt_eval_meaning.specs.Runs.{Evals};
ghost use Rattle.mt_evaluator.specs.Nests.{Nests, rank};
ghost use Rattle.mt_eval_meaning.specs.Slots as spec;
ghost use Rattle.mt_eval_meaning.specs.Slots.{parts};

use crate::expressions::Expressions;
use mt_eval_meaning::{Callee, Completion, Exit, Expr, Function, Host, State, Stmt};
use mt_eval_steps::{plain_method, spend, throw};
use mt_evaluator::is_hosted;
use mt_ops::ErrorKind;
use mt_ops_properties::property_cost;
use mt_tree::Text;
use mt_value::{Address, Value};
use std::alloc::Global;

/// The name of the method that a key gives; `None` where the property is to be called.
fn method_name<'k>(base: &Value, key: &'k Value) -> Option<&'k Text>
    ensures { option_copied result ≡ calls.method_name base.now key.now }
{
    match key {
        Value::Text(name) => match base {
            Value::Obj(_) => None,
            _ => Some(name),
        },
        _ => None,
    }
}

impl<
    'a,
    H: Host,
    F: Fn(
        Global,
        &[Function],
        usize,
        usize,
        &[Address],
        &mut State,
        &mut H,
        &Expr,
    ) -> Result<Value, Exit>,
    G: Fn(
        Global,
        &[Function],
        usize,
        usize,
        &[Address],
        &mut State,
        &mut H,
        &Stmt,
    ) -> Result<Completion, Exit>,
> Expressions<'a, H, F, G> {
    fn member_by(
        &self,
        state: &mut State,
        host: &mut H,
        name: Option<&Text>,
        base: Value,
        key: &Value,
    ) -> Result<Callee, Exit>
        ensures { Evals (calls.member_by (parts self.now.level.functions.now H.meaning self.now.level.calls self.now.level.depth).outside (option_copied name.entry) base key.now (state.old, host.old)) result (state.new, host.new) }
    {
        match name {
            Some(name) => {
                spend(state, 0)?;
                Ok(Callee::Method(base, name.share()?))
            }
            None => {
                spend(state, property_cost(&base, key))?;
                let f = self.level.get(state, host, &base, key)?;
                Ok(Callee::Function(f))
            }
        }
    }

    #[tactic(auto, unfolding(mt_eval_meaning::specs::Calls::member_callee))]
    fn member_callee(
        &self,
        activation: &[Address],
        state: &mut State,
        host: &mut H,
        a: &Expr,
        k: &Expr,
    ) -> Result<Callee, Exit>
        requires { Nests H.meaning (rank self.now.level.calls self.now.level.depth) (F.pre self.now.level.expr) (F.post self.now.level.expr) (G.pre self.now.level.stmt) (G.post self.now.level.stmt) }
        ensures { Evals (calls.member_callee (parts self.now.level.functions.now H.meaning self.now.level.calls self.now.level.depth).outside ((parts self.now.level.functions.now H.meaning self.now.level.calls self.now.level.depth).expr a.now activation.now) ((parts self.now.level.functions.now H.meaning self.now.level.calls self.now.level.depth).expr k.now activation.now) (state.old, host.old)) result (state.new, host.new) }
    {
        let base = self.level.expr(activation, state, host, a)?;
        let key = self.level.expr(activation, state, host, k)?;
        let name = method_name(&base, &key);
        self.member_by(state, host, name, base.share()?, &key)
    }

    #[tactic(auto, unfolding(mt_eval_meaning::specs::Calls::plain_callee))]
    fn plain_callee(
        &self,
        activation: &[Address],
        state: &mut State,
        host: &mut H,
        e: &Expr,
    ) -> Result<Callee, Exit>
        requires { Nests H.meaning (rank self.now.level.calls self.now.level.depth) (F.pre self.now.level.expr) (F.post self.now.level.expr) (G.pre self.now.level.stmt) (G.post self.now.level.stmt) }
        ensures { Evals (calls.plain_callee (parts self.now.level.functions.now H.meaning self.now.level.calls self.now.level.depth).outside ((parts self.now.level.functions.now H.meaning self.now.level.calls self.now.level.depth).expr e.now activation.now) (state.old, host.old)) result (state.new, host.new) }
    {
        let f = self.level.expr(activation, state, host, e)?;
        Ok(Callee::Function(f))
    }

    #[tactic(auto, unfolding(mt_eval_meaning::specs::Slots::callee))]
    fn callee(
        &self,
        activation: &[Address],
        state: &mut State,
        host: &mut H,
        e: &Expr,
    ) -> Result<Callee, Exit>
        requires { Nests H.meaning (rank self.now.level.calls self.now.level.depth) (F.pre self.now.level.expr) (F.post self.now.level.expr) (G.pre self.now.level.stmt) (G.post self.now.level.stmt) }
        ensures { Evals (spec.callee self.now.level.functions.now (parts self.now.level.functions.now H.meaning self.now.level.calls self.now.level.depth) e.now activation.now (state.old, host.old)) result (state.new, host.new) }
    {
        match e {
            Expr::Index(a, k) => self.member_callee(activation, state, host, a.get(), k.get()),
            _ => self.plain_callee(activation, state, host, e),
        }
    }

    /// Calls a value.
    ///
    /// # Errors
    /// `Throw` exactly where it is nothing that may be called, else as the call says, and `NoMemory`.
    #[tactic(auto, unfolding(mt_eval_meaning::specs::State::throw))]
    pub fn applied(
        &self,
        state: &mut State,
        host: &mut H,
        f: &Value,
        arguments: &[Value],
    ) -> Result<Value, Exit>
        requires { Nests H.meaning (rank self.now.level.calls self.now.level.depth) (F.pre self.now.level.expr) (F.post self.now.level.expr) (G.pre self.now.level.stmt) (G.post self.now.level.stmt) }
        ensures { Evals (calls.applied (parts self.now.level.functions.now H.meaning self.now.level.calls self.now.level.depth).outside f.now arguments.now (state.old, host.old)) result (state.new, host.new) }
    {
        match f {
            Value::Fun(at) => self.enter(state, host, *at, arguments),
            Value::Svc(name) => self.level.service(state, host, name, arguments),
            Value::Native(native) => self.level.native(state, host, *native, arguments),
            _ => Err(throw(self.level.alloc, state, &ErrorKind::NotFunction)),
        }
    }

    #[tactic(auto, unfolding(mt_eval_meaning::specs::Calls::applied_function))]
    fn applied_function(
        &self,
        state: &mut State,
        host: &mut H,
        f: &Value,
        arguments: &[Value],
    ) -> Result<Value, Exit>
        requires { Nests H.meaning (rank self.now.level.calls self.now.level.depth) (F.pre self.now.level.expr) (F.post self.now.level.expr) (G.pre self.now.level.stmt) (G.post self.now.level.stmt) }
        ensures { Evals (calls.applied_function (parts self.now.level.functions.now H.meaning self.now.level.calls self.now.level.depth).outside f.now arguments.now (state.old, host.old)) result (state.new, host.new) }
    {
        spend(state, 0)?;
        self.applied(state, host, f, arguments)
    }

    #[tactic(auto, unfolding(mt_eval_meaning::specs::Calls::hosted_method))]
    fn hosted_call(
        &self,
        state: &mut State,
        host: &mut H,
        base: &Value,
        key: &Text,
        arguments: &[Value],
    ) -> Result<Value, Exit>
        ensures { Evals (calls.hosted_method (parts self.now.level.functions.now H.meaning self.now.level.calls self.now.level.depth).outside base.now key.now arguments.now (state.old, host.old)) result (state.new, host.new) }
    {
        spend(state, 0)?;
        self.level.method(state, host, base, key, arguments)
    }

    fn invoked(
        &self,
        state: &mut State,
        host: &mut H,
        callee: &Callee,
        arguments: &[Value],
    ) -> Result<Value, Exit>
        requires { Nests H.meaning (rank self.now.level.calls self.now.level.depth) (F.pre self.now.level.expr) (F.post self.now.level.expr) (G.pre self.now.level.stmt) (G.post self.now.level.stmt) }
        ensures { Evals (calls.invoked (parts self.now.level.functions.now H.meaning self.now.level.calls self.now.level.depth).outside callee.now arguments.now (state.old, host.old)) result (state.new, host.new) }
    {
        match callee {
            Callee::Function(f) => self.applied_function(state, host, f, arguments),
            Callee::Method(base, key) => {
                if is_hosted(base) {
                    return self.hosted_call(state, host, base, key, arguments);
                }
                Ok(plain_method(self.level.alloc, state, base, key, arguments)?)
            }
        }
    }

    #[tactic(auto, unfolding(mt_eval_meaning::specs::Calls::call))]
    pub(crate) fn call(
        &self,
        activation: &[Address],
        state: &mut State,
        host: &mut H,
        f: &Expr,
        arguments: &[Expr],
    ) -> Result<Value, Exit>
        requires { Nests H.meaning (rank self.now.level.calls self.now.level.depth) (F.pre self.now.level.expr) (F.post self.now.level.expr) (G.pre self.now.level.stmt) (G.post self.now.level.stmt) }
        ensures { Evals (calls.call (parts self.now.level.functions.now H.meaning self.now.level.calls self.now.level.depth).outside (spec.callee self.now.level.functions.now (parts self.now.level.functions.now H.meaning self.now.level.calls self.now.level.depth) f.now activation.now) (spec.exprs self.now.level.functions.now (parts self.now.level.functions.now H.meaning self.now.level.calls self.now.level.depth) arguments.now activation.now) (state.old, host.old)) result (state.new, host.new) }
    {
        let callee = self.callee(activation, state, host, f)?;
        let values = self.level.exprs(activation, state, host, arguments)?;
        self.invoked(state, host, &callee, values.items())
    }
}

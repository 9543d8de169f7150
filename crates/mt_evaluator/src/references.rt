ghost use Rattle.std.specs.Prelude.{◌≡◌};
ghost use Rattle.std.specs.Option.{option_copied};
ghost use Rattle.mt_eval_meaning.specs.References as references;
ghost use Rattle.mt_eval_meaning.specs.Runs.{Evals};
ghost use Rattle.mt_eval_meaning.specs.State.{unmetered};
ghost use Rattle.mt_evaluator.specs.Nests.{Nests, rank};
ghost use Rattle.mt_eval_meaning.specs.Slots as spec;
ghost use Rattle.mt_eval_meaning.specs.Slots.{parts};

use crate::evaluator::Evaluator;
use mt_eval_meaning::{Completion, Exit, Expr, Function, Host, Reference, Referent, State, Stmt};
use mt_eval_steps::{get_property, read_global, read_variable, referent, set_property, write_name};
use mt_tree::Text;
use mt_value::{Address, Native, Value};
use std::alloc::Global;

/// Whether the properties and methods of a value are the host's.
pub fn is_hosted(base: &Value) -> bool
    ensures { result ≡ references.is_hosted base.now }
{
    matches!(
        base,
        Value::Frame(_) | Value::Node(_) | Value::Event(_) | Value::Native(_)
    )
}

/// The key by which the host is asked for a property or a method, `None` where the language has it.
fn host_key<'k>(base: &Value, key: &'k Value) -> Option<&'k Text>
    ensures { option_copied result ≡ references.host_key base.now key.now }
{
    match key {
        Value::Text(text) => { if is_hosted(base) { Some(text) } else { None } }
        _ => None,
    }
}

impl<
    'a,
    H: Host,
    F: Fn(
        Global,
        &[Function],
        usize,
        usize,
        &[Address],
        &mut State,
        &mut H,
        &Expr,
    ) -> Result<Value, Exit>,
    G: Fn(
        Global,
        &[Function],
        usize,
        usize,
        &[Address],
        &mut State,
        &mut H,
        &Stmt,
    ) -> Result<Completion, Exit>,
> Evaluator<'a, H, F, G> {
    fn read_builtin(&self, state: &mut State, host: &mut H, native: Native) -> Result<Value, Exit>
        ensures { Evals (references.read_builtin (parts self.now.functions.now H.meaning self.now.calls self.now.depth).outside native (state.old, host.old)) result (state.new, host.new) }
    {
        match native {
            Native::Event => self.native(state, host, Native::Event, &[]),
            _ => Ok(Value::Native(native)),
        }
    }

    /// The value of a name.
    ///
    /// # Errors
    /// `Throw` exactly where it isn't declared yet, and `NoMemory`.
    pub fn read_name(
        &self,
        state: &mut State,
        host: &mut H,
        name: &Text,
        referent: Referent,
    ) -> Result<Value, Exit>
        ensures { Evals (references.read_name (parts self.now.functions.now H.meaning self.now.calls self.now.depth).outside name.now referent (state.old, host.old)) result (state.new, host.new) }
    {
        match referent {
            Referent::Variable {
                address,
                constant: _,
            } => Ok(read_variable(self.alloc, state, name, address)?),
            Referent::Service => Ok(Value::Svc(name.share()?)),
            Referent::Builtin(native) => self.read_builtin(state, host, native),
            Referent::Global => Ok(read_global(self.alloc, state, name)?),
        }
    }

    /// The value of a property.
    ///
    /// # Errors
    /// As the tables of properties or the host say, and `NoMemory`.
    #[tactic(auto, unfolding(mt_eval_meaning::specs::References::get))]
    pub fn get(
        &self,
        state: &mut State,
        host: &mut H,
        base: &Value,
        key: &Value,
    ) -> Result<Value, Exit>
        ensures { Evals (references.get (parts self.now.functions.now H.meaning self.now.calls self.now.depth).outside base.now key.now (state.old, host.old)) result (state.new, host.new) }
    {
        match host_key(base, key) {
            Some(text) => self.hosted(state, host, base, text),
            None => Ok(get_property(self.alloc, state, base, key)?),
        }
    }

    fn set_by(
        &self,
        state: &mut State,
        host: &mut H,
        by: Option<&Text>,
        base: &Value,
        key: &Value,
        value: &Value,
    ) -> Result<Value, Exit>
        ensures { Evals (references.set_by (parts self.now.functions.now H.meaning self.now.calls self.now.depth).outside (option_copied by.entry) base.now key.now value.now (state.old, host.old)) result (state.new, host.new) }
    {
        match by {
            Some(text) => self.set_on_host(state, host, base, text, value),
            None => Ok(set_property(self.alloc, state, base, key, value)?),
        }
    }

    #[tactic(auto, unfolding(mt_eval_meaning::specs::References::set))]
    fn set(
        &self,
        state: &mut State,
        host: &mut H,
        base: &Value,
        key: &Value,
        value: &Value,
    ) -> Result<(), Exit>
        ensures { Evals (references.set (parts self.now.functions.now H.meaning self.now.calls self.now.depth).outside base.now key.now value.now (state.old, host.old)) result (state.new, host.new) }
    {
        let _answer = self.set_by(state, host, host_key(base, key), base, key, value)?;
        Ok(())
    }

    fn read(&self, state: &mut State, host: &mut H, reference: &Reference) -> Result<Value, Exit>
        ensures { Evals (references.read (parts self.now.functions.now H.meaning self.now.calls self.now.depth).outside reference.now (state.old, host.old)) result (state.new, host.new) }
    {
        match reference {
            Reference::Name(name, referent) => self.read_name(state, host, name, *referent),
            Reference::Property(base, key) => self.get(state, host, base, key),
        }
    }

    /// The value of what is to be assigned, which takes no steps.
    ///
    /// # Errors
    /// As the tables of properties or the host say, and `NoMemory`.
    #[tactic(auto, unfolding(mt_eval_meaning::specs::State::unmetered))]
    pub fn read_free(
        &self,
        state: &mut State,
        host: &mut H,
        reference: &Reference,
    ) -> Result<Value, Exit>
        ensures { Evals (unmetered (references.read (parts self.now.functions.now H.meaning self.now.calls self.now.depth).outside reference.now) (state.old, host.old)) result (state.new, host.new) }
    {
        let left = state.budget;
        state.budget = u64::MAX;
        let value = self.read(state, host, reference);
        state.budget = left;
        value
    }

    /// Assigns.
    ///
    /// # Errors
    /// As the tables of properties or the host say, `Throw` at a name that may not be assigned, and `NoMemory`.
    pub fn write(
        &self,
        state: &mut State,
        host: &mut H,
        reference: &Reference,
        value: &Value,
    ) -> Result<(), Exit>
        ensures { Evals (references.write (parts self.now.functions.now H.meaning self.now.calls self.now.depth).outside reference.now value.now (state.old, host.old)) result (state.new, host.new) }
    {
        match reference {
            Reference::Name(name, referent) => {
                write_name(self.alloc, state, name, *referent, value.share()?)?;
                Ok(())
            }
            Reference::Property(base, key) => self.set(state, host, base, key, value),
        }
    }

    /// What an expression names as a target, whose base and key are evaluated.
    ///
    /// # Errors
    /// `Throw` with the value that the code throws, `Stop` with what stops the job, and `NoMemory`.
    #[tactic(auto, unfolding(mt_eval_meaning::specs::Slots::target))]
    pub fn target(
        &self,
        activation: &[Address],
        state: &mut State,
        host: &mut H,
        e: &Expr,
    ) -> Result<Reference, Exit>
        requires { Nests H.meaning (rank self.now.calls self.now.depth) (F.pre self.now.expr) (F.post self.now.expr) (G.pre self.now.stmt) (G.post self.now.stmt) }
        ensures { Evals (spec.target self.now.functions.now (parts self.now.functions.now H.meaning self.now.calls self.now.depth) e.now activation.now (state.old, host.old)) result (state.new, host.new) }
    {
        match e {
            Expr::Name(name) => Ok(Reference::Name(
                name.text.share()?,
                referent(activation, name.binding),
            )),
            Expr::Index(a, k) => {
                let base = self.expr(activation, state, host, a.get())?;
                let key = self.expr(activation, state, host, k.get())?;
                Ok(Reference::Property(base, key))
            }
            _ => Ok(Reference::Property(Value::Undefined, Value::Undefined)),
        }
    }
}

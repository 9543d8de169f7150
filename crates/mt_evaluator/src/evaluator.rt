ghost use Rattle.mt_eval_meaning.specs.Runs.{Evals};
ghost use Rattle.mt_evaluator.specs.Nests.{Nests, rank};
ghost use Rattle.mt_eval_meaning.specs.Slots.{parts};

use mt_eval_meaning::{Completion, Exit, Expr, Function, Host, NamedValue, State, Stmt};
use mt_eval_steps::{
    call_native, call_service, get_hosted, hosted_method, make_element, set_hosted, stage_tilde,
};
use mt_tree::Text;
use mt_value::{Address, Native, Value};
use std::alloc::Global;
use std::marker::PhantomData;

/// A level of an evaluation: the depth of code and the calls of functions that are left, and what evaluates the parts of a node.
#[derive(Clone, Copy)]
pub struct Evaluator<'a, H, F, G> {
    /// What memory is taken from.
    pub alloc: Global,
    /// The code of all functions, by their numbers.
    pub functions: &'a [Function],
    /// How many calls of functions may still begin.
    pub calls: usize,
    /// How deep the parts of a node may be.
    pub depth: usize,
    /// Evaluates an expression in an activation.
    pub expr: F,
    /// Evaluates a statement in an activation.
    pub stmt: G,
    /// The host's type.
    pub host: PhantomData<H>,
}

impl<
    'a,
    H: Host,
    F: Fn(
        Global,
        &[Function],
        usize,
        usize,
        &[Address],
        &mut State,
        &mut H,
        &Expr,
    ) -> Result<Value, Exit>,
    G: Fn(
        Global,
        &[Function],
        usize,
        usize,
        &[Address],
        &mut State,
        &mut H,
        &Stmt,
    ) -> Result<Completion, Exit>,
> Evaluator<'a, H, F, G> {
    /// The value of a part of a node.
    ///
    /// # Errors
    /// `Throw` with the value that the code throws, `Stop` with what stops the job, and `NoMemory`.
    pub fn expr(
        &self,
        activation: &[Address],
        state: &mut State,
        host: &mut H,
        e: &Expr,
    ) -> Result<Value, Exit>
        requires { Nests H.meaning (rank self.now.calls self.now.depth) (F.pre self.now.expr) (F.post self.now.expr) (G.pre self.now.stmt) (G.post self.now.stmt) }
        ensures { Evals ((parts self.now.functions.now H.meaning self.now.calls self.now.depth).expr e.now activation.now (state.old, host.old)) result (state.new, host.new) }
    {
        (self.expr)(
            self.alloc,
            self.functions,
            self.calls,
            self.depth,
            activation,
            state,
            host,
            e,
        )
    }

    /// Calls a builtin.
    ///
    /// # Errors
    /// As the host says, and `NoMemory`.
    #[tactic(auto, unfolding(mt_eval_meaning::specs::Slots::parts))]
    pub fn native(
        &self,
        state: &mut State,
        host: &mut H,
        which: Native,
        arguments: &[Value],
    ) -> Result<Value, Exit>
        ensures { Evals ((parts self.now.functions.now H.meaning self.now.calls self.now.depth).outside.native which arguments.now (state.old, host.old)) result (state.new, host.new) }
    {
        call_native(self.alloc, state, host, which, arguments)
    }

    /// Calls a method of a value that is the host's own.
    ///
    /// # Errors
    /// As the host says, and `NoMemory`.
    #[tactic(auto, unfolding(mt_eval_meaning::specs::Slots::parts))]
    pub fn method(
        &self,
        state: &mut State,
        host: &mut H,
        base: &Value,
        key: &Text,
        arguments: &[Value],
    ) -> Result<Value, Exit>
        ensures { Evals ((parts self.now.functions.now H.meaning self.now.calls self.now.depth).outside.method base.now key.now arguments.now (state.old, host.old)) result (state.new, host.new) }
    {
        hosted_method(self.alloc, state, host, base, key, arguments)
    }

    /// Reads a property of a value that is the host's own.
    ///
    /// # Errors
    /// As the host says, and `NoMemory`.
    #[tactic(auto, unfolding(mt_eval_meaning::specs::Slots::parts))]
    pub fn hosted(
        &self,
        state: &mut State,
        host: &mut H,
        base: &Value,
        key: &Text,
    ) -> Result<Value, Exit>
        ensures { Evals ((parts self.now.functions.now H.meaning self.now.calls self.now.depth).outside.get base.now key.now (state.old, host.old)) result (state.new, host.new) }
    {
        get_hosted(self.alloc, state, host, base, key)
    }

    /// Writes a property of a value that is the host's own.
    ///
    /// # Errors
    /// As the host says, and `NoMemory`.
    #[tactic(auto, unfolding(mt_eval_meaning::specs::Slots::parts))]
    pub fn set_on_host(
        &self,
        state: &mut State,
        host: &mut H,
        base: &Value,
        key: &Text,
        value: &Value,
    ) -> Result<Value, Exit>
        ensures { Evals ((parts self.now.functions.now H.meaning self.now.calls self.now.depth).outside.set base.now key.now value.now (state.old, host.old)) result (state.new, host.new) }
    {
        set_hosted(self.alloc, state, host, base, key, value)
    }

    /// Calls a service.
    ///
    /// # Errors
    /// As the host says, and `NoMemory`.
    #[tactic(auto, unfolding(mt_eval_meaning::specs::Slots::parts))]
    pub fn service(
        &self,
        state: &mut State,
        host: &mut H,
        name: &Text,
        arguments: &[Value],
    ) -> Result<Value, Exit>
        ensures { Evals ((parts self.now.functions.now H.meaning self.now.calls self.now.depth).outside.frame name.now arguments.now (state.old, host.old)) result (state.new, host.new) }
    {
        call_service(self.alloc, state, host, name, arguments)
    }

    /// Makes client code of a tilde.
    ///
    /// # Errors
    /// As the host says, and `NoMemory`.
    #[tactic(auto, unfolding(mt_eval_meaning::specs::Slots::parts))]
    pub fn staged(
        &self,
        state: &mut State,
        host: &mut H,
        tilde: u32,
        values: &[Value],
    ) -> Result<Value, Exit>
        ensures { Evals ((parts self.now.functions.now H.meaning self.now.calls self.now.depth).outside.staged tilde values.now (state.old, host.old)) result (state.new, host.new) }
    {
        stage_tilde(self.alloc, state, host, tilde, values)
    }

    /// Makes an element.
    ///
    /// # Errors
    /// As the host says, and `NoMemory`.
    #[tactic(auto, unfolding(mt_eval_meaning::specs::Slots::parts))]
    pub fn element_of(
        &self,
        state: &mut State,
        host: &mut H,
        tag: &Text,
        attributes: &[NamedValue],
        children: &[Value],
    ) -> Result<Value, Exit>
        ensures { Evals ((parts self.now.functions.now H.meaning self.now.calls self.now.depth).outside.element tag.now attributes.now children.now (state.old, host.old)) result (state.new, host.new) }
    {
        make_element(self.alloc, state, host, tag, attributes, children)
    }
}

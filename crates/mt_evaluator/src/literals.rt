ghost use Rattle.std.specs.Prelude.{map};
ghost use Rattle.mt_eval_meaning.specs.Expressions as forms;
ghost use Rattle.mt_eval_meaning.specs.Runs.{Evals, all};
ghost use Rattle.mt_evaluator.specs.Nests.{Nests, rank};
ghost use Rattle.mt_eval_meaning.specs.Slots as spec;
ghost use Rattle.mt_eval_meaning.specs.Slots.{parts};

use crate::data::{build_cells, spend_nodes};
use crate::evaluator::Evaluator;
use mt_eval_meaning::{
    Attribute, Completion, Entry, Exit, Expr, Function, Host, NamedValue, Piece, State, Stmt,
};
use mt_eval_steps::{add_cell, literal_properties, spend};
use mt_tree::{Buffer, Data, Text};
use mt_value::{Address, Cell, Property, Value};
use std::alloc::Global;

impl<
    'a,
    H: Host,
    F: Fn(
        Global,
        &[Function],
        usize,
        usize,
        &[Address],
        &mut State,
        &mut H,
        &Expr,
    ) -> Result<Value, Exit>,
    G: Fn(
        Global,
        &[Function],
        usize,
        usize,
        &[Address],
        &mut State,
        &mut H,
        &Stmt,
    ) -> Result<Completion, Exit>,
> Evaluator<'a, H, F, G> {
    /// The values of expressions, from left to right.
    ///
    /// # Errors
    /// `Throw` with the value that the code throws, `Stop` with what stops the job, and `NoMemory`.
    pub fn exprs(
        &self,
        activation: &[Address],
        state: &mut State,
        host: &mut H,
        mut items: &[Expr],
    ) -> Result<Buffer<Value>, Exit>
        requires { Nests H.meaning (rank self.now.calls self.now.depth) (F.pre self.now.expr) (F.post self.now.expr) (G.pre self.now.stmt) (G.post self.now.stmt) }
        ensures { Evals (all (spec.exprs self.now.functions.now (parts self.now.functions.now H.meaning self.now.calls self.now.depth) items.entry.now activation.now) (state.old, host.old)) result (state.new, host.new) }
    {
        let mut done = Buffer::new(self.alloc);
        while let [item, rest @ ..] = items {
            done.push(self.expr(activation, state, host, item)?)?;
            items = rest;
        }
        Ok(done)
    }

    #[tactic(auto, unfolding(mt_eval_meaning::specs::Expressions::entry))]
    fn entry(
        &self,
        activation: &[Address],
        state: &mut State,
        host: &mut H,
        item: &Entry,
    ) -> Result<Property, Exit>
        requires { Nests H.meaning (rank self.now.calls self.now.depth) (F.pre self.now.expr) (F.post self.now.expr) (G.pre self.now.stmt) (G.post self.now.stmt) }
        ensures { Evals (spec.entry self.now.functions.now (parts self.now.functions.now H.meaning self.now.calls self.now.depth) item.now activation.now (state.old, host.old)) result (state.new, host.new) }
    {
        let value = self.expr(activation, state, host, &item.value)?;
        Ok(Property {
            name: item.name.share()?,
            value,
        })
    }

    fn entries(
        &self,
        activation: &[Address],
        state: &mut State,
        host: &mut H,
        mut items: &[Entry],
    ) -> Result<Buffer<Property>, Exit>
        requires { Nests H.meaning (rank self.now.calls self.now.depth) (F.pre self.now.expr) (F.post self.now.expr) (G.pre self.now.stmt) (G.post self.now.stmt) }
        ensures { Evals (all (map (λ q. spec.entry self.now.functions.now (parts self.now.functions.now H.meaning self.now.calls self.now.depth) q activation.now) items.entry.now) (state.old, host.old)) result (state.new, host.new) }
    {
        let mut done = Buffer::new(self.alloc);
        while let [item, rest @ ..] = items {
            done.push(self.entry(activation, state, host, item)?)?;
            items = rest;
        }
        Ok(done)
    }

    #[tactic(auto, unfolding(mt_eval_meaning::specs::Slots::piece))]
    fn piece(
        &self,
        activation: &[Address],
        state: &mut State,
        host: &mut H,
        item: &Piece,
    ) -> Result<Value, Exit>
        requires { Nests H.meaning (rank self.now.calls self.now.depth) (F.pre self.now.expr) (F.post self.now.expr) (G.pre self.now.stmt) (G.post self.now.stmt) }
        ensures { Evals (spec.piece self.now.functions.now (parts self.now.functions.now H.meaning self.now.calls self.now.depth) item.now activation.now (state.old, host.old)) result (state.new, host.new) }
    {
        match item {
            Piece::Text(text) => Ok(Value::Text(text.share()?)),
            Piece::Expr(e) => self.expr(activation, state, host, e),
        }
    }

    fn pieces(
        &self,
        activation: &[Address],
        state: &mut State,
        host: &mut H,
        mut items: &[Piece],
    ) -> Result<Buffer<Value>, Exit>
        requires { Nests H.meaning (rank self.now.calls self.now.depth) (F.pre self.now.expr) (F.post self.now.expr) (G.pre self.now.stmt) (G.post self.now.stmt) }
        ensures { Evals (all (map (λ c. spec.piece self.now.functions.now (parts self.now.functions.now H.meaning self.now.calls self.now.depth) c activation.now) items.entry.now) (state.old, host.old)) result (state.new, host.new) }
    {
        let mut done = Buffer::new(self.alloc);
        while let [item, rest @ ..] = items {
            done.push(self.piece(activation, state, host, item)?)?;
            items = rest;
        }
        Ok(done)
    }

    #[tactic(auto, unfolding(mt_eval_meaning::specs::Expressions::attribute))]
    fn attribute(
        &self,
        activation: &[Address],
        state: &mut State,
        host: &mut H,
        item: &Attribute,
    ) -> Result<NamedValue, Exit>
        requires { Nests H.meaning (rank self.now.calls self.now.depth) (F.pre self.now.expr) (F.post self.now.expr) (G.pre self.now.stmt) (G.post self.now.stmt) }
        ensures { Evals (spec.attribute self.now.functions.now (parts self.now.functions.now H.meaning self.now.calls self.now.depth) item.now activation.now (state.old, host.old)) result (state.new, host.new) }
    {
        let value = self.piece(activation, state, host, &item.value)?;
        Ok(NamedValue {
            name: item.name.share()?,
            value,
        })
    }

    fn attributes(
        &self,
        activation: &[Address],
        state: &mut State,
        host: &mut H,
        mut items: &[Attribute],
    ) -> Result<Buffer<NamedValue>, Exit>
        requires { Nests H.meaning (rank self.now.calls self.now.depth) (F.pre self.now.expr) (F.post self.now.expr) (G.pre self.now.stmt) (G.post self.now.stmt) }
        ensures { Evals (all (map (λ a. spec.attribute self.now.functions.now (parts self.now.functions.now H.meaning self.now.calls self.now.depth) a activation.now) items.entry.now) (state.old, host.old)) result (state.new, host.new) }
    {
        let mut done = Buffer::new(self.alloc);
        while let [item, rest @ ..] = items {
            done.push(self.attribute(activation, state, host, item)?)?;
            items = rest;
        }
        Ok(done)
    }

    /// `[a, b]`
    ///
    /// # Errors
    /// `Throw` with the value that the code throws, `Stop` with what stops the job, and `NoMemory`.
    #[tactic(auto, unfolding(mt_eval_meaning::specs::Expressions::array))]
    pub fn array(
        &self,
        activation: &[Address],
        state: &mut State,
        host: &mut H,
        items: &[Expr],
    ) -> Result<Value, Exit>
        requires { Nests H.meaning (rank self.now.calls self.now.depth) (F.pre self.now.expr) (F.post self.now.expr) (G.pre self.now.stmt) (G.post self.now.stmt) }
        ensures { Evals (forms.array (spec.exprs self.now.functions.now (parts self.now.functions.now H.meaning self.now.calls self.now.depth) items.now activation.now) (state.old, host.old)) result (state.new, host.new) }
    {
        let values = self.exprs(activation, state, host, items)?;
        spend(state, 0)?;
        let at = add_cell(state, Cell::Arr(values))?;
        Ok(Value::Arr(at))
    }

    /// `{k: a, l: b}`: a repeated key keeps its first place, and takes its last value.
    ///
    /// # Errors
    /// `Throw` with the value that the code throws, `Stop` with what stops the job, and `NoMemory`.
    #[tactic(auto, unfolding(mt_eval_meaning::specs::Expressions::object))]
    pub fn object(
        &self,
        activation: &[Address],
        state: &mut State,
        host: &mut H,
        items: &[Entry],
    ) -> Result<Value, Exit>
        requires { Nests H.meaning (rank self.now.calls self.now.depth) (F.pre self.now.expr) (F.post self.now.expr) (G.pre self.now.stmt) (G.post self.now.stmt) }
        ensures { Evals (forms.object (map (λ q. spec.entry self.now.functions.now (parts self.now.functions.now H.meaning self.now.calls self.now.depth) q activation.now) items.now) (state.old, host.old)) result (state.new, host.new) }
    {
        let entries = self.entries(activation, state, host, items)?;
        spend(state, 0)?;
        let properties = literal_properties(self.alloc, state, entries.items())?;
        let at = add_cell(state, Cell::Obj(properties))?;
        Ok(Value::Obj(at))
    }

    /// A tilde, by its number and the expressions of its dollars.
    ///
    /// # Errors
    /// `Throw` with the value that the code throws, `Stop` with what stops the job, and `NoMemory`.
    #[tactic(auto, unfolding(mt_eval_meaning::specs::Expressions::tilde))]
    pub fn tilde(
        &self,
        activation: &[Address],
        state: &mut State,
        host: &mut H,
        id: u32,
        dollars: &[Expr],
    ) -> Result<Value, Exit>
        requires { Nests H.meaning (rank self.now.calls self.now.depth) (F.pre self.now.expr) (F.post self.now.expr) (G.pre self.now.stmt) (G.post self.now.stmt) }
        ensures { Evals (forms.tilde (parts self.now.functions.now H.meaning self.now.calls self.now.depth).outside id (spec.exprs self.now.functions.now (parts self.now.functions.now H.meaning self.now.calls self.now.depth) dollars.now activation.now) (state.old, host.old)) result (state.new, host.new) }
    {
        let values = self.exprs(activation, state, host, dollars)?;
        spend(state, 0)?;
        self.staged(state, host, id, values.items())
    }

    /// An element, by its tag, its attributes and its children.
    ///
    /// # Errors
    /// `Throw` with the value that the code throws, `Stop` with what stops the job, and `NoMemory`.
    #[tactic(auto, unfolding(mt_eval_meaning::specs::Expressions::element))]
    pub fn element(
        &self,
        activation: &[Address],
        state: &mut State,
        host: &mut H,
        tag: &Text,
        attributes: &[Attribute],
        children: &[Piece],
    ) -> Result<Value, Exit>
        requires { Nests H.meaning (rank self.now.calls self.now.depth) (F.pre self.now.expr) (F.post self.now.expr) (G.pre self.now.stmt) (G.post self.now.stmt) }
        ensures { Evals (forms.element (parts self.now.functions.now H.meaning self.now.calls self.now.depth).outside tag.now (map (λ a. spec.attribute self.now.functions.now (parts self.now.functions.now H.meaning self.now.calls self.now.depth) a activation.now) attributes.now) (map (λ c. spec.piece self.now.functions.now (parts self.now.functions.now H.meaning self.now.calls self.now.depth) c activation.now) children.now) (state.old, host.old)) result (state.new, host.new) }
    {
        let named = self.attributes(activation, state, host, attributes)?;
        let values = self.pieces(activation, state, host, children)?;
        spend(state, 0)?;
        self.element_of(state, host, tag, named.items(), values.items())
    }
    /// A value that was put in the place of a dollar, with fresh cells for its arrays and objects.
    ///
    /// # Errors
    /// The stop `Budget`, where its nodes are more than what is left, and `NoMemory`.
    #[tactic(auto, unfolding(mt_eval_meaning::specs::Expressions::built))]
    pub fn built(&self, state: &mut State, host: &mut H, datum: &Data) -> Result<Value, Exit>
        ensures { Evals (forms.built datum.now (state.old, host.old)) result (state.new, host.new) }
    {
        spend_nodes(state, datum)?;
        Ok(build_cells(self.alloc, state, datum)?)
    }
}

ghost use Rattle.std.specs.Prelude.{Some, None};
ghost use Rattle.mt_eval_meaning.specs.Runs.{Evals};
ghost use Rattle.mt_eval_meaning.specs.Statements as statements;
ghost use Rattle.mt_evaluator.specs.Nests.{Nests, rank};
ghost use Rattle.mt_eval_meaning.specs.Slots as spec;
ghost use Rattle.mt_eval_meaning.specs.Slots.{parts};
ghost use Rattle.mt_tree.specs.declared.operators.VarKind.TheVariants as word;

use crate::statements::Statements;
use mt_eval_meaning::{Completion, Decl, Exit, Expr, ForStart, Function, Host, Name, State, Stmt};
use mt_eval_steps::{declare, referent, write_name};
use mt_tree::VarKind;
use mt_value::{Address, Value};
use std::alloc::Global;

impl<
    'a,
    H: Host,
    F: Fn(
        Global,
        &[Function],
        usize,
        usize,
        &[Address],
        &mut State,
        &mut H,
        &Expr,
    ) -> Result<Value, Exit>,
    G: Fn(
        Global,
        &[Function],
        usize,
        usize,
        &[Address],
        &mut State,
        &mut H,
        &Stmt,
    ) -> Result<Completion, Exit>,
> Statements<'a, H, F, G> {
    fn declared(
        &self,
        activation: &[Address],
        state: &mut State,
        host: &mut H,
        kind: VarKind,
        name: &Name,
    ) -> Result<(), Exit>
        ensures { Evals (spec.declared_by self.now.level.functions.now (parts self.now.level.functions.now H.meaning self.now.level.calls self.now.level.depth) kind name.now None activation.now (state.old, host.old)) result (state.new, host.new) }
    {
        match kind {
            VarKind::Var => Ok(()),
            VarKind::Let | VarKind::Const => {
                let named = referent(activation, name.binding);
                Ok(declare(state, &name.text, named, Value::Undefined)?)
            }
        }
    }

    fn assigned(
        &self,
        activation: &[Address],
        state: &mut State,
        host: &mut H,
        name: &Name,
        e: &Expr,
    ) -> Result<(), Exit>
        requires { Nests H.meaning (rank self.now.level.calls self.now.level.depth) (F.pre self.now.level.expr) (F.post self.now.level.expr) (G.pre self.now.level.stmt) (G.post self.now.level.stmt) }
        ensures { Evals (spec.declared_by self.now.level.functions.now (parts self.now.level.functions.now H.meaning self.now.level.calls self.now.level.depth) word.Var name.now (Some e.now) activation.now (state.old, host.old)) result (state.new, host.new) }
    {
        let v = self.level.expr(activation, state, host, e)?;
        let named = referent(activation, name.binding);
        Ok(write_name(self.level.alloc, state, &name.text, named, v)?)
    }

    fn initialized(
        &self,
        activation: &[Address],
        state: &mut State,
        host: &mut H,
        name: &Name,
        e: &Expr,
    ) -> Result<(), Exit>
        requires { Nests H.meaning (rank self.now.level.calls self.now.level.depth) (F.pre self.now.level.expr) (F.post self.now.level.expr) (G.pre self.now.level.stmt) (G.post self.now.level.stmt) }
        ensures { Evals (spec.declared_by self.now.level.functions.now (parts self.now.level.functions.now H.meaning self.now.level.calls self.now.level.depth) word.Let name.now (Some e.now) activation.now (state.old, host.old)) result (state.new, host.new) }
    {
        let v = self.level.expr(activation, state, host, e)?;
        let named = referent(activation, name.binding);
        Ok(declare(state, &name.text, named, v)?)
    }

    fn declared_with(
        &self,
        activation: &[Address],
        state: &mut State,
        host: &mut H,
        kind: VarKind,
        name: &Name,
        e: &Expr,
    ) -> Result<(), Exit>
        requires { Nests H.meaning (rank self.now.level.calls self.now.level.depth) (F.pre self.now.level.expr) (F.post self.now.level.expr) (G.pre self.now.level.stmt) (G.post self.now.level.stmt) }
        ensures { Evals (spec.declared_by self.now.level.functions.now (parts self.now.level.functions.now H.meaning self.now.level.calls self.now.level.depth) kind name.now (Some e.now) activation.now (state.old, host.old)) result (state.new, host.new) }
    {
        match kind {
            VarKind::Var => self.assigned(activation, state, host, name, e),
            VarKind::Let => self.initialized(activation, state, host, name, e),
            VarKind::Const => self.initialized(activation, state, host, name, e),
        }
    }

    #[tactic(auto, unfolding(mt_eval_meaning::specs::Slots::declaration))]
    fn declaration(
        &self,
        activation: &[Address],
        state: &mut State,
        host: &mut H,
        kind: VarKind,
        decl: &Decl,
    ) -> Result<(), Exit>
        requires { Nests H.meaning (rank self.now.level.calls self.now.level.depth) (F.pre self.now.level.expr) (F.post self.now.level.expr) (G.pre self.now.level.stmt) (G.post self.now.level.stmt) }
        ensures { Evals (spec.declaration self.now.level.functions.now (parts self.now.level.functions.now H.meaning self.now.level.calls self.now.level.depth) kind activation.now decl.now (state.old, host.old)) result (state.new, host.new) }
    {
        match &decl.value {
            None => self.declared(activation, state, host, kind, &decl.name),
            Some(e) => self.declared_with(activation, state, host, kind, &decl.name, e),
        }
    }

    fn declarations(
        &self,
        activation: &[Address],
        state: &mut State,
        host: &mut H,
        kind: VarKind,
        mut decls: &[Decl],
    ) -> Result<(), Exit>
        requires { Nests H.meaning (rank self.now.level.calls self.now.level.depth) (F.pre self.now.level.expr) (F.post self.now.level.expr) (G.pre self.now.level.stmt) (G.post self.now.level.stmt) }
        ensures { Evals (spec.declarations self.now.level.functions.now (parts self.now.level.functions.now H.meaning self.now.level.calls self.now.level.depth) kind decls.entry.now activation.now (state.old, host.old)) result (state.new, host.new) }
    {
        while let [decl, rest @ ..] = decls {
            self.declaration(activation, state, host, kind, decl)?;
            decls = rest;
        }
        Ok(())
    }

    pub(crate) fn started(
        &self,
        activation: &[Address],
        state: &mut State,
        host: &mut H,
        start: &ForStart,
    ) -> Result<(), Exit>
        requires { Nests H.meaning (rank self.now.level.calls self.now.level.depth) (F.pre self.now.level.expr) (F.post self.now.level.expr) (G.pre self.now.level.stmt) (G.post self.now.level.stmt) }
        ensures { Evals (spec.started_by self.now.level.functions.now (parts self.now.level.functions.now H.meaning self.now.level.calls self.now.level.depth) start.now activation.now (state.old, host.old)) result (state.new, host.new) }
    {
        match start {
            ForStart::Absent => Ok(()),
            ForStart::Var(decls) => {
                self.declarations(activation, state, host, VarKind::Var, decls.items())
            }
            ForStart::Expr(e) => {
                let _value = self.level.expr(activation, state, host, e)?;
                Ok(())
            }
        }
    }

    #[tactic(auto, unfolding(mt_eval_meaning::specs::Statements::finished))]
    pub(crate) fn var(
        &self,
        activation: &[Address],
        state: &mut State,
        host: &mut H,
        kind: VarKind,
        decls: &[Decl],
    ) -> Result<Completion, Exit>
        requires { Nests H.meaning (rank self.now.level.calls self.now.level.depth) (F.pre self.now.level.expr) (F.post self.now.level.expr) (G.pre self.now.level.stmt) (G.post self.now.level.stmt) }
        ensures { Evals (statements.finished (spec.declarations self.now.level.functions.now (parts self.now.level.functions.now H.meaning self.now.level.calls self.now.level.depth) kind decls.now activation.now) (state.old, host.old)) result (state.new, host.new) }
    {
        self.declarations(activation, state, host, kind, decls)?;
        Ok(Completion::Normal)
    }
}

ghost use Rattle.std.specs.Prelude.{◌≡◌, IfOk, slice_get};
ghost use Rattle.mt_eval_meaning.specs.Scopes.{binding_of, outer_binding};
ghost use Rattle.mt_eval_meaning.specs.Evaluation.{client_surroundings, dollars_of, server_surroundings};
ghost use Rattle.mt_eval_meaning.specs.Names.{referent_outside};
ghost use Rattle.mt_resolve_names.specs.Around.{surroundings_of};
ghost use Rattle.mt_resolve_names.specs.Bound.{captured, name_in};

use crate::builtins::{Tier, builtin};
use crate::scope::{cut, find};
use crate::slot::Slot;
use mt_eval_meaning::{Binding, Name};
use mt_resolve_free::{FreeNames, has, service_names};
use mt_syntax::{Expr, Function, Program};
use mt_tree::{NoMemory, Row, Text};
use std::alloc::Global;
use std::marker::Model;

/// What stands around code. Contracts see its tier, the names of its services and the tildes.
#[derive(Drop)]
pub struct Surroundings {
    alloc: Global,
    tier: Tier,
    // The names of the services.
    services: Row<Text>,
    // The tildes, with the names in them.
    free: FreeNames,
}

impl Model for Surroundings {
    ghost use Rattle.mt_resolve_names.specs.Around.{Around, tier_of};
    ghost use Rattle.mt_syntax.specs.contracts.tree.Expr as expr;
    ghost use Rattle.mt_syntax.specs.contracts.tree.Stmt as stmt;
    ghost use Rattle.std.specs.Coded.{codes};

    ghost Value = { Around };

    ghost coded = { Prim.hlevel (codes, expr.the_row.coded, stmt.the_row.coded) };

    ghost view = { λ s. record { tier = tier_of s.tier; services = s.services; tildes = s.free } };
}

impl Surroundings {
    /// Those of the file of a program: the services that it declares, and its tildes.
    ///
    /// # Errors
    /// `NoMemory`.
    pub fn of_file(alloc: Global, program: &Program) -> Result<Surroundings, NoMemory>
        ensures { IfOk result (λ around. surroundings_of around ≡ server_surroundings program.now) }
    {
        Ok(Surroundings {
            alloc,
            tier: Tier::Server,
            services: Row::from_vec(alloc, service_names(alloc, program.items.items())?)?,
            free: FreeNames::new(alloc, &program.tildes)?,
        })
    }

    /// Those of client code, which knows no services and has no tildes.
    ///
    /// # Errors
    /// `NoMemory`.
    pub fn of_client(alloc: Global) -> Result<Surroundings, NoMemory>
        ensures { IfOk result (λ around. surroundings_of around ≡ client_surroundings) }
    {
        let tildes = Row::from_vec(alloc, Vec::new(alloc))?;
        Ok(Surroundings {
            alloc,
            tier: Tier::Client,
            services: Row::from_vec(alloc, Vec::new(alloc))?,
            free: FreeNames::new(alloc, &tildes)?,
        })
    }

    // What a name stands for that nothing binds around it. Takes no memory.
    #[tactic(auto, unfolding(mt_eval_meaning::specs::Names::referent_outside))]
    fn outside(&self, name: &Text) -> Binding
        ensures { result ≡ outer_binding (referent_outside (surroundings_of self.now) name.now) }
    {
        if has(self.services.items(), name) {
            return Binding::Service;
        }
        match builtin(self.tier, name) {
            Some(native) => Binding::Builtin(native),
            None => Binding::Global,
        }
    }

    // What a name stands for in a scope. Takes no memory.
    fn binding(&self, scope: &[Slot], name: &Text) -> Binding
        ensures { result ≡ binding_of (surroundings_of self.now) scope.now name.now }
    {
        match find(scope, name) {
            Some(slot) => Binding::Slot {
                slot: slot.slot,
                constant: slot.constant,
            },
            None => self.outside(name),
        }
    }

    /// A name with what it stands for in a scope: its newest slot, or what it is outside of all scopes.
    ///
    /// # Errors
    /// `NoMemory`.
    pub fn name(&self, scope: &[Slot], text: &Text) -> Result<Name, NoMemory>
        ensures { IfOk result (λ name. name ≡ name_in (surroundings_of self.now) scope.now text.now) }
    {
        Ok(Name {
            text: text.share()?,
            binding: self.binding(scope, text),
        })
    }

    /// The slots of a scope that a function captures: the newest of each name that is free in it. `own` is the name that it has inside.
    ///
    /// # Errors
    /// `NoMemory`.
    pub fn captured(
        &self,
        scope: &[Slot],
        own: &Option<Text>,
        function: &Function,
    ) -> Result<Vec<Slot>, NoMemory>
        ensures { IfOk result (λ kept. kept.items ≡ captured (surroundings_of self.now) scope.now own.now function.now) }
    {
        let free = self.free.of(self.alloc, own, function)?;
        cut(self.alloc, free, scope)
    }

    /// The expressions in the dollars of the tilde of that number, of which there are none where there is no such tilde. Takes no memory.
    pub fn dollars(&self, id: u32) -> &[Expr]
        ensures { result.now ≡ dollars_of (slice_get (surroundings_of self.now).tildes id) }
    {
        match self.free.tildes().get(id as usize) {
            Some(tilde) => tilde.dollars.items(),
            None => &[],
        }
    }
}

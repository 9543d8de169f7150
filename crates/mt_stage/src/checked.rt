ghost use Rattle.std.specs.Prelude.{◌≡◌, ◌++◌, IfErr, IfOk};
ghost use Rattle.mt_syntax.specs.First.{first_of};
ghost use Rattle.mt_stage.specs.Accepted.{IsAccepted, Refuses, broken_places};
ghost use Rattle.mt_syntax.specs.ProgramLimits.{IsWithinLimits};
ghost use Rattle.mt_stage.specs.Services.{services_of};

use crate::refusal::StageRefusal;
use crate::services::services;
use mt_stage_declared::declared_twice;
use mt_stage_placement::first_misplaced;
use mt_stage_scopes::misused_name;
use mt_syntax::{Broken, Program, earlier};
use mt_tree::{NoMemory, Row, Text};
use std::alloc::Global;
use std::marker::Model;

/// A program that breaks no rule. Contracts see the program alone.
#[derive(Drop)]
pub struct Checked {
    program: Program,
    services: Row<Text>,
}

impl Model for Checked {
    ghost use Rattle.std.specs.Prelude.{◌≡◌};
    ghost use Rattle.std.specs.Coded.{codes};
    ghost use Rattle.mt_syntax.specs.contracts.tree.Expr as expr;
    ghost use Rattle.mt_syntax.specs.contracts.tree.Stmt as stmt;
    ghost use Rattle.mt_syntax.specs.declared.program.Program.{Program};
    ghost use Rattle.mt_stage.specs.Accepted.{IsAccepted};
    ghost use Rattle.mt_stage.specs.Services.{services_of};

    ghost Value = { Program };

    ghost coded = { Prim.hlevel (codes, expr.the_row.coded, stmt.the_row.coded) };

    ghost view = { λ checked. checked.program };

    ghost invariant = { λ checked. IsAccepted checked.program × (checked.services ≡ services_of checked.program.items) };
}

impl Checked {
    /// Lends the program. Takes no memory.
    pub fn program(&self) -> &Program
        ensures same { result.now ≡ self.now }
        ensures accepted { IsAccepted self.now }
    {
        &self.program
    }

    /// Lends the names of the services, in text order. Takes no memory.
    pub fn services(&self) -> &Row<Text>
        ensures { result.now ≡ services_of self.now.items }
    {
        &self.services
    }
}

/// Keeps the program where it breaks no rule. It is one that the grammar derives, at most 60 deep, and none of its texts passes
/// 1,048,576 units of UTF-16.
///
/// # Errors
/// `Broken` exactly where a rule is broken: with the first broken place, and the lowest rule that is broken there. `NoMemory` where
/// memory runs out. The program is then dropped.
pub fn check(alloc: Global, program: Program) -> Result<Checked, StageRefusal>
    requires { IsWithinLimits program }
    ensures same { IfOk result (λ checked. checked ≡ program) }
    ensures accepted { IfOk result (λ checked. IsAccepted checked) }
    ensures refused { IfErr result (λ refusal. Refuses refusal program) }
{
    match first_broken(alloc, &program)? {
        Some(broken) => Err(StageRefusal::Broken {
            rule: broken.rule,
            place: broken.place,
        }),
        None => {
            let services = services(alloc, &program.items)?;
            Ok(Checked { program, services })
        }
    }
}

fn first_broken(alloc: Global, program: &Program) -> Result<Option<Broken>, NoMemory>
    ensures { IfOk result (λ found. found ≡ first_of (broken_places program.now)) }
{
    let misplaced = first_misplaced(alloc, program)?;
    let twice = declared_twice(alloc, program)?;
    let misused = misused_name(alloc, program)?;
    Ok(earlier(misplaced, earlier(twice, misused)))
}

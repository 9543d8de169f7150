//! The entry of a function's body, group by group.

ghost use Rattle.std.specs.Prelude.{◌≡◌, ◌++◌, ◌-◌, length, IfOk};
ghost use Rattle.mt_eval_meaning.specs.Scopes.{body_entry, has_own, own_given, parameter_entry, variable_entry};
ghost use Rattle.mt_eval_meaning.specs.Entering.{function_names};
ghost use Rattle.mt_eval_meaning.specs.Hoisting.{names_of, variables};

use crate::entry::Entry;
use mt_resolve_free::{function_names, has, names_of, variables};
use mt_syntax::{Mark, Stmt};
use mt_tree::{NoMemory, Row, Text};
use std::alloc::Global;

/// The entry of a function's body, with the sizes of its groups.
#[derive(Drop)]
pub struct Entered {
    /// The names that the body binds, in the order of the groups: its own name, the parameters, the variables, the functions, and
    /// those of `let` and `const`.
    pub entry: Entry,
    /// How many slots begin as undefined: the variables that are no parameters.
    pub variables: usize,
    /// How many slots behind these are not declared yet: the functions, `let` and `const`.
    pub undeclared: usize,
}

/// Whether a function expression has its own name inside: it has one, and its body binds no parameter, variable or function of that
/// name.
///
/// # Errors
/// `NoMemory`.
pub fn own_given(
    alloc: Global,
    own: &Option<Text>,
    parameters: &[Mark],
    body: &Row<Stmt>,
) -> Result<bool, NoMemory>
    ensures { IfOk result (λ given. given ≡ own_given 0 own.now (names_of parameters.now) body.now) }
{
    match own {
        None => Ok(false),
        Some(name) => {
            let bound = bound_names(alloc, parameters, body)?;
            Ok(!has(bound.as_slice(), name))
        }
    }
}

// The names that a body binds otherwise than by `let` and `const`.
fn bound_names(alloc: Global, parameters: &[Mark], body: &Row<Stmt>) -> Result<Vec<Text>, NoMemory>
    ensures { IfOk result (λ names. names.items ≡ names_of parameters.now ++ (variables body.now ++ function_names body.now)) }
{
    let mut names = names_of(alloc, parameters)?;
    let mut declared = variables(alloc, body)?;
    declared.append(&mut function_names(alloc, body.items())?)?;
    names.append(&mut declared)?;
    Ok(names)
}

/// The entry of a function's body, behind an activation of that size. `own` is the name of a function expression.
///
/// # Errors
/// `NoMemory`.
pub fn enter(
    alloc: Global,
    size: usize,
    own: &Option<Text>,
    parameters: &[Mark],
    body: &Row<Stmt>,
) -> Result<Entered, NoMemory>
    ensures entry { IfOk result (λ entered. entered.entry ≡ (size, body_entry size own.now (names_of parameters.now) body.now)) }
    ensures variables { IfOk result (λ entered. entered.variables ≡ length (variable_entry size own.now (names_of parameters.now) body.now) - length (parameter_entry size own.now (names_of parameters.now) body.now)) }
    ensures undeclared { IfOk result (λ entered. entered.undeclared ≡ length (body_entry size own.now (names_of parameters.now) body.now) - length (variable_entry size own.now (names_of parameters.now) body.now)) }
{
    let mut entry = Entry::new(alloc, size);
    entry.bind_own(own, own_given(alloc, own, parameters, body)?)?;
    entry.bind_parameters(parameters)?;
    let given = entry.len();
    entry.bind_names_once(variables(alloc, body)?.as_slice())?;
    let declared = entry.len();
    entry.bind_names_once(function_names(alloc, body.items())?.as_slice())?;
    entry.bind_lexicals(body.items())?;
    let all = entry.len();
    Ok(Entered {
        entry,
        variables: all_but(declared, given),
        undeclared: all_but(all, declared),
    })
}

// How many are left of all without some.
fn all_but(all: usize, some: usize) -> usize
    ensures { result ≡ all - some }
{
    all.saturating_sub(some)
}

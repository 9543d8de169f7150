//! What the evaluation of code means: by names, as the specification says it, and on slots, as it is done.
//!
//! Code is evaluated on a state: the cells of the store, what their functions hold, the global variables of a client, a host that does
//! what lies outside the language, and a budget of steps. An evaluation gives a result or leaves by a throw or a stop
//! (`specs/Runs.antt`, `specs/State.antt`).
//!
//! By names, the definition stands in two parts. What a form of the language does with the evaluations of its parts says nothing of
//! names: `References` (reading and writing), `Expressions`, `Calls` and `Statements`. How names are bound and looked up is the second
//! part: `Names`, `Hoisting` and `Entering`, and `Evaluation` with one case for each statement and expression of the syntax tree.
//!
//! On slots, a list of the addresses of the variables that stand around, the newest last, takes the place of names. A name that is bound in
//! the code names a slot, and a function lists the slots that it captures. Else the tree is that of the syntax, without places, and with
//! functions by their numbers. `specs/Slots.antt` is this definition: each case is a form of the first part, so the two differ in how
//! variables are found and made, and in nothing else (`specs/Activations.antt`). `specs/Code.antt` says which resolved code stands for which
//! syntax, and `Agreement`, `States` and `Stores` what it means that both agree.
//!
//! [`Host`] is the trait by which one evaluator serves both tiers. Its meaning (`specs/Host.antt`) is a function of the store without what
//! functions hold, and answers with cells to add. The agreement's proof, the resolver and the evaluator stand on this crate.
#![tactic(auto)]

mod budget;
mod callee;
mod completion;
mod exit;
mod expr;
mod function;
mod host;
mod name;
mod named_value;
mod reference;
mod state;
mod stmt;

pub use budget::Budget;
pub use callee::Callee;
pub use completion::Completion;
pub use exit::{Done, Exit, Stop};
pub use expr::{Attribute, Entry, Expr, Piece};
pub use function::{Body, Function, Hoisted, Unit};
pub use host::Host;
pub use name::{Binding, Name};
pub use named_value::NamedValue;
pub use reference::{Reference, Referent};
pub use state::State;
pub use stmt::{Decl, ForStart, Stmt};

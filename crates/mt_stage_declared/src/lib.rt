//! What the parts of a program declare, in which scope, and where a name is declared twice.
//!
//! A function has its parameters, its `var` names at any depth outside inner functions, and the functions, `let` and `const`
//! at its top. A block has its `let` and `const`, and a catch has its name. [`declared_twice`] gives the first place at which
//! a name stands that its scope already has in a way that doesn't go with it, or that a builtin has where the top of the file
//! or of a tilde declares it. [`declares_once`] answers without taking memory whether client code has no such place, and
//! [`declares_once_by_table`] answers it in time in proportion to the code's size. All go through the scopes by one walk, which looks
//! names up in a table, or else compares them.
//!
//! `specs` has the definitions: which declarations there are in each scope (`Declarations`), results on trees beside what the
//! trees declare (`Parts`), which two declarations clash (`Clashes`), the builtins (`Builtins`), and the list of places at
//! which a name is declared twice (`Twice`). The rules on the use of names stand on this crate.
#![tactic(auto)]

mod builtins;
mod check;
mod declaration;
mod first;
mod kinds;
mod names;
mod predicate;
mod repeated;
mod scope;
mod search;
mod table;
mod walk;

pub use builtins::{builtin, builtin_of_both, client_builtin, server_builtin};
pub use check::{declared_twice, declares_once, declares_once_by_table};
pub use declaration::{Declaration, DeclarationKind, declare};
pub use names::{declare_all, declared_here, declared_in_file};
pub use scope::Scope;

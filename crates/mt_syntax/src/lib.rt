//! The syntax tree of a program, and the definitions that every layer above shares.
//!
//! A program is a tree of statements and expressions for the server, with its tildes beside it: each tilde is client code with
//! the expressions of its dollars. Contracts see these types as plain trees without pointers. [`substitute`] gives the client
//! code in which values stand in the place of the dollars.
//!
//! The definitions stand in `specs`, one idea a file, each a function on whole trees that is given by what it makes of one
//! node (`Fold`): how deep a tree is (`Depth`), what substitution gives (`Substitution`), which programs the grammar derives
//! (`Derivation`, with `Shape`, `Tiers`, `Numbering` and `Names`), which lists of statements are codes (`Codes`), what data are and how large
//! (`Data`, `DataLimits`), the texts of data, code and pages (`DataText`, `CodeText`, `PageText`, `Pages`), and which programs are within
//! the limits (`Texts`, `ProgramLimits`).
//!
//! The stage rules stand here by name ([`Rule`]). A program is refused at its first broken place and, where two rules are broken
//! there, by the one with the lower number. The first of several broken places doesn't depend on the order in which they are found:
//! [`earlier`] can join what parts of a program give in any grouping and order.
#![tactic(auto)]

mod broken;
mod laws;
mod program;
mod rule;
mod substitution;
mod tree;

pub use broken::{Broken, earlier};
pub use laws::{first_broken_is_the_least, first_broken_of_lists, order_of_finding_is_free};
pub use program::{Code, Program, Tilde};
pub use rule::Rule;
pub use substitution::substitute;
pub use tree::{
    Decl, Expr, ExprKind, ForStart, Function, Mark, Markup, MarkupAttribute, MarkupChild,
    MarkupValue, Prop, Stmt, StmtKind,
};

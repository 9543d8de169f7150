//! The names that code declares and the names that are free in its functions.
//!
//! [`FreeNames::of`] gives the names that a function uses and doesn't bind, those in the dollars of its tildes included: just the names
//! whose variables the function captures. [`variables`] gives the `var` names of a body, in text order. Both go through the syntax tree
//! as it stands, without a limit on its depth, and refuse nothing: only memory can be wanting.
//!
//! What is free is defined with the agreement of code on slots and by names (`mt_eval_agreement`, `specs/Free.antt`), and what a body
//! declares with the evaluation (`mt_eval_meaning`, `specs/Hoisting.antt`); the functions here compute just these. The resolver of names
//! stands on this crate.
#![tactic(auto)]

mod free;
mod hoisting;
mod names;
mod used;
mod walk;

pub use free::FreeNames;
pub use hoisting::{function_names, service_names, variables};
pub use names::{has, names_of, push_name, without};

//! The check of the stage rules, which decides what programs are accepted.
//!
//! [`check`] takes a program that the grammar derives and either gives it back as a [`Checked`] program, which breaks no rule, or names
//! the first broken place and, at that place, the rule with the lowest number. [`fits_client`] answers for client code that was read from
//! a page whether it breaks one of the two rules that such code can break.
//!
//! `Accepted` in `specs` has the list of broken places of a program and the record of what is known of an accepted one, `CodeLimits` which
//! client code is within the limits, `Services` the names of the services, and `Made` which programs evaluate to elements of the tables.
//!
//! The laws say that a refusal is the first, that an accepted program breaks nothing, that each of its tildes becomes client code within the
//! limits, and that its elements have tags and distinct attributes of the tables. For the tildes, `Tildes` in `proofs` goes from the program
//! to one tilde; `Plain`, `Texts`, `Jumps` and `Names` each prove one of the limits for its body, and `Limits` joins them. The resolver, the
//! reader of client code, the server and the audit stand on this crate.
#![tactic(auto)]

mod checked;
mod client;
mod laws;
mod refusal;
mod services;

pub use checked::{Checked, check};
pub use client::fits_client;
pub use laws::{
    accepted_breaks_nothing, accepted_programs_are_made, refusal_is_the_first,
    tildes_become_code_within_limits,
};
pub use refusal::StageRefusal;

//! Where the forms of the language may stand: the rules on dollars, tildes, services, elements, attributes and jumps.
//!
//! [`first_misplaced`] gives the first place of a program at which such a rule is broken, and [`jumps_fit`] answers for a body
//! of client code alone. The definitions in `specs` give all broken places of a program: `Forms` those of dollars, tildes, services and
//! elements, `Jumps` those of `return`, `break` and `continue`, and `Placement` those of the whole, where the code of each tilde is a
//! body of its own and the expressions of its dollars are server code again. Each is a function on whole trees that joins what
//! the nodes give, to the list of all places or to the first of them; that both agree is proved. The check of a whole program
//! stands on this crate.
#![tactic(auto)]

mod forms;
mod jumps;
mod program;

pub use program::{first_misplaced, jumps_fit};

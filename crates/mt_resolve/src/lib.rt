//! Names are resolved to slots: a program, or the code of a tilde, becomes code on slots that stands for it.
//!
//! [`resolve`] makes the units of a file, and [`resolve_client`] adds the unit of client code to those of a page. Each name that is
//! bound in the code gets the slot of its variable in the activation; a function captures the variables of the names that are free in it, and
//! no others. A name that nothing inside binds stays one of a service, a builtin or a global variable, as the surroundings say. What
//! they give is proved to stand for the syntax (`mt_eval_meaning`, `specs/Code.antt`), so it is evaluated as the syntax is.
//!
//! `specs/Resolving.antt` says which code each expression and statement becomes, and which functions are put behind those that are there;
//! `specs/Tops.antt` which code a file and client code become, and `specs/Resolved.antt` what the results promise. Memory alone can be
//! wanting: the condition that syntax is at most 60 deep (`specs/Within.antt`) keeps out all other refusals, and the law
//! [`shallow_programs_are_within`] says that each program within the limits of the stage check meets it.
//!
//! Further laws say that code that was resolved stays resolved where further code is added: so a handler is resolved once, and called at
//! each event. [`resolve_client`] adds functions and keeps those that were there under their numbers (`Extends`), and a page begins with the
//! units of the empty file. The evaluator, the server and the client stand on this crate.
#![tactic(auto)]

mod bodies;
mod expressions;
mod laws;
mod markup;
mod program;
mod resolver;
mod service;
mod statements;
mod units;

pub use bodies::{all_hoisted, body, declared_function};
pub use laws::{
    client_code_stays, file_stays, new_units_are_numbered, services_capture_the_top,
    shallow_programs_are_within,
};
pub use program::{resolve, resolve_client};
pub use resolver::Resolver;
pub use service::Service;
pub use statements::stmts;
pub use units::{UnitId, Units};

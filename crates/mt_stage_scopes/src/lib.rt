//! Which names may be used where: client code uses names of the client, and server code names of the server.
//!
//! A server name is one that server code binds around the place, a top name of the file, a service, or a builtin of the
//! server or of both tiers. A client name is one that is bound around the place inside the tilde, a client global, or a builtin
//! of the client or of both tiers; client globals are what any tilde of the file declares by `var` at any depth outside inner
//! functions, or as a function at its top. The expression of a dollar is server code again, and sees the server names around
//! its tilde. [`misused_name`] gives the first name of a program that is used where it may not be.
//!
//! `specs` has the definitions: the names, tildes and dollars of a piece of code with the scopes around each (`Sites`), the
//! rules on one name (`Rules`), and the list of broken places of a program (`Misused`).
#![tactic(auto)]

mod around;
mod check;
mod globals;
mod rules;
mod site;
mod sites;

pub use check::misused_name;

//! The start of an application: the top level of its file, evaluated on the server.
//!
//! [`start`] reads the text of an application and evaluates it, on an empty store and with the steps of a job, over a host that has the
//! builtins and the log. It promises the ending that the definition by names gives to the program: `specs/Starts` says which one, with the
//! lines of the log or the text of what was thrown. A text has one ending alone ([`a_text_has_one_ending`]). The top call stands on
//! this crate.
#![tactic(auto)]

mod laws;
mod startup;

pub use laws::a_text_has_one_ending;
pub use startup::{Startup, start};

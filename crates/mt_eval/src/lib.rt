//! The evaluation of code whose names are resolved, on both tiers.
//!
//! [`evaluate`] runs the code of a tier, and [`call`] begins a job with the call of a value. Each does what its definition in `mt_eval_meaning`
//! says, for every host: the same ending, store, global variables, host and budget. Or each answers `NoMemory`. At most 48 calls of
//! functions are in progress at a time.
//!
//! What a form of the language does stands in the crates below, over functions that evaluate the parts; here the two are tied to each
//! other (`levels`).
#![tactic(auto)]

mod jobs;
mod levels;

pub use jobs::{call, evaluate};

//! A generated application and schedule, by which the program can be tried at any size.
//!
//! The application counts clicks: its one page has a button whose handler calls a service. The schedule loads that page for
//! as many clients as there are clicks, 64 at most, and then clicks in each of them in turn, serving and delivering each
//! message at once. [`generate`] gives exactly these two texts. Want of memory is its only refusal.
//!
//! What measures the load of a run stands on this crate.
#![tactic(auto)]

mod generated;
mod lines;
mod schedule;

pub use generated::{Generated, generate};

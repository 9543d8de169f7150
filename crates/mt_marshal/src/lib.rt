//! Marshalling: what a list of values is as data that can leave its tier, or the first rule that it breaks.
//!
//! [`snapshot`] walks the values depth first and gives their data, or the first broken rule with what was counted up to it, as
//! `specs/Snapshot.antt` says. The data hold no address, so that a later change of a cell isn't seen in them. [`build`] is the way back:
//! fresh cells for data. [`elaborate`] makes client code of a tilde and of the data of its dollars' values, and [`frame`] a frame of a
//! service and of the data of its arguments. The hosts of the server and of the client stand on this crate.
#![tactic(auto)]

mod cells;
mod counts;
mod elaboration;
mod laws;
mod node;
mod paying;
mod refusal;
mod rule;
mod walk;

pub use elaboration::{elaborate, frame};
pub use laws::{
    built_data_are_lawful, built_data_are_their_snapshot, data_within_limits_can_be_built,
};
pub use mt_eval_steps::build;
pub use refusal::Refused;
pub use rule::MarshalRule;
pub use walk::snapshot;

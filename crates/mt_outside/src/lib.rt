//! What lies outside the program: files, a sink for output, a wire that carries messages, and a door for connections.
//!
//! Each is a trait with a count of its faults that never falls, and a call fails only where the count that belongs to it rose
//! (or stands at the last value of a u64). A form may tell its contents; what a call does to them is then exact: nothing is
//! lost, invented or reordered, and after a call that fails everything is as it was. What a form doesn't tell, no contract
//! claims.
//!
//! The forms in memory tell everything, and fail exactly at the calls whose numbers they were given (files also at a missing
//! name, a door also past its last connection), so that a run can be tried with each of its calls failing in turn.
//! `write_all`, `read_file` and `take_slot` repeat a call until all is written, read or taken, in pieces of bounded size.
#![tactic(auto)]

mod alteration;
mod alters;
mod arriving;
mod awaits;
mod calls;
mod closed_door;
mod door;
mod entries;
mod fault;
mod fault_plan;
mod files;
mod memory_door;
mod memory_files;
mod memory_sink;
mod memory_wire;
mod message_store;
mod reading;
mod sink;
mod stored_connection;
mod stored_message;
mod taking;
mod wire;
mod writing;

pub use alteration::Alteration;
pub use alters::Alters;
pub use awaits::Awaits;
pub use closed_door::ClosedDoor;
pub use door::Door;
pub use fault::{Failed, SendFault};
pub use fault_plan::{FaultPlan, PieceLimit};
pub use files::Files;
pub use memory_door::MemoryDoor;
pub use memory_files::{FileEntry, MemoryFiles};
pub use memory_sink::MemorySink;
pub use memory_wire::MemoryWire;
pub use reading::{ReadFault, read_file};
pub use sink::Sink;
pub use taking::{TakeFault, Taken, take_slot};
pub use wire::{Slot, Wire};
pub use writing::write_all;

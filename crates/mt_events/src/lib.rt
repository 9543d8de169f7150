//! The events of a page: who listens, and in which order an event goes to handlers and listeners.
//!
//! [`Listeners`] keeps the functions that listen, in the order of adding. A [`Dispatch`] goes along a path of nodes that is fixed as
//! it starts, from the target to the root of its tree. On each node it gives the handler attribute its turn first, and then the
//! listeners, which it copies as it arrives there, before the handler runs; a listener that is removed afterwards still gets its
//! turn. [`Dispatch::stop`] takes the turns of later nodes alone. So the turns are those of the definition, whatever the program does to
//! the page and to the listeners in between; the laws say so for any world in which the turns act.
//!
//! A page is known by [`Page`] alone. The client stands on this crate.
#![tactic(auto)]

mod dispatch;
mod laws;
mod listeners;
mod page;
mod turn;

pub use dispatch::Dispatch;
pub use laws::{dispatch_begins, dispatch_ends, dispatch_goes_on};
pub use listeners::{Listener, Listeners};
pub use page::Page;
pub use turn::Turn;

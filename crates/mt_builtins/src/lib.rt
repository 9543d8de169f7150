//! The builtins of both tiers: `String(v)`, `Number(v)`, `Error(m)`, `Object.keys(o)` and `Array.isArray(v)`, with what a call of each
//! costs.
//!
//! [`native`] calls a builtin by its value, and [`method`] one that is a method of `Object` or `Array`. Each answers as its
//! definition in `specs/Builtins.antt` says: a value, or a thrown error, which is a fresh object with the properties `name` and
//! `message`. No cell of the store changes: an array, an object or an error goes behind all others. A store that is lawful stays
//! lawful. [`method`] takes its steps from the budget before its work, or stops the job and takes none. Want of memory is the only
//! other answer.
//!
//! [`refuse`] and [`no_property`] throw what a host throws in place of an answer. [`text_argument`] and [`append_line`] are what
//! `log` and `alert` share. The hosts of both tiers stand on this crate; `proofs/Hosts.antt` has the laws that lead from its
//! contracts to that of a host.
//!
//! [`PlainHost`] is a host of the evaluator with these builtins and `log`, and nothing else: no services, no client code, no HTML. It keeps
//! the lines of its log. What each of its calls means is a table in `specs/Plain.antt`, by which an evaluation over this host is known in
//! full, log and store included.
#![tactic(auto)]

mod functions;
mod host;
mod line;
mod made;
mod methods;
mod number;
mod refusal;

pub use functions::{native, text_argument, texts_made_cost_nothing};
pub use host::PlainHost;
pub use line::append_line;
pub use methods::method;
pub use refusal::{no_property, refuse};

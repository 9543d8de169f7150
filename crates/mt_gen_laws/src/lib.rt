//! What the generated schedule asks for: it is a schedule, of exactly the commands that its generator's steps name.
//!
//! The one law here is that the definition of the generated text meets the definition of schedules, so whoever reads that text
//! by the reader of schedules gets these commands and no refusal but want of memory.
#![tactic(auto)]

mod laws;

pub use laws::generated_schedule_is_read;

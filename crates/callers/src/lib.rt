//! Runs of code that calls the functions of a queue of one sender and one receiver (`spsc_queue`), by drawn schedules,
//! and what its callers owe.
//!
//! The contract: [`check_callers`] states what it answers of the runs that the generator's words draw (`specs/Answers.antt`): that
//! the queue's theorem holds of each, or the first violation (`specs/Violations.antt`) with a short schedule of a run that has it.
//! This crate judges nothing that callers receive, and claims nothing of other runs.
//!
//! Called by `ztso`.

#![tactic(auto)]

mod answer_texts;
pub mod counts;
pub mod engine;
pub mod judging;
pub mod laws;
mod locating;
pub mod queue;
pub mod run_output;
pub mod runs;
pub mod violations;

pub use engine::callers_engine;
pub use laws::{callers_alike, laws_of_caller_violations};
pub use queue::{Queue, QueueKind};
pub use run_output::check_callers;
pub use violations::CallerViolation;

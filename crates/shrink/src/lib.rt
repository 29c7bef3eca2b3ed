//! Schedules made short: of a run that is finished, the events that its outcome needs.
//!
//! The contract: [`shrink`] answers a part of the given events whose run is finished too, with the same
//! last values of the test's observed locations, and from which no single event can be left out
//! (`IsShrunk` of `specs/Shrinking.antt`); a run that isn't finished is refused. [`shrink_run`] does so
//! for a machine at the end of its run. [`leave_out`] makes lists short by any [`Question`] about them.
//! This crate reads and writes no text, and promises no shortest list: only that each event is needed.
//!
//! Called by `judged_runs` and `view_engines`.

#![tactic(auto)]

mod faults;
mod passes;
mod shrinking;
mod trying;

pub use faults::ShrinkError;
pub use passes::{Question, leave_out};
pub use shrinking::{shrink, shrink_run};

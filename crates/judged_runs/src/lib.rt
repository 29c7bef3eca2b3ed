//! Drawn runs, judged one by one: what all of them come to, or the first one with a flaw, made short.
//!
//! The contract: a [`Judge`] defines when a run is good, which flaw another one has, and what good runs count to;
//! [`JudgedRuns`] are drawn runs that [`drawn_runs::parallel::in_rounds`] spreads over jobs, and of what it finds
//! [`told_of_runs`] tells that all are good and what they count to, or a short schedule that has a flaw like that of the first
//! other one (`specs/Telling.antt`). This crate writes no text, and knows neither queue nor ring.
//!
//! Called by `ring_trials`, `ownership_runs`, `callers` and `certifying`.

#![tactic(auto)]

pub mod finding;
pub mod judge;
pub mod telling;

pub use finding::{Found, JudgedRuns};
pub use judge::Judge;
pub use telling::{Told, told_of_runs};

//! Many runs of a test by drawn schedules, and the table of their outcomes.
//!
//! The contract: what `try_engine` writes is what a relation says of the runs that the generator's words
//! draw, however they were spread over threads (`IsTryAnswer` of `specs/Outcomes.antt`). What it reports
//! through [`drawn_runs::progress::Progress`] no clause says. It has no tests: the cases of the program run it.
//!
//! Called by `ztso`.

#![tactic(auto)]

pub mod laws;
pub mod stops;
pub mod trials;

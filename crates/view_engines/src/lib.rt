//! Runs and tests for people who look at them: the engines of the commands `shrink`, `chart` and `show`.
//!
//! The contract: each engine's clause states what it writes for what its readers give, byte for byte, and
//! what each fault means (`Ends` of `engine_support/specs/Engines.antt`). This crate knows no command line,
//! opens no file and names no standard stream. It has no tests: the cases of the program run its engines.
//!
//! Called by `ztso`.

#![tactic(auto)]

mod about;
pub mod charting;
mod heading;
pub mod laws;
mod least_widths;
mod openings;
pub mod showing;
pub mod shrinking;
mod test_lines;

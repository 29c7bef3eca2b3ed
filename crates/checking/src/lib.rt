//! The command `check`: records of a test, one after the other, each judged by itself.
//!
//! The contract: what [`check_engine`] writes is what a relation says of the test and of the lines that its
//! reader gives, byte for byte (`IsCheckAnswer` of `specs/Checking.antt`): a line for each record, which says
//! whether it is the record of a run, or the first event that differs with both outcomes, and then the table
//! of the outcomes. It has no tests: the cases of the program run it.
//! This crate names no file, keeps no record longer than it takes to judge it, and never says that no run has
//! some outcomes: it judges one order of events.
//!
//! Called by `ztso`.

#![tactic(auto)]

pub mod check;
mod event_lines;
mod judging;
pub mod laws;
mod reading;
mod reports;
mod table;
mod tally;

pub use check::check_engine;

//! Litmus texts, to tests.
//!
//! The contract: [`read`] answers the test that the text stands for, or the kind of the first fault in
//! reading order. Which text stands for which test is defined by cases in `specs/Grammar.antt`, on the
//! shapes of texts (`Shapes`), the layout (`Layout`), the init part (`Openings`), the table (`Columns`)
//! and the condition (`ConditionGrammar`); a text has one test at most ([`laws::one_test`]), its code the one plain
//! word of each instruction. Which fault is the first one is defined by the reading from the top, a function
//! of the text (`Reading`), part by part: `Header`, `Init`, `Rows`, `Table`, `Values`, `Condition`; it
//! names a fault exactly where the text has no test ([`laws::refused_without_value`]). Both stand on the
//! grammars of comments, items, conditions and programs in the crates below. [`read_heading`] answers a
//! test's name and its condition's text (`specs/Headings.antt`), [`read_listing`] the lines of its table's rows
//! with what each cell defines and makes (`specs/Listings.antt`). The line of a place is that
//! of `Lines`; which place a fault is met at is shown by tests and cases alone.
//! This crate opens no file, runs no test, and knows no other form of litmus texts than its own:
//! a header line, an init part, a table of assembly statements and a condition.
//!
//! Called by `engine_support` and `view_engines`.

#![tactic(auto)]

mod assignments;
mod condition;
pub mod faults;
mod header;
pub mod headings;
mod init;
pub mod laws;
pub mod listings;
mod locations;
mod marks;
mod opening;
pub mod reading;
mod refusals;
mod rows;
mod table;

pub use faults::{LitmusError, LitmusFault};
pub use headings::{Heading, read_heading};
pub use listings::{ListedCell, ListedRow, read_listing};
pub use reading::read;

//! Litmus tests: what one is, and what it says of a machine. No text is read or printed here.
//!
//! The contract: a [`ConditionDraft`] takes the symbols of a condition one at a time and makes the one
//! formula that they stand for by the grammar of `specs/Grammar.antt`, or refuses the first symbol with
//! which no condition begins. [`Test::verdict`] and [`Test::values`] answer by the last registers and
//! words of a machine's history (`specs/Verdicts.antt`).
//! This crate runs no machine, and nothing in it recurses: a condition may be as deep as memory allows.
//!
//! Called by more than 6 crates, from `shrink` to `ztso`.

#![tactic(auto)]

mod builder;
mod condition;
mod draft;
mod judging;
pub mod laws;
mod lefts;
mod litmus_test;
mod symbols;
mod verdict;

pub use condition::Condition;
pub use draft::{ConditionDraft, ConditionError};
pub use litmus_test::{MAX_LOCATIONS, Test};
pub use symbols::{Place, Symbol};
pub use verdict::{Quantifier, Verdict};

//! The tokens that litmus texts are made of: what stands in init between semicolons, and what a
//! condition is made of.
//!
//! The contract: [`cleaned`] answers the text with its comments as blanks, byte for byte
//! (`specs/Cleaning.antt`); [`assignment_in`] and [`item_in`] answer the one value that a text says by the
//! grammar of `specs/Assignments.antt`, and none where it says none; [`first_token`] walks a condition by
//! the list of its tokens (`specs/Tokens.antt`), in time linear in the text.
//! This crate knows no part of a litmus text but these tokens: it gives no location an address, asks no
//! hart to be there, and joins no tokens to an expression.
//!
//! Called by `litmus_reader`.

#![tactic(auto)]

pub mod assignments;
mod cleaning;
pub mod laws;
mod names;
pub mod tokens;

pub use assignments::{Assignment, Location, Value, assignment_in, item_in};
pub use cleaning::cleaned;
pub use laws::{one_value, tokens_are_spelled};
pub use tokens::{Front, Token, first_token};

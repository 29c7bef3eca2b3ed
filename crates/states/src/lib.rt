//! The states of one opening by number.
//!
//! The contract: a [`States`] is seen as the list of the positions that were numbered, each once, as words;
//! [`States::number`] finds a machine's position there or appends it. A hash finds a candidate, and the positions are
//! compared in full. [`laws::laws_of_ends`] states that histories which end at the same words end and go on alike.
//! This crate knows no schedule and no way from one state to the next.
//!
//! Called by `surveys` and `sampling`.

#![tactic(auto)]

pub mod laws;
mod numbered;

pub use numbered::States;
